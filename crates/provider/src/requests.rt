// What a fetch asks and what it is answered.
use names::name::Name;
use zone::rows::Interval;

/// The number of an edition, from 1 on.
pub type Edition = u16;

/// A number that stands for a table of a zone: two pages of a zone with the same tag have the same table. 0 stands for none.
pub type Tag = u16;

/// Which page of a zone: the edition that it is from, and its tag.
#[derive(Clone, Copy, PartialEq, Eq, Debug)]
pub struct Version {
    pub edition: Edition,
    pub tag: Tag,
}

/// A zone and an interval that are asked for, and the tag that the asker has the page of, or 0.
#[derive(Clone, Copy)]
pub struct Request {
    pub name: Name,
    pub interval: Interval,
    // A number and no Option: by the rules 0 stands for none, and no page has the tag 0.
    pub known: Tag,
}

/// The answer to a fetch.
#[derive(Clone, Copy, PartialEq, Eq, Debug)]
pub enum Reply {
    /// The page of this edition has the known tag; the lent window is as it was.
    Unchanged { edition: Edition },
    // Edition and tag apart, as the definitions have them: a `Version` would be taken apart in each of their cases.
    /// The lent window holds the cut of this edition's page, which has this tag.
    Fresh { edition: Edition, tag: Tag },
}
