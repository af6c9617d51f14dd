// What is done with an answer from below.
use provider::requests::{Edition, Tag};

/// What is done with an answer from below.
// A value and no closure: deciding changes nothing, and the answer and what is kept afterwards both follow from it.
#[derive(Clone, Copy)]
pub enum Step {
    /// The answer is passed on, and the pages are kept as they were.
    PassOn,
    /// The kept page answers as of this edition, and is kept as it was.
    Serve { edition: Edition },
    /// The kept page answers as of this edition, which is its edition from now on.
    Renew { edition: Edition },
    // Edition and tag apart, as `Reply::Fresh` has them.
    /// The fresh page answers, and is kept where there is a place for it.
    Take { edition: Edition, tag: Tag },
}
