// Places for pages.
use names::name::Name;
use provider::requests::Version;
use zone::windows::Window;

/// The name of the page in a place, and which page of it that is.
#[derive(Clone, Copy)]
pub(crate) struct Label {
    pub(crate) name: Name,
    pub(crate) version: Version,
}

/// A place: the label of its page, if it has one, and the window that holds it.
// The window stands beside the option and not in it: its memory is taken when the place is made, and swapped with each page.
#[derive(Drop)]
pub(crate) struct Place {
    pub(crate) label: Option<Label>,
    pub(crate) window: Window,
}

/// How many places there are.
pub const PLACES: usize = 8;

/// Eight places.
#[derive(Drop)]
pub struct Places {
    pub(crate) places: [Place; PLACES],
}
