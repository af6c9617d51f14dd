// A zone of a snapshot.
use names::name::Name;
use provider::requests::Tag;
use zone::windows::Window;

/// A zone of a snapshot: its name, its tag, and its rows over the snapshot's span. Anything may stand in it; a snapshot tells whether it is good.
#[derive(Drop)]
pub struct Zone {
    pub name: Name,
    pub tag: Tag,
    pub window: Window,
}
