// Slots: what the client holds of a zone.
ghost use Rattle.std.specs.Prelude.{◌≡◌, vec_len};

use names::name::Name;
use provider::requests::{Edition, Version};
use zone::rows::Interval;
use zone::windows::Window;

/// A slot: the zone that owns it, the version that its window holds, and the interval of the zone's pending fetch.
// Three options, as the rules' cell has them; the window stands beside, since its memory is taken once.
#[derive(Drop)]
pub(crate) struct Slot {
    pub(crate) owner: Option<Name>,
    pub(crate) held: Option<Version>,
    pub(crate) pending: Option<Interval>,
    pub(crate) window: Window,
}

/// Sixteen slots, and the floor: the highest edition accepted so far. The slots are a vector, since of an array's element that is lent the check proves no clause.
#[derive(Drop)]
pub struct Slots {
    pub(crate) slots: Vec<Slot>,
    pub floor: Edition,
    ghost all: { vec_len slots ≡ 16 },
}
