// The table of slots: made once, searched, and one slot lent at a time.
ghost use Rattle.std.specs.Prelude.{◌≡◌, ℕ, ◌<◌, replicate, IfSome, IfOk, position, vec_len, slice_index_or};
ghost use Rattle.std.specs.Borrow.{sem, follows};
ghost use Rattle.std.specs.Vec.{with_item};
ghost use Rattle.history.specs.Cells.{free, is_free as cell_is_free, owned_by};
ghost use Rattle.slots.specs.contracts.slot.Slot.{the_row as slot_row};
ghost use Rattle.slots.specs.contracts.slot.Slots.{the_row as slots_row};
ghost use Rattle.slots.specs.Seeing.{cell_of, cells_of, state_of};

use super::slot::{Slot, Slots};
use names::name::Name;
use provider::requests::Edition;
use std::alloc::{AllocError, Global};
use std::array;
use zone::windows::Window;

/// How many slots a client has.
pub const SLOTS: usize = 16;

impl Slot {
    // A free slot, with the memory of its window.
    fn new(heap: Global) -> Result<Slot, AllocError>
        ensures { IfOk result (λ s. cell_of s ≡ free) }
    {
        Ok(Slot {
            owner: None,
            held: None,
            pending: None,
            window: Window::new(heap)?,
        })
    }

    // Whether the slot has no owner.
    fn is_free(&self) -> bool
        ensures { result ≡ cell_is_free (cell_of self.now) }
    {
        self.owner.is_none()
    }

    // Whether the zone owns the slot.
    fn is_owned_by(&self, name: &Name) -> bool
        ensures { result ≡ owned_by name.now (cell_of self.now) }
    {
        self.owner.is_some_and(|owner| owner == *name)
    }
}

// Much like a relay's places: what is alike is the library's (searches, swaps), and one type for both would say the rules of neither.
impl Slots {
    /// Sixteen free slots over a floor, with all the memory that they will ever take.
    pub fn new(heap: Global, floor: Edition) -> Result<Slots, AllocError>
        ensures { IfOk result (λ s. (cells_of s ≡ replicate 16 free) × (s.floor ≡ floor)) }
    {
        let slots: [Slot; SLOTS] = array::try_from_fn(|_| Slot::new(heap))?;
        Ok(Slots {
            slots: Vec::from_array(heap, slots)?,
            floor,
        })
    }

    // Lends the slot at a place to be changed; no other slot changes. A place is a plain number, as callers have it: a search answers one, and a call takes any.
    pub(crate) fn slot_mut(&mut self, i: usize) -> &mut Slot
        requires { i < 16 }
        ensures* follows { sem 𝓛 (follows slots_row slot_row self.entry.ghost_name result.ghost_name (λ w. record { slots = with_item self.old.slots i w; floor = self.old.floor; all = self.old.all })) }
        ensures value { result.now ≡ slice_index_or self.old.slots.items i result.now }
    {
        &mut self.slots[i]
    }

    /// The number of the slot that the zone owns.
    pub fn find(&self, name: &Name) -> Option<usize>
        ensures place { result ≡ position (owned_by name.now) (cells_of self.now) }
        ensures within { IfSome result (λ i. i < 16) }
    {
        self.slots.iter().position(|slot| slot.is_owned_by(name))
    }

    // The number of the first free slot.
    pub(crate) fn find_free(&self) -> Option<usize>
        ensures place { result ≡ position cell_is_free (cells_of self.now) }
        ensures within { IfSome result (λ i. i < 16) }
    {
        self.slots.iter().position(|slot| slot.is_free())
    }
}
