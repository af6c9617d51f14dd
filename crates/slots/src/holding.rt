// The rules of the slots that ask no provider.
ghost use Rattle.std.specs.Prelude.{◌≡◌, ◌<◌, IfOk, Some, None};
ghost use Rattle.history.specs.Cells.{free, State, place_of};
ghost use Rattle.history.specs.Steps.{begun, forget_place, forget_step, queried_copy, query_step, settled};
ghost use Rattle.slots.specs.Seeing.{cell_of, state_of};
ghost use Rattle.slots.specs.Told.{answer_outcome, ComesTo, forget_report, query_report, slot_report};
ghost use Rattle.slots.specs.Turning.{mark_report, marked_at, TurnsTo};

use super::answers::Answer;
use super::slot::{Slot, Slots};
use cutting::look::local_time;
use names::name::Name;
use zone::refusals::Refusal;
use zone::rows::{Instant, Interval};

impl Slot {
    // Marks the slot pending: 8 where it is already.
    fn mark(&mut self, interval: Interval) -> Result<(), Refusal>
        ensures { TurnsTo (λ s k. marked_at s k interval) (λ k. mark_report result k interval) (cell_of self.old) (cell_of self.new) }
    {
        if self.pending.is_some() {
            return Err(Refusal::AlreadyPending);
        }
        self.pending = Some(interval);
        Ok(())
    }

    // Reserves the slot for the zone's first fetch, which is over this interval.
    fn reserve(&mut self, name: Name, over: Interval)
        ensures { cell_of self.new ≡ record { owner = Some name; copy = None; pending = Some over } }
    {
        self.owner = Some(name);
        self.held = None;
        self.pending = Some(over);
    }

    // Frees the slot: 11 where it holds nothing, 8 while a fetch is pending.
    fn forget(&mut self) -> Result<(), Refusal>
        ensures { TurnsTo (λ s k. settled s (forget_place s (Some k))) (λ k. forget_report result) (cell_of self.old) (cell_of self.new) }
    {
        if self.held.is_none() {
            return Err(Refusal::NotHeld);
        }
        if self.pending.is_some() {
            return Err(Refusal::AlreadyPending);
        }
        self.release();
        Ok(())
    }

    // Nobody owns the slot, it holds nothing, and nothing is pending.
    pub(crate) fn release(&mut self)
        ensures { cell_of self.new ≡ free }
    {
        self.owner = None;
        self.held = None;
        self.pending = None;
    }

    // The local time by what the slot holds: 11 where it holds nothing, 12 outside of its window.
    fn query(&self, at: Instant) -> Result<Answer, Refusal>
        ensures { (s : State) → queried_copy s at.0 (cell_of self.now).copy ≡ answer_outcome result s }
    {
        let version = self.held.ok_or(Refusal::NotHeld)?;
        let local = local_time(&self.window, at)?;
        Ok(Answer {
            edition: version.edition,
            local,
        })
    }
}

impl Slots {
    /// Marks the zone's slot pending, or reserves the first free one; answers its place.
    pub fn begin(&mut self, name: Name, interval: Interval) -> Result<usize, Refusal>
        ensures within { IfOk result (λ i. i < 16) }
        ensures told { ComesTo (settled (state_of self.old) (begun (state_of self.old) name interval (place_of (state_of self.old) name))) (slot_report result interval) (state_of self.new) }
    {
        let Some(i) = self.find(&name) else {
            return self.begin_new(name, interval);
        };
        self.slot_mut(i).mark(interval)?;
        Ok(i)
    }

    // Reserves the first free slot: 9 where none is.
    fn begin_new(&mut self, name: Name, interval: Interval) -> Result<usize, Refusal>
        ensures within { IfOk result (λ i. i < 16) }
        ensures told { ComesTo (settled (state_of self.old) (begun (state_of self.old) name interval None)) (slot_report result interval) (state_of self.new) }
    {
        let i = self.find_free().ok_or(Refusal::NoFreeSlot)?;
        self.slot_mut(i).reserve(name, interval);
        Ok(i)
    }

    /// Frees the zone's slot: 1 the name, 11 where it holds nothing, 8 while a fetch is pending.
    pub fn forget(&mut self, name: Name) -> Result<(), Refusal>
        ensures { ComesTo (forget_step (state_of self.old) name) (forget_report result) (state_of self.new) }
    {
        if !name.is_valid() {
            return Err(Refusal::BadName);
        }
        let i = self.find(&name).ok_or(Refusal::NotHeld)?;
        self.slot_mut(i).forget()
    }

    /// The local time by what the zone's slot holds: 1 the name, 11 where it holds nothing, 12 outside of its window.
    pub fn query(&self, name: Name, at: Instant) -> Result<Answer, Refusal>
        ensures { ComesTo (query_step (state_of self.now) name at.0) (query_report result) (state_of self.now) }
    {
        if !name.is_valid() {
            return Err(Refusal::BadName);
        }
        let i = self.find(&name).ok_or(Refusal::NotHeld)?;
        self.slots[i].query(at)
    }
}
