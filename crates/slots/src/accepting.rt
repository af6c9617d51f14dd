// What a collect or an abandon does to a slot.
ghost use Rattle.std.specs.Prelude.{◌≡◌, if◌then◌else◌, Some, None, slice_index_or};
ghost use Rattle.history.specs.Cells.{free};
ghost use Rattle.history.specs.Steps.{unmarked};
ghost use Rattle.slots.specs.Seeing.{cell_of, copy_of, cells_of, state_of};
ghost use Rattle.slots.specs.Taking.{can_renew, floored, received, renewal, taken_report};
ghost use Rattle.slots.specs.Told.{abandon_token, ComesTo, covering, is_pending, request_for, token_report};
ghost use Rattle.slots.specs.Turning.{Accepts, TurnsTo};

use super::slot::{Slot, Slots};
use super::table::SLOTS;
use cutting::cuts::cut_window;
use provider::requests::{Edition, Reply, Request, Version};
use zone::refusals::Refusal;
use zone::rows::Interval;
use zone::windows::Window;

impl Slot {
    // Whether the slot is pending with this interval.
    fn is_pending(&self, interval: Interval) -> bool
        ensures { result ≡ is_pending (cell_of self.now).pending interval }
    {
        self.pending.is_some_and(|pending| pending == interval)
    }

    // The version of what the slot holds, if that contains the interval.
    fn held_over(&self, interval: Interval) -> Option<Version>
        ensures { copy_of result self.now.window ≡ covering (cell_of self.now).copy interval }
    {
        self.held
            .filter(|_| interval.is_within(self.window.interval))
    }

    // The request that a collect sends for the slot: none where it is not pending with the interval.
    fn request(&self, interval: Interval) -> Option<Request>
        ensures { result ≡ request_for (cell_of self.now) interval }
    {
        if !self.is_pending(interval) {
            return None;
        }
        let name = self.owner?;
        let known = self.held_over(interval).map_or(0, |version| version.tag);
        Some(Request {
            name,
            interval,
            known,
        })
    }

    // The mark goes, and a slot that was only reserved is free: 10 where the slot is not pending with the interval.
    fn abandon(&mut self, interval: Interval) -> Result<(), Refusal>
        ensures { TurnsTo (λ s k. abandon_token s k interval) (λ k. token_report result k interval) (cell_of self.old) (cell_of self.new) }
    {
        if !self.is_pending(interval) {
            return Err(Refusal::NotPending);
        }
        self.unmark();
        Ok(())
    }

    // Removes the slot's mark, and frees it where it was only reserved.
    pub(crate) fn unmark(&mut self)
        ensures { cell_of self.new ≡ unmarked (cell_of self.old) (cell_of self.old).copy }
    {
        if self.held.is_none() {
            self.owner = None;
        }
        self.pending = None;
    }

    // What the slot holds is still good: its cut to the interval becomes what the slot holds, from this edition. None, and nothing done, where it does not contain the interval.
    #[tactic(auto, using(provider::proofs::Pages::window_cut))]
    fn renew(&mut self, interval: Interval, edition: Edition, spare: &mut Window) -> Option<Edition>
        ensures told { result ≡ (if can_renew interval (cell_of self.old).copy then Some edition else None) }
        ensures after { cell_of self.new ≡ renewal interval edition (cell_of self.old) (cell_of self.old).copy }
    {
        let held = self.held_over(interval)?;
        cut_window(&self.window, interval, spare).unwrap();
        self.install(Version { edition, ..held }, spare);
        Some(edition)
    }

    // Puts the window in the slot in the place of the slot's own, which it gets, under a version.
    fn install(&mut self, version: Version, window: &mut Window)
        ensures { cell_of self.new ≡ record { owner = (cell_of self.old).owner; copy = copy_of (Some version) window.old; pending = None } }
    {
        std::mem::swap(&mut self.window, window);
        self.held = Some(version);
        self.pending = None;
    }

    // What the provider replied to the slot's request, with what it left in the window: the edition that the slot holds from now on, not below the floor. 10 where the slot is not pending with the interval.
    fn receive(
        &mut self,
        interval: Interval,
        reply: Result<Reply, Refusal>,
        floor: Edition,
        spare: &mut Window,
    ) -> Result<Edition, Refusal>
        ensures { Accepts (λ s k. received s k interval reply spare.old) result interval floor (cell_of self.old) (cell_of self.new) }
    {
        if !self.is_pending(interval) {
            return Err(Refusal::NotPending);
        }
        match reply {
            Err(refusal) => Err(floored_by(floor, refusal)),
            Ok(Reply::Unchanged { edition } | Reply::Fresh { edition, .. }) if edition < floor => {
                Err(Refusal::BelowFloor { edition })
            }
            Ok(Reply::Unchanged { edition }) => {
                self.renew(interval, edition, spare).ok_or(Refusal::Silent)
            }
            Ok(Reply::Fresh { edition, tag }) => {
                self.install(Version { edition, tag }, spare);
                Ok(edition)
            }
        }
    }
}

impl Slots {
    // A slot's number and an interval are two parameters: together they are the client's pending fetch, which the slots do not see.
    /// The request that a collect sends for the slot: none where the slot is not pending with the interval.
    pub fn request(&self, i: usize, interval: Interval) -> Option<Request>
        ensures { result ≡ request_for (slice_index_or (cells_of self.now) i free) interval }
    {
        self.slots.get(i)?.request(interval)
    }

    /// The mark goes, and a slot that was only reserved is free: 10 where the slot is not pending with the interval.
    pub fn abandon(&mut self, i: usize, interval: Interval) -> Result<(), Refusal>
        ensures { ComesTo (abandon_token (state_of self.old) i interval) (token_report result i interval) (state_of self.new) }
    {
        if i >= SLOTS {
            return Err(Refusal::NotPending);
        }
        self.slot_mut(i).abandon(interval)
    }

    /// What the provider replied to the slot's request, with what it left in the spare window: a window of an edition not below the floor is held from now on, and the floor is that edition. 10 where the slot is not pending with the interval.
    pub fn receive(
        &mut self,
        i: usize,
        interval: Interval,
        reply: Result<Reply, Refusal>,
        spare: &mut Window,
    ) -> Result<Edition, Refusal>
        ensures { ComesTo (received (state_of self.old) i interval reply spare.old) (taken_report result i interval) (state_of self.new) }
    {
        if i >= SLOTS {
            return Err(Refusal::NotPending);
        }
        let floor = self.floor;
        let edition = self.slot_mut(i).receive(interval, reply, floor, spare)?;
        self.floor = edition;
        Ok(edition)
    }
}

// A refusal of an edition below the floor is refused for that.
fn floored_by(floor: Edition, refusal: Refusal) -> Refusal
    ensures { result ≡ floored floor refusal }
{
    match refusal {
        Refusal::NoPage { edition } | Refusal::TooManyRows { edition } if edition < floor =>
            Refusal::BelowFloor { edition },
        _ => refusal,
    }
}
