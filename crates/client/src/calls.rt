// The client's calls.
ghost use Rattle.std.specs.Prelude.{◌≡◌, ◌<◌, IfOk};
ghost use Rattle.provider.specs.Whole.{meaning};
ghost use Rattle.history.specs.Steps.{begin_step, forget_step, query_step};
ghost use Rattle.client.specs.Following.{Collects, Fetches, InOrder, state_in};
ghost use Rattle.slots.specs.Taking.{taken_report};
ghost use Rattle.slots.specs.Told.{abandon_token, ComesTo, forget_report, query_report};
ghost use Rattle.client.specs.Told.{abandon_report, begin_report, collect_report, HandsBack, Unspent};

use super::clients::Client;
use super::pending::PendingFetch;
use names::name::Name;
use provider::answers::check;
use provider::providers::Provider;
use provider::requests::{Edition, Request};
use slots::answers::Answer;
use zone::refusals::Refusal;
use zone::rows::{Instant, Interval};

// What a call leaves, the provider and a client in order, stands in each contract and is no invariant: a client over a provider that is not in order is a client too.
impl<P: Provider> Client<P> {
    /// Begins a fetch of the zone over the interval, and answers the pending fetch. Refused with 1, 2, 3, with 8 where the zone has a pending fetch already, and with 9 where all slots are taken by other zones.
    pub fn begin(&mut self, name: Name, interval: Interval) -> Result<PendingFetch, Refusal>
        ensures told { ComesTo (begin_step (meaning P.Provider self.old.provider) (state_in self.old) name interval) (begin_report result) (state_in self.new) }
        ensures unspent { Unspent result }
        ensures within { IfOk result (λ p. p.slot < 16) }
        ensures provider { self.new.provider ≡ self.old.provider }
        ensures order { InOrder P.Provider self.old → InOrder P.Provider self.new }
    {
        let request = Request {
            name,
            interval,
            known: 0,
        };
        check(&request, self.provider.span())?;
        let slot = self.slots.begin(name, interval)?;
        Ok(PendingFetch {
            slot,
            interval,
            spent: false,
        })
    }

    // Fetches for the slot, which is pending with the interval, or refuses with 10.
    fn fetch_for(&mut self, slot: usize, interval: Interval) -> Result<Edition, Refusal>
        ensures asked { Fetches P.Provider slot interval self.old self.new }
        ensures told { Collects P.Provider slot interval self.old self.new (taken_report result slot interval) }
    {
        let Some(request) = self.slots.request(slot, interval) else {
            return Err(Refusal::NotPending);
        };
        let reply = self.provider.fetch(request, &mut self.spare);
        self.slots.receive(slot, interval, reply, &mut self.spare)
    }

    /// Collects a pending fetch, and answers the edition that is held from now on. Refused with 10, 4, 7, 5 and 6, in this order; a refusal hands the pending fetch back.
    pub fn collect(&mut self, pending: PendingFetch) -> Result<Edition, (Refusal, PendingFetch)>
        ensures asked { Fetches P.Provider pending.slot pending.interval self.old self.new }
        ensures told { Collects P.Provider pending.slot pending.interval self.old self.new (collect_report result) }
        ensures back { HandsBack pending result }
    {
        let fetched = self.fetch_for(pending.slot, pending.interval);
        pending.settle(fetched)
    }

    /// Gives up a pending fetch. Refused with 10, which hands it back.
    pub fn abandon(&mut self, pending: PendingFetch) -> Result<(), (Refusal, PendingFetch)>
        ensures told { ComesTo (abandon_token (state_in self.old) pending.slot pending.interval) (abandon_report result) (state_in self.new) }
        ensures back { HandsBack pending result }
        ensures provider { self.new.provider ≡ self.old.provider }
        ensures order { InOrder P.Provider self.old → InOrder P.Provider self.new }
    {
        let abandoned = self.slots.abandon(pending.slot, pending.interval);
        pending.settle(abandoned)
    }

    /// Forgets what is held of the zone. Refused with 1, with 11 where nothing is held, and with 8 while a fetch is pending.
    pub fn forget(&mut self, name: Name) -> Result<(), Refusal>
        ensures told { ComesTo (forget_step (state_in self.old) name) (forget_report result) (state_in self.new) }
        ensures provider { self.new.provider ≡ self.old.provider }
        ensures order { InOrder P.Provider self.old → InOrder P.Provider self.new }
    {
        self.slots.forget(name)
    }

    /// The local time in the zone at an instant, with the edition that it comes from. Refused with 1, with 11 where nothing is held, and with 12 outside of what is held.
    pub fn query(&self, name: Name, at: Instant) -> Result<Answer, Refusal>
        ensures { ComesTo (query_step (state_in self.now) name at.0) (query_report result) (state_in self.now) }
    {
        self.slots.query(name, at)
    }
}
