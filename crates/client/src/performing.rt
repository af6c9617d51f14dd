// One call of a list.
ghost use Rattle.std.specs.Prelude.{◌≡◌, ◌<◌, Some, slice_set};
ghost use Rattle.zone.specs.Refusals.{number, values};
ghost use Rattle.history.specs.Sources.{publishing_source, source};
ghost use Rattle.history.specs.Steps.{abandon, begin, collect, forget, handed_back, publish, query};
ghost use Rattle.client.specs.Listing.{call_of, Performs, report_of};

use super::listing::{Call, Outcome};
use super::pending::PendingFetch;
use super::sessions::Session;
use names::name::Name;
use provider::providers::Provider;
use provider::publishing::Publishing;
use zone::refusals::Refusal;
use zone::rows::{Instant, Interval};
use zone::windows::Table;

impl<P: Provider> Session<P> {
    fn begin(&mut self, name: Name, interval: Interval) -> Outcome
        ensures { Performs P.Provider (source P.Provider) (begin name interval) self.old self.new (report_of result) }
    {
        match self.client.begin(name, interval) {
            Err(refusal) => Outcome::Refused { refusal },
            Ok(pending) => {
                let slot = pending.slot;
                self.keep(slot, pending);
                Outcome::Began { slot, interval }
            }
        }
    }

    // The pending fetch of a slot was handed back.
    fn hand_back(&mut self, refusal: Refusal, slot: usize, back: PendingFetch) -> Outcome
        requires { slot < 16 }
        ensures told { report_of result ≡ handed_back (number refusal) (values refusal) slot back.interval }
        ensures tokens { self.new.tokens.items ≡ slice_set self.old.tokens.items slot (Some back) }
        ensures client { self.new.client ≡ self.old.client }
    {
        let interval = back.interval;
        self.keep(slot, back);
        Outcome::HandedBack {
            refusal,
            slot,
            interval,
        }
    }

    // Collect and abandon are two: each names its own rule in its contract, and what they share is in `take` and `hand_back`.
    fn collect(&mut self, name: Name) -> Outcome
        ensures { Performs P.Provider (source P.Provider) (collect name) self.old self.new (report_of result) }
    {
        let Some((slot, pending)) = self.take(&name) else {
            return Outcome::NotPending;
        };
        match self.client.collect(pending) {
            Ok(edition) => Outcome::Collected { edition },
            Err((refusal, back)) => self.hand_back(refusal, slot, back),
        }
    }

    fn abandon(&mut self, name: Name) -> Outcome
        ensures { Performs P.Provider (source P.Provider) (abandon name) self.old self.new (report_of result) }
    {
        let Some((slot, pending)) = self.take(&name) else {
            return Outcome::NotPending;
        };
        match self.client.abandon(pending) {
            Ok(()) => Outcome::Abandoned,
            Err((refusal, back)) => self.hand_back(refusal, slot, back),
        }
    }

    fn forget(&mut self, name: Name) -> Outcome
        ensures { Performs P.Provider (source P.Provider) (forget name) self.old self.new (report_of result) }
    {
        match self.client.forget(name) {
            Ok(()) => Outcome::Forgotten,
            Err(refusal) => Outcome::Refused { refusal },
        }
    }

    fn query(&mut self, name: Name, at: Instant) -> Outcome
        ensures { Performs P.Provider (source P.Provider) (query name at.0) self.old self.new (report_of result) }
    {
        match self.client.query(name, at) {
            Ok(answer) => Outcome::Answered { answer },
            Err(refusal) => Outcome::Refused { refusal },
        }
    }

    // Makes one call of a list.
    pub(crate) fn perform(&mut self, call: Call) -> Outcome
        ensures { Performs P.Provider (source P.Provider) (call_of call) self.old self.new (report_of result) }
    {
        match call {
            Call::Begin { name, interval } => self.begin(name, interval),
            Call::Collect { name } => self.collect(name),
            Call::Abandon { name } => self.abandon(name),
            Call::Forget { name } => self.forget(name),
            Call::Query { name, at } => self.query(name, at),
        }
    }
}

impl<P: Publishing> Session<P> {
    pub(crate) fn publish(&mut self, name: Name, table: &Table) -> Outcome
        ensures { Performs P.Provider (publishing_source P.Provider P.Publishing.own) (publish name table.now) self.old self.new (report_of result) }
    {
        match self.client.publish(name, table) {
            Ok(edition) => Outcome::Published { edition },
            Err(refusal) => Outcome::Refused { refusal },
        }
    }
}
