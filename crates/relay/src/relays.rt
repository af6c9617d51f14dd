// A relay to a provider, which keeps pages.
ghost use Rattle.std.specs.Prelude.{◌≡◌, [], ◌∷◌, IfOk, MatchBool, MatchResult};
ghost use Rattle.names.specs.declared.name.Name.{Name};
ghost use Rattle.zone.specs.declared.rows.Interval.{Interval};
ghost use Rattle.zone.specs.Intervals.{era};
ghost use Rattle.zone.specs.Refusals.{answered, outcome};
ghost use Rattle.zone.specs.Rows.{utc};
ghost use Rattle.provider.specs.Fetching.{checked, passes};
ghost use Rattle.provider.specs.Whole.{meaning};
ghost use Rattle.kept.specs.Keeping.{kept, none_kept};
ghost use Rattle.relay.specs.Relaying.{AllFrom, Answered, Relayed, relay_turn};
ghost use Rattle.relay.specs.Over.{over_sound};

use kept::places::Places;
use names::name::Name;
use provider::answers::check;
use provider::providers::Provider;
use provider::publishing::Publishing;
use provider::requests::{Edition, Reply, Request};
use std::alloc::{AllocFailed, Global};
use zone::refusals::Refusal;
use zone::rows::Interval;
use zone::windows::{Table, Window};

/// The provider below, with up to eight of its pages kept, one a name. What it answers goes into a window of the relay's own first.
#[derive(Drop)]
pub struct Relay<P> {
    below: P,
    places: Places,
    scratch: Window,
}

impl<P: Provider> Relay<P> {
    /// A relay to the provider that keeps nothing yet, with all the memory that it will ever take. Where there is no memory, the provider is given back.
    pub fn new(heap: Global, below: P) -> Result<Relay<P>, AllocFailed<P>>
        ensures made { MatchResult result (λ relay. (relay.below ≡ below) × (kept relay.places ≡ none_kept) × (relay.scratch.interval ≡ era) × (relay.scratch.rows.items ≡ utc ∷ [])) (λ back. back.value ≡ below) }
        ensures order { IfOk result (λ relay. P.Provider.in_order below → P.Provider.in_order relay.below × AllFrom (meaning P.Provider relay.below) (kept relay.places)) }
        ensures turn { IfOk result (λ relay. (n : Name) (i : Interval) → relay_turn (kept relay.places) (P.Provider.turn relay.below) n i ≡ P.Provider.turn below n i) }
    {
        let (Ok(places), Ok(scratch)) = (Places::new(heap), Window::new(heap)) else {
            return Err(AllocFailed { value: below });
        };
        Ok(Relay {
            below,
            places,
            scratch,
        })
    }

    // Asks below, with the window of the relay's own as the place, and answers from what came and from what is kept.
    fn ask(&mut self, request: Request, place: &mut Window) -> Result<Reply, Refusal>
        ensures { Answered P.Provider (kept self.old.places) (kept self.new.places) self.old.below self.new.below request place.old place.new result }
    {
        let sent = self.places.request_below(request);
        let reply = self.below.fetch(sent, &mut self.scratch);
        self.places
            .receive(request, reply, &mut self.scratch, place)
    }
}

impl<P: Provider> Provider for Relay<P> {
    ghost span = { λ s. P.Provider.span s.below };

    ghost count = { λ s. P.Provider.count s.below };

    ghost pages = { λ s. P.Provider.pages s.below };

    ghost turn = { λ s. relay_turn (kept s.places) (P.Provider.turn s.below) };

    ghost in_order = { λ s. P.Provider.in_order s.below × AllFrom (meaning P.Provider s.below) (kept s.places) };

    ghost after_fetch = { λ s q t. MatchBool (passes q (P.Provider.span s.below)) (Relayed P.Provider (kept s.places) (kept t.places) s.below t.below q) (t ≡ s) };

    ghost sound = { λ s o. over_sound _ (kept s.places) (P.Provider.sound s.below o.0) o.1 };

    /// The interval that all pages cover.
    fn span(&self) -> Interval {
        self.below.span()
    }

    /// Fetches a page's cut into the lent window.
    fn fetch(&mut self, request: Request, place: &mut Window) -> Result<Reply, Refusal> {
        check(&request, self.below.span())?;
        self.ask(request, place)
    }
}

impl<P: Publishing> Publishing for Relay<P> {
    ghost fits = { λ s. P.Publishing.fits s.below };

    ghost after_publish = { λ s n t u. P.Publishing.after_publish s.below n t u.below × (u.places ≡ s.places) × (u.scratch ≡ s.scratch) };

    /// Publishes a table over the era for the name, and answers the number of the new edition.
    fn publish(&mut self, name: Name, table: &Table) -> Result<Edition, Refusal> {
        // A refusal from below passes up by `?`, with the edition that it names.
        Ok(self.below.publish(name, table)?)
    }
}
