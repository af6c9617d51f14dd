// A line to a provider, on which requests and replies are lost.
ghost use Rattle.std.specs.Prelude.{◌≡◌, [], ◌∷◌, IfOk, MatchBool, MatchResult};
ghost use Rattle.zone.specs.Intervals.{era};
ghost use Rattle.zone.specs.Refusals.{answered, outcome};
ghost use Rattle.zone.specs.Rows.{utc};
ghost use Rattle.provider.specs.Fetching.{checked, passes};
ghost use Rattle.provider.specs.Whole.{meaning};
ghost use Rattle.line.specs.Fates.{fates_of, next_fate};
ghost use Rattle.line.specs.Sending.{Brought, Sent, turn_by};
ghost use Rattle.line.specs.Lined.{lined_sound};

use super::fates::Fate;
use super::marks::{fates_of, take_fate};
use names::name::Name;
use provider::answers::check;
use provider::providers::Provider;
use provider::publishing::Publishing;
use provider::requests::{Edition, Reply, Request};
use std::alloc::{AllocFailed, Global};
use std::collections::VecDeque;
use zone::refusals::Refusal;
use zone::rows::Interval;
use zone::windows::{Table, Window};

/// The provider below, reached over a line with a list of fates: each fetch that passes the checks uses up the next one, and without fates left it passes. A lost reply goes into a window of the line's own, which nobody reads.
#[derive(Drop)]
pub struct Line<P> {
    below: P,
    fates: VecDeque<Fate>,
    scratch: Window,
}

impl<P: Provider> Line<P> {
    /// A line to the provider with a fate for each mark: `p` passes, `q` loses the request, `r` loses the reply. Made of more than 64 bytes or of other bytes it has none. Where there is no memory, the provider is given back.
    pub fn new(heap: Global, below: P, marks: &[u8]) -> Result<Line<P>, AllocFailed<P>>
        ensures made { MatchResult result (λ line. (line.below ≡ below) × (line.fates.items ≡ fates_of marks.now) × (line.scratch.interval ≡ era) × (line.scratch.rows.items ≡ utc ∷ [])) (λ back. back.value ≡ below) }
        ensures order { IfOk result (λ line. P.Provider.in_order below → P.Provider.in_order line.below) }
    {
        match (fates_of(heap, marks), Window::new(heap)) {
            (Ok(fates), Ok(scratch)) => Ok(Line {
                below,
                fates,
                scratch,
            }),
            _ => Err(AllocFailed { value: below }),
        }
    }

    // Sends the request as its fate says, and brings the reply back or silence.
    fn send(&mut self, request: Request, place: &mut Window) -> Result<Reply, Refusal>
        ensures sent { Sent P.Provider.after_fetch self.old.fates.items self.new.fates.items self.old.below self.new.below self.old.scratch self.new.scratch request }
        ensures brought { P.Provider.in_order self.old.below → Brought (next_fate self.old.fates.items) (meaning P.Provider self.old.below) (meaning P.Provider self.new.below) (P.Provider.in_order self.new.below) request place.old place.new result }
    {
        match take_fate(&mut self.fates) {
            Fate::Pass => self.below.fetch(request, place),
            Fate::LoseRequest => Err(Refusal::Silent),
            Fate::LoseReply => {
                let _ = self.below.fetch(request, &mut self.scratch);
                Err(Refusal::Silent)
            }
        }
    }
}

impl<P: Provider> Provider for Line<P> {
    ghost span = { λ s. P.Provider.span s.below };

    ghost count = { λ s. P.Provider.count s.below };

    ghost pages = { λ s. P.Provider.pages s.below };

    ghost turn = { λ s n i. turn_by (next_fate s.fates.items) (P.Provider.turn s.below n i) };

    ghost in_order = { λ s. P.Provider.in_order s.below };

    ghost after_fetch = { λ s q t. MatchBool (passes q (P.Provider.span s.below)) (Sent P.Provider.after_fetch s.fates.items t.fates.items s.below t.below s.scratch t.scratch q) (t ≡ s) };

    ghost sound = { λ s o. lined_sound _ _ (P.Provider.sound s.below o) };

    /// The interval that all pages cover.
    fn span(&self) -> Interval {
        self.below.span()
    }

    /// Fetches a page's cut into the lent window.
    fn fetch(&mut self, request: Request, place: &mut Window) -> Result<Reply, Refusal> {
        check(&request, self.span())?;
        // A refusal from below passes up by `?`, with the edition that it names.
        Ok(self.send(request, place)?)
    }
}

impl<P: Publishing> Publishing for Line<P> {
    ghost fits = { λ s. P.Publishing.fits s.below };

    ghost after_publish = { λ s n t u. P.Publishing.after_publish s.below n t u.below × (u.fates ≡ s.fates) × (u.scratch ≡ s.scratch) };

    /// Publishes a table over the era for the name, and answers the number of the new edition.
    fn publish(&mut self, name: Name, table: &Table) -> Result<Edition, Refusal> {
        // A refusal from below passes up by `?`, with the edition that it names.
        Ok(self.below.publish(name, table)?)
    }
}
