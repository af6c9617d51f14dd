// The truncation of a provider to a span.
ghost use Rattle.std.specs.Prelude.{◌≡◌, MatchBool};
ghost use Rattle.zone.specs.Refusals.{answered, outcome};
ghost use Rattle.provider.specs.Fetching.{checked, passes};
ghost use Rattle.truncation.specs.Truncating.{cut_page, Over, span_checked, span_kept};
ghost use Rattle.truncation.specs.Meanings.{truncated_sound};

use names::name::Name;
use provider::answers::check;
use provider::providers::Provider;
use provider::publishing::Publishing;
use provider::requests::{Edition, Reply, Request};
use zone::intervals::ERA;
use zone::refusals::Refusal;
use zone::rows::Interval;
use zone::windows::{Table, Window};

/// The provider below, seen over a span that lies inside its own.
#[derive(Drop)]
pub struct Truncation<P> {
    below: P,
    span: Interval,
}

/// Whether a provider can be truncated to the span: refused with 2 where it does not rise or lies outside the era, and with 3 where it is not inside the provider's.
pub fn check_span<P: Provider>(below: &P, span: Interval) -> Result<(), Refusal>
    ensures { outcome result ≡ span_checked span (P.Provider.span below.now) }
{
    if !span.is_within(ERA) {
        return Err(Refusal::BadInterval);
    }
    if !span.is_within(below.span()) {
        return Err(Refusal::OutsideSpan);
    }
    Ok(())
}

impl<P: Provider> Truncation<P> {
    /// The provider truncated to the span; where the span is refused, to its own.
    pub fn new(below: P, span: Interval) -> Truncation<P>
        ensures below { result.below ≡ below }
        ensures span { result.span ≡ span_kept span (P.Provider.span below) }
        ensures order { P.Provider.in_order below → Over P.Provider result.below result.span }
    {
        let span = match check_span(&below, span) {
            Ok(()) => span,
            Err(_) => below.span(),
        };
        Truncation { below, span }
    }

    // The checks that every fetch begins with. A function of its own, so that a contract tells over which span they are.
    fn check_request(&self, request: &Request) -> Result<(), Refusal>
        ensures { outcome result ≡ checked request.now self.now.span (answered tt) }
    {
        check(request, self.span)
    }
}

impl<P: Provider> Provider for Truncation<P> {
    ghost span = { λ s. s.span };

    ghost count = { λ s. P.Provider.count s.below };

    ghost pages = { λ s e n. cut_page s.span (P.Provider.pages s.below e n) };

    ghost turn = { λ s. P.Provider.turn s.below };

    ghost in_order = { λ s. Over P.Provider s.below s.span };

    ghost after_fetch = { λ s q t. MatchBool (passes q s.span) (P.Provider.after_fetch s.below q t.below × (t.span ≡ s.span)) (t ≡ s) };

    ghost sound = { λ s o. truncated_sound _ s.span (P.Provider.sound s.below o.0) o.1 };

    /// The interval that all pages cover.
    fn span(&self) -> Interval {
        self.span
    }

    /// Fetches a page's cut into the lent window.
    fn fetch(&mut self, request: Request, place: &mut Window) -> Result<Reply, Refusal> {
        self.check_request(&request)?;
        // A refusal from below passes up by `?`, with the edition that it names.
        Ok(self.below.fetch(request, place)?)
    }
}

impl<P: Publishing> Publishing for Truncation<P> {
    ghost fits = { λ s. P.Publishing.fits s.below };

    ghost after_publish = { λ s n t u. P.Publishing.after_publish s.below n t u.below × (u.span ≡ s.span) };

    /// Publishes a table over the era for the name, and answers the number of the new edition.
    fn publish(&mut self, name: Name, table: &Table) -> Result<Edition, Refusal> {
        // A refusal from below passes up by `?`, with the edition that it names.
        Ok(self.below.publish(name, table)?)
    }
}
