// The provider: a source of pages by edition and name.
ghost use Rattle.std.specs.Prelude.{◌≡◌, ℕ, Option};
ghost use Rattle.names.specs.declared.name.Name.{Name};
ghost use Rattle.zone.specs.declared.rows.Interval.{Interval};
ghost use Rattle.provider.specs.declared.requests.Request.{Request};
ghost use Rattle.provider.specs.Fetching.{Fetched};
ghost use Rattle.provider.specs.Meaning.{Page, means, Sound};

use super::requests::{Reply, Request};
use zone::refusals::Refusal;
use zone::rows::Interval;
use zone::windows::Window;

/// A source of pages. What it means at a moment is said by its ghost members: the span that all pages cover, the count of editions, the record of pages by edition and name, and the turn, the edition that a fetch made now is answered from (0 for silence). What being in order is, each provider says of itself; the promises are owed by one in order.
pub trait Provider {
    ghost span: { Self → Interval };

    ghost count: { Self → ℕ };

    ghost pages: { Self → ℕ → Name → Option Page };

    ghost turn: { Self → Name → Interval → ℕ };

    ghost in_order: { Self → Type 0 };

    // Holds of a state, a request, and each state that a fetch of it may leave.
    ghost after_fetch: { Self → Request → Self → Type 0 };

    /// The interval that all pages cover.
    fn span(&self) -> Interval
        ensures { result ≡ span self.now };

    /// Fetches a page's cut into the lent window.
    fn fetch(&mut self, request: Request, place: &mut Window) -> Result<Reply, Refusal>
        ensures after { after_fetch self.old request self.new }
        ensures told { in_order self.old → Fetched (means span count pages turn self.old) (means span count pages turn self.new) (in_order self.new) request place.old place.new result };

    ghost sound: { (s : Self) → in_order s → Sound (means span count pages turn s) };
}
