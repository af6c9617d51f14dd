// The snapshot as a provider.
ghost use Rattle.std.specs.Prelude.{◌≡◌};
ghost use Rattle.std.specs.Result.{result_ok};
ghost use Rattle.snapshot.specs.Snapshots.{count_of, pages_of, span_of};
ghost use Rattle.snapshot.specs.Meant.{sound_meant};

use super::snapshots::Snapshot;
use provider::answers::check;
use provider::providers::Provider;
use provider::requests::{Reply, Request};
use zone::intervals::ERA;
use zone::refusals::Refusal;
use zone::rows::Interval;
use zone::windows::Window;

/// A good snapshot has its zones' pages at its edition, which is its count and its turn; any other covers the era and is silent.
impl Provider for Snapshot {
    ghost span = { span_of };

    ghost count = { count_of };

    ghost pages = { pages_of };

    ghost turn = { λ s n i. count_of s };

    ghost in_order = { λ s. Unit {0} };

    ghost after_fetch = { λ s q t. t ≡ s };

    ghost sound = { λ s o. sound_meant (result_ok s.contents) };

    fn span(&self) -> Interval {
        match &self.contents {
            Ok(contents) => contents.span,
            Err(_) => ERA,
        }
    }

    fn fetch(&mut self, request: Request, place: &mut Window) -> Result<Reply, Refusal> {
        check(&request, self.span())?;
        let Ok(contents) = &self.contents else {
            return Err(Refusal::Silent);
        };
        contents.answer(request, place)
    }
}
