// The answer of a good snapshot.
ghost use Rattle.std.specs.Prelude.{◌≡◌, true};
ghost use Rattle.zone.specs.Intervals.{within as lies_within};
ghost use Rattle.provider.specs.Fetching.{edition_answer, judged, Leaves};
ghost use Rattle.snapshot.specs.Zones.{page_of};

use super::snapshots::Contents;
use provider::answers::answer_window;
use provider::requests::{Reply, Request, Version};
use zone::refusals::Refusal;
use zone::windows::Window;

impl Contents {
    // The answer from the page of the name, to a request inside the span.
    pub(crate) fn answer(&self, request: Request, place: &mut Window) -> Result<Reply, Refusal>
        ensures told { lies_within request.interval self.now.span ≡ true → judged result place.new ≡ edition_answer self.now.edition request (page_of request.name self.now.zones.items) }
        ensures leaves { Leaves result request.interval place.old place.new }
    {
        let edition = self.edition;
        let zone = self
            .zone_of(&request.name)
            .ok_or(Refusal::NoPage { edition })?;
        let version = Version {
            edition,
            tag: zone.tag,
        };
        answer_window(&zone.window, version, request, place)
    }
}
