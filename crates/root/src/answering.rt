// The answer of a root's latest edition.
ghost use Rattle.std.specs.Prelude.{◌≡◌, true, vec_len};
ghost use Rattle.zone.specs.Intervals.{era, within as lies_within};
ghost use Rattle.provider.specs.Fetching.{edition_answer, judged, Leaves};
ghost use Rattle.root.specs.Logs.{pages};
ghost use Rattle.root.specs.Order.{InOrder};
ghost use Rattle.root.specs.Roots.{log_of};

use super::looking::latest_of;
use super::roots::Root;
use provider::answers::answer_rows;
use provider::requests::{Reply, Request, Version};
use zone::intervals::ERA;
use zone::refusals::Refusal;
use zone::windows::Window;

impl Root {
    // The answer from the page of the latest edition, to a request inside the era.
    pub(crate) fn answer(&self, request: Request, place: &mut Window) -> Result<Reply, Refusal>
        ensures told { InOrder (log_of self.now) → lies_within request.interval era ≡ true → judged result place.new ≡ edition_answer (vec_len self.now.entries) request (pages (log_of self.now) (vec_len self.now.entries) request.name) }
        ensures leaves { Leaves result request.interval place.old place.new }
    {
        let edition = self.count();
        let entry = latest_of(&self.entries, &request.name).ok_or(Refusal::NoPage { edition })?;
        let version = Version {
            edition,
            tag: entry.tag,
        };
        answer_rows(ERA, self.rows_of(entry), version, request, place)
    }
}
