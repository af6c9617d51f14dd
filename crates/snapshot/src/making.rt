// Snapshots made.
ghost use Rattle.snapshot.specs.Snapshots.{Made};

use super::deciding::are_good;
use super::snapshots::{Contents, Rejected, Snapshot};
use super::zones::Zone;
use provider::requests::Edition;
use zone::rows::Interval;

impl Snapshot {
    /// A snapshot of these zones at an edition over a span. It is good where the edition is from 1 on, the span lies in the era, and there are 1 to 64 zones, with valid names that rise strictly in byte order, tags from 1 to the edition, and windows exactly over the span. Of anything else it is a snapshot that is silent.
    pub fn new(edition: Edition, span: Interval, zones: Vec<Zone>) -> Snapshot
        ensures { Made edition span zones.items result }
    {
        let contents = if are_good(edition, span, &zones) {
            Ok(Contents {
                edition,
                span,
                zones,
            })
        } else {
            Err(Rejected {
                edition,
                span,
                zones,
            })
        };
        Snapshot { contents }
    }
}
