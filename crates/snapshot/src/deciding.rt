// Whether zones make a good snapshot.
ghost use Rattle.std.specs.Prelude.{◌≡◌, ◌&&◌, nat_le};
ghost use Rattle.names.specs.Comparing.{before};
ghost use Rattle.snapshot.specs.Zones.{all_fit, fits, is_good, rising};

use super::zones::Zone;
use provider::requests::Edition;
use zone::intervals::ERA;
use zone::rows::Interval;

/// The most zones of a snapshot.
pub const MOST_ZONES: usize = 64;

impl Zone {
    // Whether its tag is from 1 to the edition.
    fn is_tagged(&self, edition: Edition) -> bool
        ensures { result ≡ (nat_le 1 self.now.tag && nat_le self.now.tag edition) }
    {
        1 <= self.tag && self.tag <= edition
    }

    // Whether it has a valid name, a tag from 1 to the edition, and a window exactly over the span.
    #[tactic(auto, using(crate::proofs::Fitting::same_int))]
    fn does_fit(&self, edition: Edition, span: Interval) -> bool
        ensures { result ≡ fits edition span self.now }
    {
        self.name.is_valid() && self.is_tagged(edition) && self.window.interval == span
    }

    // Whether its name comes strictly before that of the next one.
    #[tactic(auto, using(names::proofs::Ordered::before_told))]
    fn is_ahead(&self, next: &Zone) -> bool
        ensures { result ≡ before self.now.name.bytes next.now.name.bytes }
    {
        self.name < next.name
    }
}

// Whether all zones do.
fn do_fit(zones: &[Zone], edition: Edition, span: Interval) -> bool
    ensures { result ≡ all_fit edition span zones.now }
{
    zones.iter().all(|zone| zone.does_fit(edition, span))
}

// Whether the names rise strictly in byte order.
fn do_rise(zones: &[Zone]) -> bool
    ensures { result ≡ rising zones.now }
{
    zones.is_sorted_by(Zone::is_ahead)
}

// Edition, span and zones stand apart here: `Contents` holds them together, once they passed this test.
// Whether these make a good snapshot.
pub(crate) fn are_good(edition: Edition, span: Interval, zones: &[Zone]) -> bool
    ensures { result ≡ is_good edition span zones.now }
{
    1 <= edition
        && span.is_within(ERA)
        && 1 <= zones.len()
        && zones.len() <= MOST_ZONES
        && do_fit(zones, edition, span)
        && do_rise(zones)
}
