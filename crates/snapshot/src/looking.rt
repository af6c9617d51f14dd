// The zone of a name.
ghost use Rattle.std.specs.Prelude.{◌≡◌, ◌<◌, length, Some, None, HoldsAt, MatchOption};
ghost use Rattle.snapshot.specs.Zones.{page, page_of};

use super::snapshots::Contents;
use super::zones::Zone;
use names::name::Name;

impl Contents {
    // The place of the zone with the name, by a search that halves: the names rise.
    fn place_of(&self, name: &Name) -> Option<usize>
        ensures { MatchOption result (page_of name.now self.now.zones.items ≡ None) (λ i. (i < length self.now.zones.items) × HoldsAt (λ zone. (page_of name.now self.now.zones.items ≡ Some (page zone)) × (zone.window.interval ≡ self.now.span)) self.now.zones.items i) }
    {
        self.zones.binary_search_by_key(name, |zone| zone.name).ok()
    }

    // The zone with the name.
    pub(crate) fn zone_of(&self, name: &Name) -> Option<&Zone>
        ensures { MatchOption result (page_of name.now self.now.zones.items ≡ None) (λ zone. (page_of name.now self.now.zones.items ≡ Some (page zone.now)) × (zone.now.window.interval ≡ self.now.span)) }
    {
        let place = self.place_of(name)?;
        Some(&self.zones[place])
    }
}
