// The snapshot, and what it holds.
ghost use Rattle.std.specs.Prelude.{◌≡◌, ◌≤◌, true, false};
ghost use Rattle.provider.specs.Meaning.{last_edition};
ghost use Rattle.snapshot.specs.Zones.{is_good};

use super::zones::Zone;
use provider::requests::Edition;
use zone::rows::Interval;

/// The zones of one edition over a span, which make a good snapshot.
#[derive(Drop)]
pub(crate) struct Contents {
    pub(crate) edition: Edition,
    pub(crate) span: Interval,
    pub(crate) zones: Vec<Zone>,
    ghost few: { edition ≤ last_edition },
    ghost good: { is_good edition span zones.items ≡ true },
}

/// An edition, a span and zones that make no good snapshot, as they were handed in.
#[derive(Drop)]
pub(crate) struct Rejected {
    pub(crate) edition: Edition,
    pub(crate) span: Interval,
    pub(crate) zones: Vec<Zone>,
    ghost few: { edition ≤ last_edition },
    ghost bad: { is_good edition span zones.items ≡ false },
}

/// A snapshot: what it holds if it is good. One of anything else is silent, and keeps that.
#[derive(Drop)]
pub struct Snapshot {
    pub(crate) contents: Result<Contents, Rejected>,
}
