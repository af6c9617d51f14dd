// Laws of snapshots.
ghost use Rattle.snapshot.specs.Laws.{SnapshotsStand};

/// The test of a snapshot tells exactly whether it is good; each zone of a good snapshot has its page, and no other name has one.
pub fn snapshots_stand()
    ensures { SnapshotsStand }
{}
