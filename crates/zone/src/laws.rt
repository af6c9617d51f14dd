// Laws of tables.
ghost use Rattle.zone.specs.Laws.{TablesStand};

/// The test of a table tells exactly whether rows keep what those of a table must keep.
pub fn tables_stand()
    ensures { TablesStand }
{}
