//! Laws of what changes besides the accounts.

ghost use Rattle.commit_laws.specs.Flags.{FlagsLaw, HotLaw};
ghost use Rattle.commit_laws.specs.Tables.{TableMovedLaw};

/// The inodes whose data has no checksums are those of the image before, once all changes are made.
pub fn flags_law()
    ensures { FlagsLaw }
{}

/// The live pairs that a stop while the writes go out may harm are among those that are not shared.
pub fn hot_law()
    ensures { HotLaw }
{}

/// The table of live pairs is that of the image before, without the old pairs that are not shared, with the new ones and the shifted ones.
pub fn table_moved_law()
    ensures { TableMovedLaw }
{}
