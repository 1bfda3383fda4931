//! Changes that may be made in either order.

ghost use Rattle.std.specs.Prelude.{◌≡◌, false};
ghost use Rattle.column_set.specs.declared.changes.Change.{Change};
ghost use Rattle.database_state.specs.Conflicts.{collide};
ghost use Rattle.laws_versions.specs.Records.{Records, records_after};

/// Two changes that do not collide may be made in either order: those of different records, and two sums, also of one column
/// of one record, where they wrap at 32 bits.
pub fn changes_that_do_not_collide_commute()
    ensures { (one other : Change) → collide one other ≡ false → (records : Records)
        → records_after (records_after records one) other ≡ records_after (records_after records other) one }
{}
