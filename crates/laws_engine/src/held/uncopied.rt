//! The past does not tell from which record a put was copied.

ghost use Rattle.index_derive.specs.declared.log.Entry.{Entry};
ghost use Rattle.database_state.specs.State.{DatabaseState, empty_state};
ghost use Rattle.database_state.specs.Step.{state_after};
ghost use Rattle.laws_engine.specs.UncopiedPast.{AreUncopied};

/// No past change names the record from which a put was copied: in the empty state, and after every entry.
pub fn the_past_names_no_copied_record()
    ensures empty { AreUncopied empty_state.past }
    ensures kept { (state : DatabaseState) (made : Entry) → AreUncopied state.past → AreUncopied (state_after state made).past }
{}
