//! Cursors.

ghost use Rattle.std.specs.Prelude.{ℕ, Bool, List, Option};
ghost use Rattle.jet_base.specs.declared.ids.CursorId.{CursorId};
ghost use Rattle.jet_base.specs.declared.words.Given.{Given};
ghost use Rattle.jet_base.specs.declared.words.Prepare.TheVariants as prepare;
ghost use Rattle.jet_base.specs.declared.words.Way.{Way};
ghost use Rattle.cursor_nav.specs.declared.seek_by.SeekBy.{SeekBy};
ghost use Rattle.laws_versions.specs.TableOrder.{HasTablesInOrder};
ghost use Rattle.session_local.specs.declared.request.Request.TheVariants as call;
ghost use Rattle.session_local.specs.Calls.{answer};
ghost use Rattle.session_local.specs.Outcome.{CallInputs};
ghost use Rattle.laws_engine.specs.InStep.{IsInStep, StaysInStep};

/// A table that is opened has its committed schema, and its primary order as the index; one that is closed is open once less.
pub fn a_table_may_be_opened_and_closed()
    ensures open { (asked : CallInputs) (cursor : CursorId) (table : List ℕ) → IsInStep asked.state asked.session asked.local → HasTablesInOrder asked.state → StaysInStep asked (answer asked (call.OpenTable cursor table)) }
    ensures close { (asked : CallInputs) (cursor : CursorId) → IsInStep asked.state asked.session asked.local → StaysInStep asked (answer asked (call.CloseTable cursor)) }
{}

/// A cursor that moves stays on its table, and on an index of it; what is prepared on it stays, or is cancelled.
pub fn a_cursor_may_move()
    ensures index { (asked : CallInputs) (cursor : CursorId) (index : Option (List ℕ)) → IsInStep asked.state asked.session asked.local → StaysInStep asked (answer asked (call.SetCurrentIndex cursor index)) }
    ensures way { (asked : CallInputs) (cursor : CursorId) (to : Way) → IsInStep asked.state asked.session asked.local → StaysInStep asked (answer asked (call.Move cursor to)) }
    ensures key { (asked : CallInputs) (cursor : CursorId) (fresh : Bool) (value : Given) → IsInStep asked.state asked.session asked.local → StaysInStep asked (answer asked (call.MakeKey cursor fresh value)) }
    ensures seek { (asked : CallInputs) (cursor : CursorId) (seek : SeekBy) → IsInStep asked.state asked.session asked.local → StaysInStep asked (answer asked (call.Seek cursor seek)) }
    ensures range { (asked : CallInputs) (cursor : CursorId) (upper inclusive : Bool) → IsInStep asked.state asked.session asked.local → StaysInStep asked (answer asked (call.SetIndexRange cursor upper inclusive)) }
    ensures no_range { (asked : CallInputs) (cursor : CursorId) → IsInStep asked.state asked.session asked.local → StaysInStep asked (answer asked (call.RemoveIndexRange cursor)) }
    ensures bookmark { (asked : CallInputs) (cursor : CursorId) (bookmark : List ℕ) → IsInStep asked.state asked.session asked.local → StaysInStep asked (answer asked (call.GotoBookmark cursor bookmark)) }
    ensures cancel { (asked : CallInputs) (cursor : CursorId) → IsInStep asked.state asked.session asked.local → StaysInStep asked (answer asked (call.PrepareUpdate cursor prepare.Cancel)) }
{}

/// A call that counts entries, or shows a key, a bookmark or a value, leaves all as it was.
pub fn what_looks_at_a_record_changes_nothing()
    ensures count { (asked : CallInputs) (cursor : CursorId) (most : Option ℕ) → IsInStep asked.state asked.session asked.local → StaysInStep asked (answer asked (call.IndexRecordCount cursor most)) }
    ensures key { (asked : CallInputs) (cursor : CursorId) → IsInStep asked.state asked.session asked.local → StaysInStep asked (answer asked (call.RetrieveKey cursor)) }
    ensures bookmark { (asked : CallInputs) (cursor : CursorId) → IsInStep asked.state asked.session asked.local → StaysInStep asked (answer asked (call.GetBookmark cursor)) }
    ensures value { (asked : CallInputs) (cursor : CursorId) (column : List ℕ) (sequence : ℕ) (copy : Bool) (most : ℕ) → IsInStep asked.state asked.session asked.local → StaysInStep asked (answer asked (call.RetrieveColumn cursor column sequence copy most)) }
{}
