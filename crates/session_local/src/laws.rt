//! Laws of the session's own state.

ghost use Rattle.std.specs.Prelude.{◌≡◌, ℕ, true, List, None, IsTrue};
ghost use Rattle.std.specs.List.{list_all};
ghost use Rattle.std.specs.List.Sorted.{IsStrictlySortedBy};
ghost use Rattle.std.specs.Ordering.{nat_cmp};
ghost use Rattle.std.specs.Cmp.Lexicographic.{slice_cmp};
ghost use Rattle.jet_base.specs.declared.words.ColType.TheVariants.{Binary};
ghost use Rattle.cursor_nav.specs.Navigation.{Navigated};
ghost use Rattle.key_normal.specs.KeyOrder.{is_value};
ghost use Rattle.database_state.specs.Table.{schema_of};
ghost use Rattle.database_state.specs.State.{DatabaseState};
ghost use Rattle.session_local.specs.declared.request.Request.{Request};
ghost use Rattle.session_local.specs.Outcome.{CallInputs};
ghost use Rattle.session_local.specs.Calls.{answer, is_local};
ghost use Rattle.session_local.specs.LocalCalls.{is_answered_locally};
ghost use Rattle.session_local.specs.Finishing.{Decided, finished, decided_by, is_finished};
ghost use Rattle.session_local.specs.IntersectCalls.{common_bookmarks, table_of_bookmarks};
ghost use Rattle.session_local.specs.IntersectLaws.{filled_in_order};
ghost use Rattle.session_local.specs.Local.{LocalState, OpenCursor, cursor_labelled};
ghost use Rattle.session_local.specs.Navigating.{navigated_on};
ghost use Rattle.session_local.specs.Agreement.{Agrees};
ghost use Rattle.session_local.specs.WellFormed.{IsWellFormed, is_well_formed_schema, is_well_formed_table, is_well_formed_copy};

use index_intersect::bookmarks_in_common_rise;
use key_normal::order_of_whole_keys;

/// What a decision leaves of the session's own state is what the definitions say, for every call that is decided on the
/// shared state and moves no cursor.
pub fn finish_is_the_answer()
    ensures { (asked : CallInputs) (request : Request) → is_finished request ≡ true → finished asked.local request (decided_by asked request) ≡ (answer asked request).local }
{}

/// A call that a session answers by itself makes no step, and its answer is that of a local call.
pub fn local_calls_take_no_step()
    ensures step { (asked : CallInputs) (request : Request) → is_answered_locally asked.local request ≡ true → (answer asked request).step ≡ None }
    ensures local { (asked : CallInputs) (request : Request) → is_answered_locally asked.local request ≡ true → is_local request (answer asked request).answered.jet ≡ true }
{}

/// A call that a session answers by itself keeps the session's own state well formed.
pub fn local_calls_keep_well_formed()
    ensures { (asked : CallInputs) (request : Request) → is_answered_locally asked.local request ≡ true → IsWellFormed asked.local → IsWellFormed (answer asked request).local }
{}

/// What a decision leaves of a well-formed state is well formed, where the table that is opened has a well-formed schema
/// and a copied update is of a record that its columns take.
pub fn finish_keeps_well_formed()
    ensures { (local : LocalState) (request : Request) (decided : Decided) → IsWellFormed local → IsTrue (is_well_formed_table decided.table) → IsTrue (is_well_formed_copy local request decided.copied) → IsWellFormed (finished local request decided) }
{}

/// A call that moves a cursor keeps the state well formed.
pub fn navigation_keeps_well_formed()
    ensures { (local : LocalState) (label : ℕ) (move : OpenCursor → Navigated) → IsWellFormed local → IsWellFormed (navigated_on local (cursor_labelled local label) move) }
{}

/// A state that agrees with a database whose tables have well-formed schemas is well formed.
pub fn agreeing_states_are_well_formed()
    ensures { (state : DatabaseState) (session : ℕ) (local : LocalState) → Agrees state session local → IsTrue (list_all (λ table. is_well_formed_schema (schema_of table)) state.tables) → IsWellFormed local }
{}

/// A temporary table that is filled with rising bookmarks has them in their order, one in each row, and its place is before them.
/// So has the one that an IntersectIndexes fills: what its ranges have in common rises. Bookmarks are strings of at most 255
/// bytes.
pub fn a_filled_table_has_its_bookmarks_in_order()
    ensures rising { (bookmarks : List (List ℕ)) → IsStrictlySortedBy (slice_cmp nat_cmp) bookmarks → IsTrue (list_all (is_value Binary) bookmarks) → table_of_bookmarks bookmarks ≡ filled_in_order bookmarks }
    ensures common { (asked : CallInputs) (cursors : List OpenCursor) → IsTrue (list_all (is_value Binary) (common_bookmarks asked cursors)) → table_of_bookmarks (common_bookmarks asked cursors) ≡ filled_in_order (common_bookmarks asked cursors) }
{
    order_of_whole_keys();
    bookmarks_in_common_rise();
}
