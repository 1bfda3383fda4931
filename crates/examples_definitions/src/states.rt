//! Database states: what entries make of them, which entries are lawful, and which states are equivalent.
#![tactic(auto, unfolding(database_state::specs::Computing::computing))]

ghost use Rattle.std.specs.Prelude.{◌≡◌, ◌≢◌, ℕ, List, [], ◌∷◌, true, false, Some, None, codes, map, pos};
ghost use Rattle.jet_base.specs.Ids.{table_id, column_id};
ghost use Rattle.jet_base.specs.declared.words.ColType.TheVariants.{Long, Text};
ghost use Rattle.jet_base.specs.declared.replies.Jet.TheVariants as jet;
ghost use Rattle.column_set.specs.declared.changes.Change.TheVariants.{Put, Hold, Add};
ghost use Rattle.index_derive.specs.declared.log.EntryKind.TheVariants as entry;
ghost use Rattle.index_derive.specs.declared.schema_calls.SchemaStep.TheVariants as step;
ghost use Rattle.database_state.specs.Table.{schema_of};
ghost use Rattle.database_state.specs.State.{uncommitted, committed, undone, change_of};
ghost use Rattle.column_set.specs.Refusals.{first_refusal};
ghost use Rattle.database_state.specs.Puts.{put_refusals};
ghost use Rattle.database_state.specs.Lawful.{is_lawful};
ghost use Rattle.database_state.specs.Equivalence.{essence};
ghost use Rattle.database_state.specs.Step.{entry_by};
ghost use Rattle.examples_definitions.specs.States.{state_of, column, sample_table, fields, hidden_key, put, in_transaction, past_change};

/// A table whose columns were made as 1, 128, 256 and 2 has them by rising number.
pub fn columns_made_out_of_order()
    ensures { let mail = record (column 256 (codes "mail") Text) { tagged = true; multi = true } in
        (state_of (entry.Enter
        ∷ entry.Schema (step.CreateTable (table_id 1) (codes "t"))
        ∷ entry.Schema (step.AddColumn (table_id 1) (column 1 (codes "id") Long))
        ∷ entry.Schema (step.AddColumn (table_id 1) (column 128 (codes "name") Text))
        ∷ entry.Schema (step.AddColumn (table_id 1) mail)
        ∷ entry.Schema (step.AddColumn (table_id 1) (column 2 (codes "grp") Long)) ∷ [])).tables
        ≡ record {
          id = 1;
          name = codes "t";
          columns = column 1 (codes "id") Long ∷ column 2 (codes "grp") Long ∷ column 128 (codes "name") Text ∷ mail ∷ [];
          indexes = [];
          greatest = record { fixed = 2; variable = 128; tagged = 256 };
          rows = [];
        } ∷ [] }
{}

/// The open tables of a session stand by rising number, each as often as it is open.
pub fn open_tables_of_a_session()
    ensures opened { (state_of (entry.Enter
        ∷ entry.Schema (step.CreateTable (table_id 1) (codes "t")) ∷ entry.Schema (step.CreateTable (table_id 2) (codes "u"))
        ∷ entry.Open (table_id 2) ∷ entry.Open (table_id 1) ∷ entry.Open (table_id 2) ∷ [])).sessions
        ≡ record { label = 1; open_tables = 1 ∷ 2 ∷ 2 ∷ []; transaction = None } ∷ [] }
    ensures shut { (state_of (entry.Enter
        ∷ entry.Schema (step.CreateTable (table_id 1) (codes "t")) ∷ entry.Schema (step.CreateTable (table_id 2) (codes "u"))
        ∷ entry.Open (table_id 2) ∷ entry.Open (table_id 1) ∷ entry.Open (table_id 2) ∷ entry.Shut (table_id 2) ∷ [])).sessions
        ≡ record { label = 1; open_tables = 1 ∷ 2 ∷ []; transaction = None } ∷ [] }
{}

/// The past does not tell from which record a put was copied; that stands in the log alone.
pub fn a_copied_put_of_the_past()
    ensures { map change_of (state_of (entry.Enter
        ∷ entry.Schema (step.CreateTable (table_id 1) (codes "t"))
        ∷ entry.Schema (step.AddColumn (table_id 1) (column 1 (codes "a") Long))
        ∷ entry.Begin
        ∷ entry.Change (Put (table_id 1) (hidden_key 5) None ((1, (7 ∷ 0 ∷ 0 ∷ 0 ∷ []) ∷ []) ∷ []))
        ∷ entry.Change (Put (table_id 1) (hidden_key 6) (Some (hidden_key 5)) ((1, (8 ∷ 0 ∷ 0 ∷ 0 ∷ []) ∷ []) ∷ [])) ∷ [])).past
        ≡ Put (table_id 1) (hidden_key 5) None ((1, (7 ∷ 0 ∷ 0 ∷ 0 ∷ []) ∷ []) ∷ [])
        ∷ Put (table_id 1) (hidden_key 6) None ((1, (8 ∷ 0 ∷ 0 ∷ 0 ∷ []) ∷ []) ∷ []) ∷ [] }
{}

/// A table in which two records share a unique key is never reached, but may be handed in. A replace that keeps the shared
/// key may be logged, and one that takes another record's key may not. The call refuses both.
pub fn a_replace_that_keeps_a_shared_key()
    ensures keeps { is_lawful (in_transaction ((hidden_key 3, fields 1 7 0) ∷ (hidden_key 4, fields 2 7 0) ∷ (hidden_key 5, fields 3 8 0) ∷ []) [])
        (entry_by 1 (entry.Change (put 3 (fields 9 7 0)))) ≡ true }
    ensures takes { is_lawful (in_transaction ((hidden_key 3, fields 1 7 0) ∷ (hidden_key 4, fields 2 7 0) ∷ (hidden_key 5, fields 3 8 0) ∷ []) [])
        (entry_by 1 (entry.Change (put 3 (fields 1 8 0)))) ≡ false }
    ensures call { let rows = (hidden_key 3, fields 1 7 0) ∷ (hidden_key 4, fields 2 7 0) ∷ (hidden_key 5, fields 3 8 0) ∷ [] in
        first_refusal (put_refusals (in_transaction rows []) 1 1 (schema_of (sample_table rows)) rows (Some (hidden_key 3)) (fields 9 7 0)) ≡ Some jet.KeyDuplicate }
{}

/// A clean takes committed changes away that no open transaction needs: entry 8's commit came before entry 9 began one.
pub fn a_clean()
    ensures oldest { essence (in_transaction ((hidden_key 6, fields 1 7 0) ∷ [])
        (past_change 6 (put 6 (fields 1 7 0)) None (Some (fields 1 7 0)) (committed 8) ∷ past_change 10 (Hold (table_id 1) (hidden_key 6)) (Some (fields 1 7 0)) (Some (fields 1 7 0)) uncommitted ∷ []))
        ≡ essence (in_transaction ((hidden_key 6, fields 1 7 0) ∷ [])
        (past_change 10 (Hold (table_id 1) (hidden_key 6)) (Some (fields 1 7 0)) (Some (fields 1 7 0)) uncommitted ∷ [])) }
    ensures all { essence (in_transaction ((hidden_key 6, fields 1 7 0) ∷ []) (past_change 6 (put 6 (fields 1 7 0)) None (Some (fields 1 7 0)) (committed 8) ∷ []))
        ≡ essence (in_transaction ((hidden_key 6, fields 1 7 0) ∷ []) []) }
{}

/// Of an undone put no record is kept, as long as it costs the same.
pub fn an_undone_change()
    ensures { let locked = past_change 10 (Hold (table_id 1) (hidden_key 6)) (Some (fields 1 7 0)) (Some (fields 1 7 0)) uncommitted in
        essence (in_transaction ((hidden_key 6, fields 1 7 0) ∷ []) (locked ∷ past_change 12 (put 6 (fields 2 8 0)) (Some (fields 1 7 0)) (Some (fields 2 8 0)) undone ∷ []))
        ≡ essence (in_transaction ((hidden_key 6, fields 1 7 0) ∷ []) (locked ∷ past_change 12 (put 6 []) (Some (fields 0 0 0)) None undone ∷ [])) }
{}

/// The records of a sum are kept but for their sums.
pub fn a_sum()
    ensures { essence (in_transaction ((hidden_key 6, fields 1 7 5) ∷ [])
        (past_change 10 (Add (table_id 1) (hidden_key 6) (column_id 3) (pos 4)) (Some (fields 1 7 5)) (Some (fields 1 7 9)) uncommitted ∷ []))
        ≡ essence (in_transaction ((hidden_key 6, fields 1 7 5) ∷ [])
        (past_change 10 (Add (table_id 1) (hidden_key 6) (column_id 3) (pos 4)) (Some (fields 1 7 8)) (Some (fields 1 7 12)) uncommitted ∷ [])) }
{}

/// States that look alike and are not equivalent: an undone put of another cost; a sum whose records differ elsewhere; a put
/// that still stands, with another record.
pub fn states_that_look_alike()
    ensures cost { let locked = past_change 10 (Hold (table_id 1) (hidden_key 6)) (Some (fields 1 7 0)) (Some (fields 1 7 0)) uncommitted in
        essence (in_transaction ((hidden_key 6, fields 1 7 0) ∷ []) (locked ∷ past_change 12 (put 6 []) (Some (fields 1 7 0)) None undone ∷ []))
        ≢ essence (in_transaction ((hidden_key 6, fields 1 7 0) ∷ []) (locked ∷ past_change 12 (put 6 []) None None undone ∷ [])) }
    ensures sum { essence (in_transaction ((hidden_key 6, fields 1 7 5) ∷ [])
        (past_change 10 (Add (table_id 1) (hidden_key 6) (column_id 3) (pos 4)) (Some (fields 1 7 5)) (Some (fields 1 7 9)) uncommitted ∷ []))
        ≢ essence (in_transaction ((hidden_key 6, fields 1 7 5) ∷ [])
        (past_change 10 (Add (table_id 1) (hidden_key 6) (column_id 3) (pos 4)) (Some (fields 1 8 5)) (Some (fields 1 8 9)) uncommitted ∷ [])) }
    ensures standing { essence (in_transaction ((hidden_key 6, fields 1 7 0) ∷ []) (past_change 10 (put 6 (fields 2 7 0)) (Some (fields 1 7 0)) (Some (fields 2 7 0)) uncommitted ∷ []))
        ≢ essence (in_transaction ((hidden_key 6, fields 1 7 0) ∷ []) (past_change 10 (put 6 (fields 3 7 0)) (Some (fields 1 7 0)) (Some (fields 3 7 0)) uncommitted ∷ [])) }
{}
