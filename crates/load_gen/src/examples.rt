//! Worked examples of the generated script, as theorems: each function's clauses say what the definitions give, and its body
//! is empty.
#![tactic(auto, unfolding(crate::specs::Computing::computing))]

ghost use Rattle.std.specs.Prelude.{◌≡◌, [], ◌∷◌, ◌++◌, None, Some, codes, false, length, pos, slice_get, true};
ghost use Rattle.std.specs.List.{flat_map};
ghost use Rattle.jet_base.specs.Ids.{session_id};
ghost use Rattle.jet_base.specs.declared.words.ColType.TheVariants as kind;
ghost use Rattle.jet_base.specs.declared.words.Given.TheVariants as given;
ghost use Rattle.jet_base.specs.declared.words.Prepare.TheVariants as prepare;
ghost use Rattle.jet_base.specs.declared.words.Way.TheVariants as way;
ghost use Rattle.database_state.specs.State.{empty_state};
ghost use Rattle.session_local.specs.declared.request.Request.TheVariants as call;
ghost use Rattle.session_local.specs.Run.{all_served, log_from, run_from};
ghost use Rattle.load_gen.specs.declared.table.LoadIndex.TheVariants as index;
ghost use Rattle.load_gen.specs.Table.{cursor, opening_calls, plain_column, plain_index};
ghost use Rattle.load_gen.specs.Script.{entries_in, generated_calls, generated_line, lines_of_session};
ghost use Rattle.load_gen.specs.Summary.{summary};

/// The first lines, a column of each kind, the last index, and the last line before the records.
pub fn first_lines()
    ensures session { generated_line 2000 0 ≡ Some (session_id 1, call.BeginSession) }
    ensures table { generated_line 2000 1 ≡ Some (session_id 1, call.CreateTable (codes "load")) }
    ensures id { generated_line 2000 2 ≡ Some (session_id 1, call.AddColumn (codes "load") (codes "id") kind.Long plain_column) }
    ensures mail { generated_line 2000 4 ≡ Some (session_id 1, call.AddColumn (codes "load") (codes "mail") kind.Text (record plain_column { tagged = true; multi = true })) }
    ensures hits { generated_line 2000 7 ≡ Some (session_id 1, call.AddColumn (codes "load") (codes "hits") kind.Long (record plain_column { escrow = true })) }
    ensures first_number { generated_line 2000 8 ≡ Some (session_id 1, call.AddColumn (codes "load") (codes "a7") kind.Long plain_column) }
    ensures last_number { generated_line 2000 41 ≡ Some (session_id 1, call.AddColumn (codes "load") (codes "a40") kind.Long plain_column) }
    ensures primary { generated_line 2000 42 ≡ Some (session_id 1, call.CreateIndex (codes "load") (codes "pk") (record plain_index { primary = true }) 255 (record { column = codes "id"; descending = false } ∷ []) []) }
    ensures conditional { generated_line 2000 47 ≡ Some (session_id 1, call.CreateIndex (codes "load") (codes "ix_cond") plain_index 255 (record { column = codes "a7"; descending = false } ∷ []) (record { column = codes "grp"; must_be_null = false } ∷ [])) }
    ensures opened { generated_line 2000 48 ≡ Some (session_id 1, call.OpenTable cursor (codes "load")) }
    ensures begun { generated_line 2000 49 ≡ Some (session_id 1, call.BeginTransaction) }
{}

/// The first record: it has two values of `mail`, and a value of `grp`.
pub fn first_record()
    ensures prepared { generated_line 2000 50 ≡ Some (session_id 1, call.PrepareUpdate cursor prepare.Insert) }
    ensures id { generated_line 2000 51 ≡ Some (session_id 1, call.SetColumn cursor (codes "id") 1 (given.Number (pos 1))) }
    ensures name { generated_line 2000 52 ≡ Some (session_id 1, call.SetColumn cursor (codes "name") 1 (given.Bytes (codes "u000001"))) }
    ensures mail { generated_line 2000 53 ≡ Some (session_id 1, call.SetColumn cursor (codes "mail") 1 (given.Bytes (codes "m000001x1"))) }
    ensures second_mail { generated_line 2000 54 ≡ Some (session_id 1, call.SetColumn cursor (codes "mail") 2 (given.Bytes (codes "m000001x2"))) }
    ensures group { generated_line 2000 55 ≡ Some (session_id 1, call.SetColumn cursor (codes "grp") 1 (given.Number (pos 1))) }
    ensures note { generated_line 2000 56 ≡ Some (session_id 1, call.SetColumn cursor (codes "note") 1 (given.Bytes (codes "n0001"))) }
    ensures first_number { generated_line 2000 57 ≡ Some (session_id 1, call.SetColumn cursor (codes "a7") 1 (given.Number (pos 7))) }
    ensures last_number { generated_line 2000 90 ≡ Some (session_id 1, call.SetColumn cursor (codes "a40") 1 (given.Number (pos 40))) }
    ensures update { generated_line 2000 91 ≡ Some (session_id 1, call.Update cursor) }
    ensures next { generated_line 2000 92 ≡ Some (session_id 1, call.PrepareUpdate cursor prepare.Insert) }
{}

/// The script for one record, from its update on: each walk makes one move more than its index has entries.
pub fn last_lines()
    ensures update { slice_get (generated_calls 1) 91 ≡ Some (call.Update cursor) }
    ensures commit { slice_get (generated_calls 1) 92 ≡ Some (call.CommitTransaction false) }
    ensures chosen { slice_get (generated_calls 1) 93 ≡ Some (call.SetCurrentIndex cursor (Some (codes "pk"))) }
    ensures first { slice_get (generated_calls 1) 94 ≡ Some (call.Move cursor way.First) }
    ensures next { slice_get (generated_calls 1) 95 ≡ Some (call.Move cursor way.Next) }
    ensures chosen_next { slice_get (generated_calls 1) 96 ≡ Some (call.SetCurrentIndex cursor (Some (codes "ix_name"))) }
    ensures lines { length (generated_calls 1) ≡ 114 }
    ensures behind { generated_line 1 114 ≡ None }
{}

/// Before the records stand 49 calls, each of which makes an entry.
pub fn entries_before_the_records()
    ensures calls { length opening_calls ≡ 49 }
    ensures entries { length (log_from 4194304 (run_from empty_state) (all_served (lines_of_session opening_calls))) ≡ 49 }
{}

/// The entries of 2,000 records in each index.
pub fn entries_of_two_thousand_records()
    ensures primary { entries_in index.Primary 2000 ≡ 2000 }
    ensures name { entries_in index.Name 2000 ≡ 2000 }
    ensures mail { entries_in index.Mail 2000 ≡ 4001 }
    ensures group { entries_in index.Group 2000 ≡ 1800 }
    ensures note { entries_in index.Note 2000 ≡ 6000 }
    ensures conditional { entries_in index.Conditional 2000 ≡ 1800 }
{}

/// The run for two records, from an empty database.
pub fn summary_of_two_records()
    ensures { summary 4194304 empty_state 2 ≡ flat_map (λ line. line ++ 10 ∷ []) (
        codes "load records 2"
        ∷ codes "load pk 2"
        ∷ codes "load ix_name 2"
        ∷ codes "load ix_mail 5"
        ∷ codes "load ix_grp 2"
        ∷ codes "load ix_note 6"
        ∷ codes "load ix_cond 2"
        ∷ []) }
{}
