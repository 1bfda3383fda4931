//! Whole scripts: their calls, and their first bad line.
#![tactic(auto, unfolding(script_text::specs::Computing::computing))]

ghost use Rattle.std.specs.Prelude.{◌≡◌, [], ◌∷◌, ◌++◌, true, false, None, Some, Ok, Err, codes, neg_ℤ, pos};
ghost use Rattle.jet_base.specs.Ids.{cursor_id};
ghost use Rattle.jet_base.specs.declared.words.ColType.TheVariants as kind;
ghost use Rattle.jet_base.specs.declared.words.Given.TheVariants as given;
ghost use Rattle.session_local.specs.declared.request.Request.TheVariants as call;
ghost use Rattle.script_words.specs.Words.{text_of_lines};
ghost use Rattle.script_text.specs.Grammar.{script_lines};
ghost use Rattle.examples_scripts.specs.OrdinaryRun.{plain_column, sum_column, only_primary, filling_lines, walking_lines, ordinary_lines, ordinary_calls};

/// The ordinary run is read as its calls.
pub fn ordinary_run_is_read()
    ensures { script_lines (text_of_lines ordinary_lines) ≡ Ok ordinary_calls }
{}

/// A script without a byte has no call.
pub fn empty_script_has_no_call()
    ensures { script_lines [] ≡ Ok [] }
{}

/// No call is named `Fly`, so line 3 is the first bad one.
pub fn unknown_call_is_a_bad_line()
    ensures { script_lines (text_of_lines (codes "1 BeginSession" ∷ codes "1 EndSession" ∷ codes "1 Fly" ∷ codes "2 Fly" ∷ [])) ≡ Err 3 }
{}

/// Empty lines and lines that begin with `#` are skipped and counted, whatever bytes they have; the last line may lack its end.
pub fn skipped_lines_count()
    ensures bad { script_lines (text_of_lines (codes "# a table" ∷ [] ∷ codes "1 BeginSession" ∷ (35 ∷ 0 ∷ 255 ∷ []) ∷ codes "1 Fly" ∷ [])) ≡ Err 5 }
    ensures open_end { script_lines (text_of_lines (codes "# a session" ∷ []) ++ codes "7 BeginSession") ≡ Ok ((7, call.BeginSession) ∷ []) }
{}

/// A line of one space, of two spaces between words, or with a space at its end is bad.
pub fn spaces_stand_between_words()
    ensures alone { script_lines (codes " ") ≡ Err 1 }
    ensures doubled { script_lines (codes "1  BeginSession") ≡ Err 1 }
    ensures last { script_lines (codes "1 BeginSession ") ≡ Err 1 }
{}

/// In the place of its first move, line 16 of the ordinary run is the first bad one.
pub fn a_bad_line_is_told_by_its_number()
    ensures { script_lines (text_of_lines (filling_lines ++ codes "1 AddColumn T a Longtext" ∷ walking_lines)) ≡ Err 16 }
{}

/// Columns of every type are read, the long ones among them.
pub fn long_columns_are_read()
    ensures text { script_lines (codes "1 AddColumn T a LongText") ≡ Ok ((1, call.AddColumn (codes "T") (codes "a") kind.LongText plain_column) ∷ []) }
    ensures binary { script_lines (codes "1 AddColumn T a LongBinary") ≡ Ok ((1, call.AddColumn (codes "T") (codes "a") kind.LongBinary plain_column) ∷ []) }
{}

/// A sum and the column that it adds to. An amount is one of 32 bits.
pub fn sums_are_read()
    ensures column { script_lines (text_of_lines (codes "1 AddColumn T a Long escrow" ∷ [])) ≡ Ok ((1, call.AddColumn (codes "T") (codes "a") kind.Long sum_column) ∷ []) }
    ensures sum { script_lines (codes "1 EscrowUpdate 1 n -5") ≡ Ok ((1, call.EscrowUpdate (cursor_id 1) (codes "n") (neg_ℤ (pos 5))) ∷ []) }
    ensures too_large { script_lines (codes "1 EscrowUpdate 1 n 2147483648") ≡ Err 1 }
{}

/// A line is read by itself, in any order and any number of times, whatever an engine answers.
pub fn lines_are_read_by_themselves()
    ensures same_name { script_lines (text_of_lines (codes "1 AddColumn T a Long" ∷ codes "1 AddColumn T a Long" ∷ [])) ≡ Ok ((1, call.AddColumn (codes "T") (codes "a") kind.Long plain_column) ∷ (1, call.AddColumn (codes "T") (codes "a") kind.Long plain_column) ∷ []) }
    ensures order { script_lines (text_of_lines (codes "1 CommitTransaction lazy" ∷ codes "1 BeginSession" ∷ [])) ≡ Ok ((1, call.CommitTransaction true) ∷ (1, call.BeginSession) ∷ []) }
    ensures prefix { script_lines (text_of_lines (codes "1 BeginSession" ∷ [])) ≡ Ok ((1, call.BeginSession) ∷ []) }
{}

/// Calls in forms of their own.
pub fn forms_of_a_call_are_read()
    ensures flag_last { script_lines (text_of_lines (codes "1 CreateIndex T i +k primary" ∷ [])) ≡ Ok ((1, call.CreateIndex (codes "T") (codes "i") only_primary 255 (record { column = codes "k"; descending = false } ∷ []) []) ∷ []) }
    ensures hex { script_lines (text_of_lines (codes "1 SetColumn 1 name 1 x:626f62" ∷ [])) ≡ Ok ((1, call.SetColumn (cursor_id 1) (codes "name") 1 (given.Bytes (codes "bob"))) ∷ []) }
    ensures range { script_lines (text_of_lines (codes "1 SetIndexRange 1 upper inclusive" ∷ codes "1 SetIndexRange 1 remove" ∷ [])) ≡ Ok ((1, call.SetIndexRange (cursor_id 1) true true) ∷ (1, call.RemoveIndexRange (cursor_id 1)) ∷ []) }
    ensures count { script_lines (text_of_lines (codes "1 IndexRecordCount 1" ∷ codes "1 IndexRecordCount 1 4294967295" ∷ [])) ≡ Ok ((1, call.IndexRecordCount (cursor_id 1) None) ∷ (1, call.IndexRecordCount (cursor_id 1) (Some 4294967295)) ∷ []) }
    ensures most { script_lines (text_of_lines (codes "1 RetrieveColumn 1 id 1 max 3" ∷ [])) ≡ Ok ((1, call.RetrieveColumn (cursor_id 1) (codes "id") 1 false 3) ∷ []) }
{}

/// Lines of every session are read, in any order, and each call keeps the label of its line. There are 99 labels.
pub fn lines_of_every_session_are_read()
    ensures two { script_lines (text_of_lines (codes "2 BeginSession" ∷ codes "1 BeginSession" ∷ codes "2 Rollback" ∷ [])) ≡ Ok ((2, call.BeginSession) ∷ (1, call.BeginSession) ∷ (2, call.Rollback false) ∷ []) }
    ensures last { script_lines (codes "99 GetLock 3") ≡ Ok ((99, call.GetLock (cursor_id 3)) ∷ []) }
    ensures none { script_lines (codes "0 BeginSession") ≡ Err 1 }
    ensures too_many { script_lines (codes "100 BeginSession") ≡ Err 1 }
{}
