//! Lines of a transcript, and lines of a script with many words.
#![tactic(auto, unfolding(script_text::specs::Computing::computing))]

ghost use Rattle.std.specs.Prelude.{◌≡◌, [], ◌∷◌, ◌++◌, true, false, pos, negsuc, Some, None, codes};
ghost use Rattle.jet_base.specs.Ids.{cursor_id};
ghost use Rattle.jet_base.specs.declared.replies.Jet.TheVariants as jet;
ghost use Rattle.jet_base.specs.declared.words.Way.TheVariants as way;
ghost use Rattle.session_local.specs.declared.request.Request.TheVariants as call;
ghost use Rattle.session_local.specs.Answer as answer;
ghost use Rattle.script_words.specs.Words.{text_of_lines};
ghost use Rattle.script_text.specs.Grammar.{line_request};
ghost use Rattle.script_transcript.specs.TranscriptLine.{answer_line, merged};
ghost use Rattle.examples_scripts.specs.OrdinaryRun.{only_primary};
ghost use Rattle.examples_scripts.specs.Rows.{row};

/// Lines of the ordinary run: no value, bytes, a number below zero, a refusal.
pub fn lines_of_the_ordinary_run()
    ensures begun { answer_line 0 1 call.BeginSession (record { jet = jet.Success; shown = answer.Nothing }) ≡ text_of_lines (codes "0 1 BeginSession JET_errSuccess" ∷ []) }
    ensures updated { answer_line 7 1 (call.Update (cursor_id 1)) (record { jet = jet.Success; shown = answer.Bytes (127 ∷ 128 ∷ 0 ∷ 0 ∷ 2 ∷ []) 5 }) ≡ text_of_lines (codes "7 1 Update JET_errSuccess x:7f80000002" ∷ []) }
    ensures retrieved { answer_line 10 1 (call.RetrieveColumn (cursor_id 1) (codes "id") 1 false 255) (record { jet = jet.Success; shown = answer.Number (negsuc 2) }) ≡ text_of_lines (codes "10 1 RetrieveColumn JET_errSuccess n:-3" ∷ []) }
    ensures refused { answer_line 10 1 (call.Move (cursor_id 1) way.Next) (record { jet = jet.NoCurrentRecord; shown = answer.Nothing }) ≡ text_of_lines (codes "10 1 Move JET_errNoCurrentRecord" ∷ []) }
{}

/// A value that is cut is shown behind its whole length, a count without a mark, and an empty value as `x:` alone.
pub fn other_values()
    ensures cut { answer_line 10 2 (call.RetrieveColumn (cursor_id 1) (codes "note") 1 false 3) (record { jet = jet.BufferTruncated; shown = answer.Bytes (97 ∷ 98 ∷ 99 ∷ []) 70000 }) ≡ text_of_lines (codes "10 2 RetrieveColumn JET_wrnBufferTruncated 70000 x:616263" ∷ []) }
    ensures count { answer_line 4 99 (call.IndexRecordCount (cursor_id 1) None) (record { jet = jet.Success; shown = answer.Count 12 }) ≡ text_of_lines (codes "4 99 IndexRecordCount JET_errSuccess 12" ∷ []) }
    ensures empty { answer_line 4 1 (call.RetrieveKey (cursor_id 1)) (record { jet = jet.Success; shown = answer.Bytes [] 0 }) ≡ text_of_lines (codes "4 1 RetrieveKey JET_errSuccess x:" ∷ []) }
    ensures removed { answer_line 4 1 (call.RemoveIndexRange (cursor_id 1)) (record { jet = jet.Success; shown = answer.Nothing }) ≡ text_of_lines (codes "4 1 SetIndexRange JET_errSuccess" ∷ []) }
{}

/// The words of a new index stand in any order, each flag at most once.
pub fn words_of_an_index()
    ensures order { line_request (codes "3 CreateIndex T i -b ifnull:c primary +a ifnotnull:d") ≡ Some (
      3,
      call.CreateIndex (codes "T") (codes "i") only_primary 255
          (record { column = codes "b"; descending = true } ∷ record { column = codes "a"; descending = false } ∷ [])
          (record { column = codes "c"; must_be_null = true } ∷ record { column = codes "d"; must_be_null = false } ∷ []),
    ) }
    ensures flag_twice { line_request (codes "3 CreateIndex T i primary +a primary") ≡ None }
    ensures column_twice { line_request (codes "3 CreateIndex T i primary +a +a") ≡ Some (3, call.CreateIndex (codes "T") (codes "i") only_primary 255 (record { column = codes "a"; descending = false } ∷ record { column = codes "a"; descending = false } ∷ []) []) }
    ensures unknown { line_request (codes "3 CreateIndex T i primary a") ≡ None }
{}

/// Rows of several sessions stand by number and then by session; those of one session stay in their order.
pub fn rows_by_number_and_session()
    ensures { merged (row 0 2 call.BeginSession ∷ row 2 2 call.EndSession ∷ row 0 1 call.BeginSession ∷ row 2 1 call.BeginTransaction ∷ row 2 1 call.EndSession ∷ [])
        ≡ row 0 1 call.BeginSession ∷ row 0 2 call.BeginSession ∷ row 2 1 call.BeginTransaction ∷ row 2 1 call.EndSession ∷ row 2 2 call.EndSession ∷ [] }
{}
