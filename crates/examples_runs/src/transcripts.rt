//! Whole transcripts, from a script's bytes.
#![tactic(auto, unfolding(script_text::specs::ScriptRun::running))]

ghost use Rattle.std.specs.Prelude.{◌≡◌, List, [], ◌∷◌, codes};
ghost use Rattle.script_transcript.specs.TranscriptLine.{transcript_of, merged};
ghost use Rattle.script_text.specs.ScriptRun.{script_rows, script_transcript, text_of};
ghost use Rattle.examples_runs.specs.Tables.{lines_of_two_sessions, transcript_of_two_sessions};

/// A script without a line prints nothing.
pub fn empty_script()
    ensures { script_transcript 4194304 [] ≡ [] }
{}

/// One session makes a table, puts two records in a transaction and walks them.
pub fn ordinary_run()
    ensures { script_transcript 4194304 (text_of (
        codes "1 BeginSession"
        ∷ codes "1 CreateTable T"
        ∷ codes "1 AddColumn T id Long"
        ∷ codes "1 AddColumn T name Text"
        ∷ codes "1 CreateIndex T pk primary +id"
        ∷ codes "1 OpenTable 1 T"
        ∷ codes "1 BeginTransaction"
        ∷ codes "1 PrepareUpdate 1 insert"
        ∷ codes "1 SetColumn 1 id 1 n:2"
        ∷ codes "1 SetColumn 1 name 1 t:bob"
        ∷ codes "1 Update 1"
        ∷ codes "1 PrepareUpdate 1 insert"
        ∷ codes "1 SetColumn 1 id 1 n:-3"
        ∷ codes "1 Update 1"
        ∷ codes "1 CommitTransaction"
        ∷ codes "1 Move 1 First"
        ∷ codes "1 RetrieveColumn 1 id 1"
        ∷ codes "1 Move 1 Next"
        ∷ codes "1 RetrieveColumn 1 name 1"
        ∷ codes "1 Move 1 Next"
        ∷ codes "1 Move 1 Previous"
        ∷ codes "1 RetrieveKey 1"
        ∷ []))
        ≡ text_of (
        codes "0 1 BeginSession JET_errSuccess"
        ∷ codes "1 1 CreateTable JET_errSuccess"
        ∷ codes "2 1 AddColumn JET_errSuccess"
        ∷ codes "3 1 AddColumn JET_errSuccess"
        ∷ codes "4 1 CreateIndex JET_errSuccess"
        ∷ codes "5 1 OpenTable JET_errSuccess"
        ∷ codes "6 1 BeginTransaction JET_errSuccess"
        ∷ codes "7 1 PrepareUpdate JET_errSuccess"
        ∷ codes "7 1 SetColumn JET_errSuccess"
        ∷ codes "7 1 SetColumn JET_errSuccess"
        ∷ codes "7 1 Update JET_errSuccess x:7f80000002"
        ∷ codes "8 1 PrepareUpdate JET_errSuccess"
        ∷ codes "8 1 SetColumn JET_errSuccess"
        ∷ codes "8 1 Update JET_errSuccess x:7f7ffffffd"
        ∷ codes "9 1 CommitTransaction JET_errSuccess"
        ∷ codes "10 1 Move JET_errSuccess"
        ∷ codes "10 1 RetrieveColumn JET_errSuccess n:-3"
        ∷ codes "10 1 Move JET_errSuccess"
        ∷ codes "10 1 RetrieveColumn JET_errSuccess x:626f62"
        ∷ codes "10 1 Move JET_errNoCurrentRecord"
        ∷ codes "10 1 Move JET_errSuccess"
        ∷ codes "10 1 RetrieveKey JET_errSuccess x:7f80000002"
        ∷ []) }
{}

/// The number before a line counts the log's entries: a change outside a transaction makes three, and a local call shows
/// the number after its session's last look at the shared state.
pub fn numbers_of_two_sessions()
    ensures { script_transcript 4194304 lines_of_two_sessions ≡ transcript_of_two_sessions }
{}

/// The lines of two sessions, each of which ran all of its own: by number, then by session, each session's in their order.
pub fn merged_lines_of_two_sessions()
    ensures { transcript_of (merged (script_rows 4194304 lines_of_two_sessions)) ≡ transcript_of_two_sessions }
{}
