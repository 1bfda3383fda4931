//! Laws of runs whose log is kept on a volume. The functions do nothing: their contracts are the laws.

ghost use Rattle.std.specs.Prelude.{◌≡◌, ◌≤◌, ◌+◌, ◌++◌, ℕ, true, false, [], ◌∷◌, List, length};
ghost use Rattle.index_derive.specs.declared.log.Entry.{Entry};
ghost use Rattle.database_state.specs.State.{DatabaseState};
ghost use Rattle.database_state.specs.Step.{state_after_all};
ghost use Rattle.jet_volume.specs.Crash.{LeavesOnly};
ghost use Rattle.log_grammar.specs.EntryStreams.{stream_bytes};
ghost use Rattle.session_local.specs.Run.{Line, LineOutcome, RunState, entries_of_line, is_acknowledged, log_from, run_after_all, run_from, served};
ghost use Rattle.kept_engine.specs.declared.kept.KeptEngine.{KeptEngine};
ghost use Rattle.ordered_run.specs.declared.flushed.After.{After};
ghost use Rattle.ordered_run.specs.declared.flushed.After.TheVariants.{Goes};
ghost use Rattle.ordered_run.specs.declared.flushed.Flushed.{Flushed};
ghost use Rattle.kept_engine.specs.Keeping.{kept_depth, kept_end, kept_given, kept_keeper, kept_volume, Ends, Keeps, KeepsOn};
ghost use Rattle.kept_engine.specs.Told.{CountsFault, TellsFlush};
ghost use Rattle.kept_engine.specs.Acknowledged.{log_of};
ghost use Rattle.ordered_run.specs.Flushing.{outcome_of_flush};
ghost use Rattle.kept_engine.specs.Checkpoints.{LogProgress, progress_after, progress_from, progress_of};
ghost use Rattle.kept_engine.specs.KeptRuns.{GoesOn, KeepsSoFar, LeavesRun, with_line};
ghost use Rattle.kept_engine.specs.Serving.{KeepsLine, KeepsLines, KeepsStopped};
ghost use Rattle.recovered_states.specs.Recovers.{RecoversUpTo};

use crate::laws::what_is_kept_stands;
use jet_volume::Volume;
use recovered_states::entries_to_come_change_nothing;

/// The state that a run has come to is that after its log.
pub fn the_log_of_a_run_leads_to_its_state()
    ensures { (limit : ℕ) (run : RunState) (pairs : List (Line × LineOutcome)) → (run_after_all limit run pairs).state ≡ state_after_all run.state (log_from limit run pairs) }
{}

/// A line that makes its entries goes on with its flush, or without one; one that finds no memory makes none.
pub fn a_line_is_kept<V: Volume>()
    ensures flushed { (opening : DatabaseState) (entries : List Entry) (limit : ℕ) (run : RunState) (line : Line) (old made new : KeptEngine V) (told : Flushed) → kept_keeper made ≡ kept_keeper old
        → KeepsOn V.seen V.moment V.left_at opening (with_line limit run entries line served) made new told → (told.after ≡ Goes → kept_given new ≡ kept_end new)
        → GoesOn V.seen V.moment V.left_at opening entries limit run line (outcome_of_flush told.flush) old new told.after }
    ensures quiet { (opening : DatabaseState) (entries : List Entry) (limit : ℕ) (run : RunState) (line : Line) (outcome : LineOutcome) (old new : KeptEngine V) (after : After) → kept_keeper new ≡ kept_keeper old
        → is_acknowledged limit run line outcome ≡ false → Keeps V.seen V.moment V.left_at opening (with_line limit run entries line outcome) new
        → GoesOn V.seen V.moment V.left_at opening entries limit run line outcome old new after }
{
    what_is_kept_stands::<V>();
}

/// A run goes on by each of its lines. Wherever it stops, a crash at any moment leaves what recovers to the state after some first
/// entries, and one then to at least those of each acknowledged line; and so it is behind the closing image.
pub fn a_run_is_kept_line_by_line<V: Volume>()
    ensures begins { (opening : DatabaseState) (limit : ℕ) (start : V) (kept : KeptEngine V) → LeavesOnly V.moment V.left_at start (kept_volume kept) (RecoversUpTo opening [] 0)
        → Keeps V.seen V.moment V.left_at opening [] kept → KeepsSoFar V.seen V.moment V.left_at opening limit start [] kept }
    ensures goes_on { (opening : DatabaseState) (limit : ℕ) (start : V) (pairs : List (Line × LineOutcome)) (line : Line) (outcome : LineOutcome) (old new : KeptEngine V) (after : After)
        → KeepsSoFar V.seen V.moment V.left_at opening limit start pairs old
        → GoesOn V.seen V.moment V.left_at opening (log_of opening limit pairs) limit (run_after_all limit (run_from opening) pairs) line outcome old new after
        → after ≡ Goes → kept_given old ≤ kept_given new → KeepsSoFar V.seen V.moment V.left_at opening limit start (pairs ++ (line, outcome) ∷ []) new }
    ensures stops { (opening : DatabaseState) (limit : ℕ) (start : V) (pairs : List (Line × LineOutcome)) (line : Line) (outcome : LineOutcome) (old new : KeptEngine V) (after : After)
        → KeepsSoFar V.seen V.moment V.left_at opening limit start pairs old
        → GoesOn V.seen V.moment V.left_at opening (log_of opening limit pairs) limit (run_after_all limit (run_from opening) pairs) line outcome old new after
        → LeavesRun V.seen V.moment V.left_at opening limit start (kept_volume new) (pairs ++ (line, outcome) ∷ []) }
    ensures now { (opening : DatabaseState) (limit : ℕ) (start : V) (pairs : List (Line × LineOutcome)) (kept : KeptEngine V)
        → KeepsSoFar V.seen V.moment V.left_at opening limit start pairs kept → LeavesRun V.seen V.moment V.left_at opening limit start (kept_volume kept) pairs }
    ensures ends { (opening : DatabaseState) (limit : ℕ) (start : V) (pairs : List (Line × LineOutcome)) (old new : KeptEngine V) (after : After)
        → KeepsSoFar V.seen V.moment V.left_at opening limit start pairs old → Ends V.seen V.moment V.left_at opening (log_of opening limit pairs) old new after
        → LeavesRun V.seen V.moment V.left_at opening limit start (kept_volume new) pairs }
{
    what_is_kept_stands::<V>();
    entries_to_come_change_nothing();
}

/// How far the log of a run has come on its store, and so the number of its checkpoints, is that of the lengths of its lines: a line that
/// flushes and is answered gives all bytes so far, and any other gives none.
pub fn a_run_comes_as_far_as_its_lengths_say<V: Volume>()
    ensures flushed { (limit : ℕ) (run : RunState) (line : Line) (old made new : KeptEngine V) (told : Flushed) → kept_keeper made ≡ kept_keeper old → kept_depth made ≡ kept_depth old
        → kept_end made ≡ kept_end old + length (stream_bytes (entries_of_line limit run line served)) → kept_given old ≤ kept_end old → is_acknowledged limit run line served ≡ true
        → TellsFlush V.faults V.identity made new told → told.after ≡ Goes → progress_of new ≡ progress_after (kept_depth old) limit run line served (progress_of old) }
    ensures quiet { (limit : ℕ) (run : RunState) (line : Line) (outcome : LineOutcome) (old new : KeptEngine V) → kept_keeper new ≡ kept_keeper old
        → kept_end new ≡ kept_end old + length (stream_bytes (entries_of_line limit run line outcome)) → kept_given old ≤ kept_end old → is_acknowledged limit run line outcome ≡ false
        → progress_of new ≡ progress_after (kept_depth old) limit run line outcome (progress_of old) }
    ensures more { (depth limit : ℕ) (run : RunState) (progress : LogProgress) (pairs : List (Line × LineOutcome)) (line : Line) (outcome : LineOutcome)
        → progress_from depth limit run progress (pairs ++ (line, outcome) ∷ []) ≡ progress_after depth limit (run_after_all limit run pairs) line outcome (progress_from depth limit run progress pairs) }
{}

/// A line that was served over an engine whose log is kept: what a crash leaves of it, and how far its log has come on the store. The
/// volume's count rises just where the run stops at a fault.
pub fn a_served_line_is_kept<V: Volume>()
    ensures kept { (opening : DatabaseState) (entries : List Entry) (limit : ℕ) (run : RunState) (line : Line) (outcome : LineOutcome) (old new : KeptEngine V) (told : Flushed)
        → KeepsLine V.seen V.moment V.left_at V.tells_contents V.faults V.identity limit run line outcome old new told → V.tells_contents → Keeps V.seen V.moment V.left_at opening entries old
        → GoesOn V.seen V.moment V.left_at opening entries limit run line outcome old new told.after }
    ensures progress { (limit : ℕ) (run : RunState) (line : Line) (outcome : LineOutcome) (old new : KeptEngine V) (told : Flushed)
        → KeepsLine V.seen V.moment V.left_at V.tells_contents V.faults V.identity limit run line outcome old new told → kept_given old ≤ kept_end old → told.after ≡ Goes
        → progress_of new ≡ progress_after (kept_depth old) limit run line outcome (progress_of old) }
    ensures rises { (limit : ℕ) (run : RunState) (line : Line) (outcome : LineOutcome) (old new : KeptEngine V) (told : Flushed)
        → KeepsLine V.seen V.moment V.left_at V.tells_contents V.faults V.identity limit run line outcome old new told → kept_given old ≤ kept_end old → told.after ≡ Goes
        → kept_given old ≤ kept_given new }
    ensures counts { (limit : ℕ) (run : RunState) (line : Line) (outcome : LineOutcome) (old new : KeptEngine V) (told : Flushed)
        → KeepsLine V.seen V.moment V.left_at V.tells_contents V.faults V.identity limit run line outcome old new told → CountsFault V.faults V.identity old new told.after }
{
    what_is_kept_stands::<V>();
}

/// A run of lines that were served one behind the other over an engine whose log is kept: what a crash leaves of it, where it went on
/// and where it stopped behind its last line, and how far its log has come on the store. The volume's count rises just where it stopped at
/// a fault.
pub fn a_run_of_lines_is_kept<V: Volume>()
    ensures goes_on { (opening : DatabaseState) (limit : ℕ) (start : V) (before pairs : List (Line × LineOutcome)) (old new : KeptEngine V) → V.tells_contents → kept_given old ≤ kept_end old
        → KeepsSoFar V.seen V.moment V.left_at opening limit start before old
        → KeepsLines V.seen V.moment V.left_at V.tells_contents V.faults V.identity limit (run_after_all limit (run_from opening) before) pairs old new
        → KeepsSoFar V.seen V.moment V.left_at opening limit start (before ++ pairs) new }
    ensures stops { (opening : DatabaseState) (limit : ℕ) (start : V) (before pairs : List (Line × LineOutcome)) (old new : KeptEngine V) (told : Flushed) → V.tells_contents → kept_given old ≤ kept_end old
        → KeepsSoFar V.seen V.moment V.left_at opening limit start before old
        → KeepsStopped V.seen V.moment V.left_at V.tells_contents V.faults V.identity limit (run_after_all limit (run_from opening) before) pairs old new told
        → LeavesRun V.seen V.moment V.left_at opening limit start (kept_volume new) (before ++ pairs) }
    ensures progress { (limit : ℕ) (run : RunState) (pairs : List (Line × LineOutcome)) (old new : KeptEngine V) → kept_given old ≤ kept_end old
        → KeepsLines V.seen V.moment V.left_at V.tells_contents V.faults V.identity limit run pairs old new
        → progress_of new ≡ progress_from (kept_depth old) limit run (progress_of old) pairs }
    ensures counts { (limit : ℕ) (run : RunState) (pairs : List (Line × LineOutcome)) (old new : KeptEngine V)
        → KeepsLines V.seen V.moment V.left_at V.tells_contents V.faults V.identity limit run pairs old new → CountsFault V.faults V.identity old new Goes }
    ensures stop_counts { (limit : ℕ) (run : RunState) (pairs : List (Line × LineOutcome)) (old new : KeptEngine V) (told : Flushed)
        → KeepsStopped V.seen V.moment V.left_at V.tells_contents V.faults V.identity limit run pairs old new told → CountsFault V.faults V.identity old new told.after }
{
    what_is_kept_stands::<V>();
    entries_to_come_change_nothing();
}
