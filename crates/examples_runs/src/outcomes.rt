//! Runs whose lines are not all served: which outcomes may come.
#![tactic(auto, unfolding(session_local::specs::Computing::computing))]

ghost use Rattle.std.specs.Prelude.{◌≡◌, ℕ, List, [], ◌∷◌, true, false, codes};
ghost use Rattle.jet_base.specs.declared.replies.Jet.TheVariants as jet;
ghost use Rattle.database_state.specs.State.{empty_state};
ghost use Rattle.session_local.specs.declared.request.Request.TheVariants as call;
ghost use Rattle.session_local.specs.Run.{outcomes_may_come, run_from, served, no_memory, flush_failed, unserved};

/// A session that was answered a failed flush has no further line; the others go on.
pub fn behind_a_failed_flush()
    ensures last { outcomes_may_come 4194304 (run_from empty_state) (((1, call.BeginSession), served) ∷ ((2, call.BeginSession), served)
        ∷ ((1, call.CreateTable (codes "t")), flush_failed jet.LogWriteFail) ∷ []) ≡ true }
    ensures others { outcomes_may_come 4194304 (run_from empty_state) (((1, call.BeginSession), served) ∷ ((2, call.BeginSession), served)
        ∷ ((1, call.CreateTable (codes "t")), flush_failed jet.LogWriteFail) ∷ ((2, call.EndSession), served) ∷ []) ≡ true }
    ensures own { outcomes_may_come 4194304 (run_from empty_state) (((1, call.BeginSession), served) ∷ ((2, call.BeginSession), served)
        ∷ ((1, call.CreateTable (codes "t")), flush_failed jet.LogWriteFail) ∷ ((1, call.EndSession), served) ∷ []) ≡ false }
    ensures own_later { outcomes_may_come 4194304 (run_from empty_state) (((1, call.BeginSession), served) ∷ ((2, call.BeginSession), served)
        ∷ ((1, call.CreateTable (codes "t")), flush_failed jet.LogWriteFail) ∷ ((2, call.EndSession), served) ∷ ((1, call.EndSession), served) ∷ []) ≡ false }
{}

/// A line that is not answered ends the run.
pub fn behind_an_unserved_line()
    ensures last { outcomes_may_come 4194304 (run_from empty_state) (((1, call.BeginSession), served) ∷ ((2, call.BeginSession), served)
        ∷ ((1, call.CreateTable (codes "t")), unserved) ∷ []) ≡ true }
    ensures own { outcomes_may_come 4194304 (run_from empty_state) (((1, call.BeginSession), served) ∷ ((2, call.BeginSession), served)
        ∷ ((1, call.CreateTable (codes "t")), unserved) ∷ ((1, call.EndSession), served) ∷ []) ≡ false }
    ensures others { outcomes_may_come 4194304 (run_from empty_state) (((1, call.BeginSession), served) ∷ ((2, call.BeginSession), served)
        ∷ ((1, call.CreateTable (codes "t")), unserved) ∷ ((2, call.EndSession), served) ∷ []) ≡ false }
{}

/// Only a line that flushes can fail to, and only a line that takes memory can find none.
pub fn outcomes_of_one_line()
    ensures begin_does_not_flush { outcomes_may_come 4194304 (run_from empty_state) (((1, call.BeginSession), flush_failed jet.LogWriteFail) ∷ []) ≡ false }
    ensures begin_takes_memory { outcomes_may_come 4194304 (run_from empty_state) (((1, call.BeginSession), no_memory) ∷ []) ≡ true }
    ensures end_takes_none { outcomes_may_come 4194304 (run_from empty_state) (((1, call.BeginSession), served) ∷ ((1, call.EndSession), no_memory) ∷ []) ≡ false }
    ensures other_reply { outcomes_may_come 4194304 (run_from empty_state) (((1, call.BeginSession), served)
        ∷ ((1, call.CreateTable (codes "t")), flush_failed jet.OutOfMemory) ∷ []) ≡ false }
{}
