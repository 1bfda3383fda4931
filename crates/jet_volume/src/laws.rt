//! How what a crash may leave composes over time, for every volume, and what of a write comes in part.

ghost use Rattle.std.specs.Prelude.{◌≤◌, ◌<◌, ◌⊎◌, ℕ, List, length};
ghost use Rattle.jet_volume.specs.Image.{Image};
ghost use Rattle.jet_volume.specs.Crash.{written, Torn, LeftBetween, LeftSince, Elapses, CrashLeaves, LeavesOnly};

use crate::volume::Volume;

/// The moments of a volume compose. It does nothing: its clauses are the laws.
pub fn moments_compose<V: Volume>()
    ensures this_moment_counts { (volume : V) (t : ℕ) (image : Image) → t ≤ V.moment volume → V.left_at volume (V.moment volume) image
        → LeftSince V.moment V.left_at volume t image }
    ensures no_other_since { (volume : V) (image : Image) → LeftSince V.moment V.left_at volume (V.moment volume) image
        → V.left_at volume (V.moment volume) image }
    ensures splits { (volume : V) (t u : ℕ) (image : Image) → t ≤ u → LeftSince V.moment V.left_at volume t image
        → LeftBetween V.moment V.left_at volume t u image ⊎ LeftSince V.moment V.left_at volume u image }
    ensures stays { (old new : V) (t u : ℕ) (image : Image) → Elapses V.moment V.left_at old new → u < V.moment old
        → LeftBetween V.moment V.left_at new t u image → LeftBetween V.moment V.left_at old t u image }
    ensures kept { (old new : V) (t u : ℕ) (image : Image) → Elapses V.moment V.left_at old new → u ≤ V.moment old
        → LeftBetween V.moment V.left_at old t u image → LeftBetween V.moment V.left_at new t u image }
{}

/// A write of a front of a piece is one of the piece that came in part. It does nothing: its clause is the law.
pub fn a_front_came_in_part()
    ensures { (at n : ℕ) (front bytes : List ℕ) → length front ≤ n → Torn at n bytes (written at front bytes) }
{}
