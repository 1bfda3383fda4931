//! Worked examples of the bytes. Each function has an empty body, and its clause says what the definitions give.

ghost use Rattle.std.specs.Prelude.{◌≡◌, [], ◌∷◌, ◌++◌, true, None, Some, take};
ghost use Rattle.live_part.specs.LiveBytes.{live_bytes, live_fits};
ghost use Rattle.live_part.specs.LiveReading.{live_in, undone_in, whole_in};
ghost use Rattle.live_part.specs.Samples.{small_bytes, small_part, taken_back, undone_bytes, undone_part};

/// An engine without sessions and held changes has two counts of 0.
pub fn bytes_of_nothing()
    ensures bytes { live_bytes (record { sessions = []; held = [] }) ≡ 0 ∷ 0 ∷ 0 ∷ 0 ∷ 0 ∷ 0 ∷ 0 ∷ 0 ∷ [] }
    ensures read { live_in (0 ∷ 0 ∷ 0 ∷ 0 ∷ 0 ∷ 0 ∷ 0 ∷ 0 ∷ []) ≡ Some (record { sessions = []; held = [] }) }
{}

/// A session in a transaction, one that has a table open twice, a committed put with the row before it, and an open sum.
pub fn bytes_of_two_sessions_and_two_changes()
    ensures bytes { live_bytes small_part ≡ small_bytes }
    ensures fits { live_fits small_part ≡ true }
    ensures read { live_in small_bytes ≡ Some small_part }
    ensures behind { live_in (small_bytes ++ 0 ∷ []) ≡ None }
    ensures short { live_in (take 40 small_bytes) ≡ None }
{}

/// The same with a drop that was taken back: it is read, and left out of what is opened.
pub fn bytes_with_an_undone_change()
    ensures bytes { live_bytes undone_part ≡ undone_bytes }
    ensures whole { whole_in undone_bytes ≡ Some undone_part }
    ensures opened { live_in undone_bytes ≡ Some small_part }
    ensures undone { undone_in undone_bytes ≡ Some (taken_back ∷ []) }
{}
