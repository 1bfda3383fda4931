//! The laws of the bytes of live parts. Each function has an empty body, and its clause is the law.

ghost use Rattle.std.specs.Prelude.{◌≡◌, List, ℕ, Some, true};
ghost use Rattle.column_set.specs.NumberReading.{IsBytes};
ghost use Rattle.live_part.specs.LiveBytes.{LivePart, live_bytes, live_fits, without_undone};
ghost use Rattle.live_part.specs.LiveReading.{live_in, whole_in};

/// A live part that can be written is read back from its bytes, and bytes that are read are those of what is read, to the last
/// one. What is written without its undone changes is what is opened of it.
pub fn live_parts_are_read_back()
    ensures again { (live : LivePart) → live_fits live ≡ true → whole_in (live_bytes live) ≡ Some live }
    ensures only { (bytes : List ℕ) (live : LivePart) → IsBytes bytes → whole_in bytes ≡ Some live → (bytes ≡ live_bytes live) × (live_fits live ≡ true) }
    ensures settled { (live : LivePart) → live_fits live ≡ true → live_in (live_bytes (without_undone live)) ≡ Some (without_undone live) }
{}
