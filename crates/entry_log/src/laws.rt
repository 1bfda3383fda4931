//! The law of a stream and of what is kept of it. The function does nothing: its contract is the law.

ghost use Rattle.std.specs.Prelude.{◌≡◌, ◌≤◌, ◌++◌, [], ℕ, List, drop, length};
ghost use Rattle.entry_log.specs.LogState.{IsKeptOf, KeptStream, appended, bytes_from, empty_stream, stream_end, trimmed_to};

/// What is kept of a stream stays so once it is trimmed, up to its end, and goes on so with what stands behind it. It ends where
/// the stream ends, and from each position on that is kept it has the stream's bytes.
pub fn what_is_kept_goes_on_with_its_stream()
    ensures first { IsKeptOf [] empty_stream }
    ensures appended { (whole bytes : List ℕ) (stream : KeptStream) → IsKeptOf whole stream → IsKeptOf (whole ++ bytes) (appended bytes stream) }
    ensures trimmed { (whole : List ℕ) (position : ℕ) (stream : KeptStream) → IsKeptOf whole stream → position ≤ stream_end stream → IsKeptOf whole (trimmed_to position stream) }
    ensures end { (whole : List ℕ) (stream : KeptStream) → IsKeptOf whole stream → stream_end stream ≡ length whole }
    ensures from { (whole : List ℕ) (position : ℕ) (stream : KeptStream) → IsKeptOf whole stream → stream.from ≤ position → bytes_from position stream ≡ drop position whole }
{}
