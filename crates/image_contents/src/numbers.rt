//! The numbers of log entries.

ghost use Rattle.std.specs.Prelude.{◌≡◌, ◌&&◌, nat_le};

/// Whether an entry was made, of so many: they are numbered from 1.
pub(crate) fn is_made(number: u64, entry: u64) -> bool
    ensures { result ≡ (nat_le 1 entry && nat_le entry number) }
{
    1 <= entry && entry <= number
}
