//! The hash of a record.

ghost use Rattle.std.specs.Prelude.{◌≡◌, ◌≤◌, ◌+◌, ◌%◌, ◌^◌, drop, fold, length};
ghost use Rattle.std.specs.Int.{w32, w64, from_le_bytes};
ghost use Rattle.version_store.specs.Hashes.{hash_of as the_hash, mixed, with_words};

use jet_base::TableId;

// An odd number near 2^64 divided by the golden ratio.
const FACTOR: u64 = 11_400_714_819_323_198_485;

// The hash with one more number.
fn mix(hash: u64, number: u64) -> u64
    ensures { result ≡ mixed hash number }
{
    hash.wrapping_add(number).wrapping_mul(FACTOR)
}

/// The hash of a record, whose highest bits spread best: equal records have equal hashes.
pub(crate) fn hash_of(table: TableId, bookmark: &[u8]) -> u64
    ensures { result ≡ the_hash table.0 bookmark.now }
{
    let hash = mix(0, u64::from(table.0));
    let count = bookmark.len();
    match count {
        0..=3 => with_each(hash, bookmark),
        4..=7 => {
            let front = mix(hash, four_at(bookmark, 0));
            mix(front, four_at(bookmark, count - 4))
        }
        _ => {
            let words = with_words(hash, bookmark);
            mix(words, eight_at(bookmark, count - 8))
        }
    }
}

// The hash with each of the bytes.
fn with_each(hash: u64, bytes: &[u8]) -> u64
    ensures { result ≡ fold mixed hash bytes.now }
{
    let mut hash = hash;
    for byte in bytes {
        hash = mix(hash, u64::from(*byte));
    }
    hash
}

// The hash with each whole word of eight bytes.
#[tactic(auto, using(crate::proofs::HashLemmas::with_words_few))]
fn with_words(hash: u64, bytes: &[u8]) -> u64
    ensures { result ≡ with_words hash bytes.now }
{
    let mut hash = hash;
    let mut rest = bytes;
    while let [a, b, c, d, e, f, g, h, others @ ..] = rest {
        hash = mix(hash, u64::from_le_bytes([*a, *b, *c, *d, *e, *f, *g, *h]));
        rest = others;
    }
    hash
}

// The four bytes from a place on, as a number, the lowest first.
fn four_at(bytes: &[u8], at: usize) -> u64
    requires { at + 4 ≤ length bytes.now }
    ensures { result ≡ from_le_bytes w32 (drop at bytes.now) }
{
    u64::from(u32::from_le_bytes([bytes[at], bytes[at + 1], bytes[at + 2], bytes[at + 3]]))
}

// The eight bytes from a place on, as a number, the lowest first.
fn eight_at(bytes: &[u8], at: usize) -> u64
    requires { at + 8 ≤ length bytes.now }
    ensures { result ≡ from_le_bytes w64 (drop at bytes.now) }
{
    u64::from_le_bytes([
        bytes[at],
        bytes[at + 1],
        bytes[at + 2],
        bytes[at + 3],
        bytes[at + 4],
        bytes[at + 5],
        bytes[at + 6],
        bytes[at + 7],
    ])
}
