//! Byte strings of which short ones take no memory.

ghost use Rattle.std.specs.Prelude.{◌≡◌, ◌+◌, ◌<◌, ◌≤◌, ◌↔◌, [], length, take, IfOk, IsTrue, bytes_eq};
ghost use Rattle.jet_base.specs.SmallBytes.{kept_bytes, IsInPlace, IsKept};
ghost use Rattle.jet_base.specs.ByteHash.{bytes_hash, hash_with, mixed, word_from};

use std::alloc::{AllocError, Global};
use std::marker::Model;

/// The most bytes that are kept in place.
const MOST_IN_PLACE: usize = 22;

/// The bytes of a word.
const WORD_BYTES: usize = 8;

/// What a hash is multiplied by for each word: 2^64 divided by the golden ratio, made odd.
const MIXER: u64 = 0x9e37_79b9_7f4a_7c15;

// The bytes: few of them in place, with zeros behind them, and more in memory of their own.
#[derive(Debug, Drop)]
enum Kept {
    InPlace(u8, [u8; 22]),
    Apart(Box<Vec<u8>>),
}

/// A string of bytes. Up to 22 bytes are kept in place, so that a short string takes no memory.
#[derive(Debug, Drop)]
pub struct SmallBytes {
    kept: Kept,
}

impl Model for SmallBytes {
    ghost use Rattle.std.specs.Prelude.{List, ℕ};
    ghost use Rattle.jet_base.specs.SmallBytes.{kept_bytes, IsKept};

    ghost Value = { List ℕ };

    ghost view = { λ a. kept_bytes a.kept };

    ghost invariant = { λ a. IsKept a.kept };
}

impl SmallBytes {
    /// The string without a byte. It takes no memory.
    pub fn empty() -> SmallBytes
        ensures { result ≡ [] }
    {
        SmallBytes {
            kept: Kept::InPlace(0, [0; 22]),
        }
    }

    /// The string of these bytes, which it takes over.
    pub fn new(bytes: Vec<u8>) -> Result<SmallBytes, AllocError>
        ensures { IfOk result (λ made. made ≡ bytes.items) }
    {
        if bytes.len() <= MOST_IN_PLACE {
            let kept = in_place(bytes.as_slice());
            Ok(SmallBytes { kept })
        } else {
            let kept = apart(bytes)?;
            Ok(SmallBytes { kept })
        }
    }

    /// The string of these bytes, copied.
    pub fn from_slice(alloc: Global, bytes: &[u8]) -> Result<SmallBytes, AllocError>
        ensures { IfOk result (λ made. made ≡ bytes.now) }
    {
        if bytes.len() <= MOST_IN_PLACE {
            let kept = in_place(bytes);
            Ok(SmallBytes { kept })
        } else {
            let copied = Vec::from_slice(alloc, bytes)?;
            let kept = apart(copied)?;
            Ok(SmallBytes { kept })
        }
    }

    /// The bytes.
    #[inline(always)]
    pub fn as_slice(&self) -> &[u8]
        ensures { result.now ≡ self.now }
    {
        match &self.kept {
            Kept::InPlace(count, bytes) => &bytes[..*count as usize],
            Kept::Apart(bytes) => bytes.as_slice(),
        }
    }

    /// Whether the other has the same bytes.
    #[inline(always)]
    pub fn is(&self, other: &SmallBytes) -> bool
        ensures { result ≡ bytes_eq self.now other.now }
    {
        match (&self.kept, &other.kept) {
            (Kept::InPlace(count, bytes), Kept::InPlace(other_count, other_bytes)) => {
                are_equal(*count, bytes, *other_count, other_bytes)
            }
            _ => self.as_slice() == other.as_slice(),
        }
    }

    /// A hash of the bytes, made of the first sixteen and the last eight: equal strings have the same.
    #[inline(always)]
    pub fn hash(&self) -> u64
        ensures { result ≡ bytes_hash self.now }
    {
        match &self.kept {
            Kept::InPlace(count, bytes) => {
                hash_of(bytes, (*count as usize).saturating_sub(WORD_BYTES))
            }
            Kept::Apart(bytes) => hash_of(bytes.as_slice(), bytes.len() - WORD_BYTES),
        }
    }
}

impl Clone for SmallBytes {
    ghost use Rattle.std.specs.Prelude.{◌≡◌};

    ghost is_clone = { λ a b. b ≡ a };

    fn clone(&self) -> Result<SmallBytes, AllocError> {
        match &self.kept {
            Kept::InPlace(count, bytes) => Ok(SmallBytes {
                kept: Kept::InPlace(*count, *bytes),
            }),
            Kept::Apart(bytes) => {
                let held: &Vec<u8> = bytes;
                let kept = apart(held.clone()?)?;
                Ok(SmallBytes { kept })
            }
        }
    }
}

// Whether strings in place are equal. Their counts and their first bytes tell most of them apart.
#[inline(always)]
fn are_equal(count: u8, bytes: &[u8; 22], other_count: u8, other_bytes: &[u8; 22]) -> bool
    requires own { IsInPlace count bytes.now }
    requires other { IsInPlace other_count other_bytes.now }
    ensures { result ≡ bytes_eq (take count bytes.now) (take other_count other_bytes.now) }
{
    if count != other_count {
        return false;
    }
    if !have_same_front(bytes, other_bytes) {
        return false;
    }
    if count as usize <= WORD_BYTES {
        return true;
    }
    *bytes == *other_bytes
}

// Whether the first eight bytes are the same.
#[inline(always)]
fn have_same_front(bytes: &[u8], other: &[u8]) -> bool
    requires own { 8 ≤ length bytes.now }
    requires other { 8 ≤ length other.now }
    ensures { IsTrue result ↔ (take 8 bytes.now ≡ take 8 other.now) }
{
    word_at(bytes, 0) == word_at(other, 0)
}

// The eight bytes from a place on, as a number, the lowest first.
#[inline(always)]
fn word_at(bytes: &[u8], at: usize) -> u64
    requires { at + 8 ≤ length bytes.now }
    ensures { result ≡ word_from at bytes.now }
{
    u64::from_le_bytes([
        bytes[at],
        bytes[at + 1],
        bytes[at + 2],
        bytes[at + 3],
        bytes[at + 4],
        bytes[at + 5],
        bytes[at + 6],
        bytes[at + 7],
    ])
}

// The hash of the first two words and of one more.
#[inline(always)]
fn hash_of(bytes: &[u8], last: usize) -> u64
    requires two { 16 ≤ length bytes.now }
    requires within { last + 8 ≤ length bytes.now }
    ensures { result ≡ hash_with last bytes.now }
{
    let first = mixed(0, word_at(bytes, 0));
    let second = mixed(first, word_at(bytes, WORD_BYTES));
    mixed(second, word_at(bytes, last))
}

// A hash with one more word.
#[inline(always)]
fn mixed(hash: u64, word: u64) -> u64
    ensures { result ≡ mixed hash word }
{
    hash.wrapping_add(word).wrapping_mul(MIXER)
}

// At most 22 bytes, kept in place.
fn in_place(bytes: &[u8]) -> Kept
    requires { length bytes.now ≤ 22 }
    ensures bytes { kept_bytes result ≡ bytes.now }
    ensures kept { IsKept result }
{
    let mut kept = [0; 22];
    let (front, _) = kept.split_at_mut(bytes.len());
    front.copy_from_slice(bytes);
    Kept::InPlace(bytes.len() as u8, kept)
}

// More than 22 bytes, in memory of their own.
fn apart(bytes: Vec<u8>) -> Result<Kept, AllocError>
    requires { 22 < length bytes.items }
    ensures bytes { IfOk result (λ kept. kept_bytes kept ≡ bytes.items) }
    ensures kept { IfOk result IsKept }
{
    let alloc = *bytes.allocator();
    let apart = Box::new(alloc, bytes)?;
    Ok(Kept::Apart(apart))
}
