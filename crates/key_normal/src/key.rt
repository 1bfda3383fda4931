//! The bytes of a key.

ghost use Rattle.std.specs.Prelude.{◌≡◌, ◌≤◌, [], length, Some, refl, bytes_eq, ⊤};
ghost use Rattle.std.specs.Ordering.{nat_cmp};
ghost use Rattle.std.specs.Cmp.{partial_equiv_from_equiv};
ghost use Rattle.std.specs.Cmp.Lexicographic.{slice_cmp, nat_list_eq_equiv, nat_list_cmp_total, texts_ties, texts_po};

use arrayvec::ArrayVec;
use std::alloc::AllocError;
use std::cmp::Ordering;
use std::marker::Model;

/// The most bytes of a key and of a bookmark.
pub const LONGEST_KEY: usize = 255;

/// The key of an entry of an index, or a bookmark: at most 255 bytes, which lie in the value itself.
///
/// Keys are ordered as byte strings.
#[derive(Debug, Drop)]
pub struct Key {
    pub(crate) bytes: ArrayVec<u8, LONGEST_KEY>,
}

impl Model for Key {
    ghost use Rattle.std.specs.Prelude.{List, ℕ};

    ghost Value = { List ℕ };

    ghost view = { λ a. a.bytes.items };
}

impl Key {
    /// The key without a byte.
    pub fn new() -> Key
        ensures { result ≡ [] }
    {
        Key {
            bytes: ArrayVec::new(),
        }
    }

    /// The key of these bytes.
    pub fn from_slice(bytes: &[u8]) -> Key
        requires { length bytes.now ≤ 255 }
        ensures { result ≡ bytes.now }
    {
        let mut kept = ArrayVec::new();
        match kept.try_extend_from_slice(bytes) {
            Ok(()) => Key { bytes: kept },
            Err(_) => unreachable!(),
        }
    }

    /// Makes it the key of these bytes, where it lies.
    pub fn set(&mut self, bytes: &[u8])
        requires { length bytes.now ≤ 255 }
        ensures { self.new ≡ bytes.now }
    {
        self.bytes.clear();
        match self.bytes.try_extend_from_slice(bytes) {
            Ok(()) => {}
            Err(_) => unreachable!(),
        }
    }

    /// The bytes.
    pub fn as_bytes(&self) -> &[u8]
        ensures value { result.now ≡ self.now }
        ensures fits { length self.now ≤ 255 }
    {
        self.bytes.as_slice()
    }

    /// Another value of the same key. It takes no memory.
    pub fn copy(&self) -> Key
        ensures { result ≡ self.now }
    {
        Key::from_slice(self.as_bytes())
    }
}

impl Clone for Key {
    ghost is_clone = { λ a b. b ≡ a };

    ghost is_infallible = { λ _. ⊤ };

    fn clone(&self) -> Result<Key, AllocError> {
        Ok(self.copy())
    }
}

impl PartialEq for Key {
    ghost eq = { bytes_eq };

    ghost laws = { partial_equiv_from_equiv nat_list_eq_equiv };

    fn eq(&self, other: &Key) -> bool {
        self.as_bytes() == other.as_bytes()
    }
}

impl Eq for Key {
    ghost laws = { nat_list_eq_equiv };
}

impl PartialOrd for Key {
    ghost partial_cmp = { λ a b. Some (slice_cmp nat_cmp a b) };

    ghost laws = { texts_po };

    fn partial_cmp(&self, other: &Key) -> Option<Ordering> {
        Some(self.cmp(other))
    }
}

impl Ord for Key {
    ghost cmp = { slice_cmp nat_cmp };

    ghost total = { nat_list_cmp_total };

    ghost matches_partial_cmp = { λ a b. refl };

    ghost matches_eq = { texts_ties };

    fn cmp(&self, other: &Key) -> Ordering {
        self.as_bytes().cmp(other.as_bytes())
    }
}
