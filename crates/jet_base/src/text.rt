//! Names and byte strings, which contracts see as lists of bytes.

ghost use Rattle.std.specs.Prelude.{◌≡◌, [], IfOk, Some, refl, bytes_eq};
ghost use Rattle.std.specs.Ordering.{nat_cmp};
ghost use Rattle.std.specs.Cmp.{partial_equiv_from_equiv};
ghost use Rattle.jet_base.specs.ByteHash.{bytes_hash};
ghost use Rattle.std.specs.Cmp.Lexicographic.{slice_cmp, nat_list_eq_equiv, nat_list_cmp_total, texts_ties, texts_po};

use crate::memory::OutOfMemory;
use crate::small_bytes::SmallBytes;
use std::alloc::{AllocError, Global};
use std::cmp::Ordering;
use std::marker::Model;

/// The most bytes of a name. A name has one at least.
pub const LONGEST_NAME: usize = 64;

/// The name of a table, a column or an index: any bytes, of which a script writes letters, digits and `_` alone. Names are
/// equal exactly where their bytes are: case counts.
#[derive(Debug, Drop)]
pub struct Name {
    bytes: SmallBytes,
}

impl Model for Name {
    ghost use Rattle.std.specs.Prelude.{List, ℕ};

    ghost Value = { List ℕ };

    ghost view = { λ a. a.bytes };
}

impl Name {
    /// The name that is this text.
    pub fn new(alloc: Global, text: &str) -> Result<Name, OutOfMemory>
        ensures { IfOk result (λ made. made ≡ text.now) }
    {
        Name::from_slice(alloc, text.as_bytes())
    }

    /// The name of these bytes, copied.
    pub fn from_slice(alloc: Global, bytes: &[u8]) -> Result<Name, OutOfMemory>
        ensures { IfOk result (λ made. made ≡ bytes.now) }
    {
        Ok(Name {
            bytes: SmallBytes::from_slice(alloc, bytes)?,
        })
    }

    /// The bytes.
    pub fn as_bytes(&self) -> &[u8]
        ensures { result.now ≡ self.now }
    {
        self.bytes.as_slice()
    }

    /// A hash of the name: equal names have the same.
    #[inline(always)]
    pub fn hash(&self) -> u64
        ensures { result ≡ bytes_hash self.now }
    {
        self.bytes.hash()
    }

    /// Another value of the same name.
    pub fn copy(&self) -> Result<Name, OutOfMemory>
        ensures { IfOk result (λ made. made ≡ self.now) }
    {
        Ok(self.clone()?)
    }
}

impl Clone for Name {
    ghost is_clone = { λ a b. b ≡ a };

    fn clone(&self) -> Result<Name, AllocError> {
        Ok(Name {
            bytes: self.bytes.clone()?,
        })
    }
}

impl PartialEq for Name {
    ghost eq = { bytes_eq };

    ghost laws = { partial_equiv_from_equiv nat_list_eq_equiv };

    #[inline(always)]
    fn eq(&self, other: &Name) -> bool {
        self.bytes.is(&other.bytes)
    }
}

impl Eq for Name {
    ghost laws = { nat_list_eq_equiv };
}

impl PartialOrd for Name {
    ghost partial_cmp = { λ a b. Some (slice_cmp nat_cmp a b) };

    ghost laws = { texts_po };

    fn partial_cmp(&self, other: &Name) -> Option<Ordering> {
        Some(self.cmp(other))
    }
}

impl Ord for Name {
    ghost cmp = { slice_cmp nat_cmp };

    ghost total = { nat_list_cmp_total };

    ghost matches_partial_cmp = { λ a b. refl };

    ghost matches_eq = { texts_ties };

    fn cmp(&self, other: &Name) -> Ordering {
        self.as_bytes().cmp(other.as_bytes())
    }
}

/// A string of bytes.
#[derive(Debug, Drop)]
pub struct Octets {
    bytes: SmallBytes,
}

impl Model for Octets {
    ghost use Rattle.std.specs.Prelude.{List, ℕ};

    ghost Value = { List ℕ };

    ghost view = { λ a. a.bytes };
}

impl Octets {
    /// The string without a byte. It takes no memory.
    pub fn empty(_alloc: Global) -> Octets
        ensures { result ≡ [] }
    {
        Octets {
            bytes: SmallBytes::empty(),
        }
    }

    /// The string of these bytes, which it takes over.
    pub fn new(bytes: Vec<u8>) -> Result<Octets, OutOfMemory>
        ensures { IfOk result (λ made. made ≡ bytes.items) }
    {
        Ok(Octets {
            bytes: SmallBytes::new(bytes)?,
        })
    }

    /// The string of these bytes, copied.
    pub fn from_slice(alloc: Global, bytes: &[u8]) -> Result<Octets, OutOfMemory>
        ensures { IfOk result (λ made. made ≡ bytes.now) }
    {
        Ok(Octets {
            bytes: SmallBytes::from_slice(alloc, bytes)?,
        })
    }

    /// The bytes.
    pub fn as_bytes(&self) -> &[u8]
        ensures { result.now ≡ self.now }
    {
        self.bytes.as_slice()
    }

    /// Another value of the same bytes.
    pub fn copy(&self) -> Result<Octets, OutOfMemory>
        ensures { IfOk result (λ made. made ≡ self.now) }
    {
        Ok(self.clone()?)
    }
}

impl Clone for Octets {
    ghost is_clone = { λ a b. b ≡ a };

    fn clone(&self) -> Result<Octets, AllocError> {
        Ok(Octets {
            bytes: self.bytes.clone()?,
        })
    }
}

impl PartialEq for Octets {
    ghost eq = { bytes_eq };

    ghost laws = { partial_equiv_from_equiv nat_list_eq_equiv };

    fn eq(&self, other: &Octets) -> bool {
        self.bytes.is(&other.bytes)
    }
}

impl Eq for Octets {
    ghost laws = { nat_list_eq_equiv };
}

impl PartialOrd for Octets {
    ghost partial_cmp = { λ a b. Some (slice_cmp nat_cmp a b) };

    ghost laws = { texts_po };

    fn partial_cmp(&self, other: &Octets) -> Option<Ordering> {
        Some(self.cmp(other))
    }
}

impl Ord for Octets {
    ghost cmp = { slice_cmp nat_cmp };

    ghost total = { nat_list_cmp_total };

    ghost matches_partial_cmp = { λ a b. refl };

    ghost matches_eq = { texts_ties };

    fn cmp(&self, other: &Octets) -> Ordering {
        self.as_bytes().cmp(other.as_bytes())
    }
}
