//! How often an object of the outside has failed.

ghost use Rattle.std.specs.Prelude.{◌≡◌, ℕ, ◌+◌, ◌-◌, ◌^◌, ◌<◌, ◌≤◌, min, MatchResult};

use crate::rises::Rises;
use std::marker::Model;

/// A count of faults. It rises by one with each fault and never falls.
///
/// A clause sees the count itself, which has no greatest value. Code reads it as a `u64`, which stays
/// at 2^64 - 1 once it is there.
#[derive(Drop)]
pub struct FaultCount {
    shown: u64,
    rises: Rises,
}

impl Model for FaultCount {
    ghost Value = { ℕ };

    ghost view = { λ c. c.rises.total };

    ghost invariant = { λ c. c.shown ≡ min c.rises.total (2 ^ 64 - 1) };
}

impl FaultCount {
    /// No fault yet.
    pub fn new() -> FaultCount
        ensures { result ≡ 0 }
    {
        FaultCount {
            shown: 0,
            rises: Rises::new(),
        }
    }

    /// Counts one fault.
    pub fn rise(&mut self)
        ensures { self.new ≡ self.old + 1 }
    {
        self.rises.rise();
        self.shown = self.shown.saturating_add(1);
    }

    /// Counts an answer where it is an error, and hands it on.
    pub fn note<T, E>(&mut self, answer: Result<T, E>) -> Result<T, E>
        ensures same { result ≡ answer }
        ensures counted { MatchResult answer (λ _. self.new ≡ self.old) (λ _. self.new ≡ self.old + 1) }
    {
        match answer {
            Ok(value) => Ok(value),
            Err(error) => {
                self.rise();
                Err(error)
            }
        }
    }

    /// Counts a write that took `count` of `len` bytes, where it did not take all of them.
    pub fn note_short(&mut self, count: usize, len: usize)
        ensures short { count < len → self.new ≡ self.old + 1 }
        ensures whole { len ≤ count → self.new ≡ self.old }
    {
        if count < len {
            self.rise();
        }
    }

    /// The count, or 2^64 - 1 where it is greater.
    pub fn shown(&self) -> u64
        ensures { result ≡ min self.now (2 ^ 64 - 1) }
    {
        self.shown
    }
}
