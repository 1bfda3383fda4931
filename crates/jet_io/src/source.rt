//! Where bytes come from.

ghost use Rattle.std.specs.Prelude.{◌≡◌, ◌<◌, ◌≤◌, ◌↔◌, ℕ, List, [], Option, length, take, IfOk, OnErr, IfSome};
ghost use Rattle.std.specs.Io.KnownBytes.{prepend_known};
ghost use Rattle.jet_io.specs.Faults.{CountsFault};

use crate::failed::Failed;

/// Bytes that are read once, from the first to the last.
pub trait Source {
    /// The bytes left, where the source tells them.
    ghost left: { Self → Option (List ℕ) };

    /// How often it has failed.
    ghost faults: { Self → ℕ };

    /// Writes the next bytes to the front of `into`, which is not empty, and answers how many. It answers
    /// 0 exactly where no byte is left. What stands in `into` behind them means nothing.
    fn read(&mut self, into: &mut [u8]) -> Result<usize, Failed>
        requires { 0 < length into.old }
        ensures within { IfOk result (λ n. n ≤ length into.old) }
        ensures bytes { IfOk result (λ n. left self.old ≡ prepend_known (take n into.new) (left self.new)) }
        ensures ends { IfOk result (λ n. IfSome (left self.old) (λ bytes. (n ≡ 0) ↔ (bytes ≡ []))) }
        ensures kept { OnErr result (left self.new ≡ left self.old) }
        ensures faults { CountsFault result (faults self.old) (faults self.new) };
}
