//! The single steps that change the log file, each of them synced before it answers.

ghost use Rattle.std.specs.Prelude.{◌≡◌, ◌<◌, ◌≤◌, ℕ, ◌+◌, ◌^◌, List, [], ◌∷◌, length, drop, OnOk};
ghost use Rattle.jet_io.specs.Faults.{CountsFault};
ghost use Rattle.jet_volume.specs.Crash.{written, Torn};
ghost use Rattle.log_ring.specs.Gates.{bars, barred, needs_zero, closed, BarringLeaves, ClosingLeaves, ReadyingLeaves};
ghost use Rattle.log_ring.specs.Writes.{LogIs, LogGoes};

use crate::places::{slot_start_of, u64_at};
use jet_io::Failed;
use jet_volume::{File, Volume};

/// Writes a piece into the log and syncs it.
fn write_synced<V: Volume>(volume: &mut V, at: u64, piece: &[u8]) -> Result<(), Failed>
    requires some { 0 < length piece.now }
    requires end { at + length piece.now ≤ 2 ^ 40 }
    ensures ok { V.tells_contents → (log : List ℕ) → LogIs V.seen V.moment V.left_at volume.old log
        → OnOk result (LogIs V.seen V.moment V.left_at volume.new (written at piece.now log)) }
    ensures any_moment { LogGoes V.moment V.left_at (Torn at (length piece.now)) volume.old volume.new }
    ensures faults { CountsFault result (V.faults volume.old) (V.faults volume.new) }
    ensures identity { V.identity volume.new ≡ V.identity volume.old }
{
    match volume.write_at(File::Log, at, piece) {
        Ok(()) => volume.sync(File::Log),
        Err(fault) => Err(fault),
    }
}

/// Writes a closed gate and syncs it.
fn close_gate<V: Volume>(volume: &mut V, at: u64) -> Result<(), Failed>
    requires { at < 2 ^ 40 }
    ensures ok { V.tells_contents → (log : List ℕ) → LogIs V.seen V.moment V.left_at volume.old log
        → OnOk result (LogIs V.seen V.moment V.left_at volume.new (written at (0 ∷ []) log)) }
    ensures any_moment { LogGoes V.moment V.left_at (Torn at 1) volume.old volume.new }
    ensures faults { CountsFault result (V.faults volume.old) (V.faults volume.new) }
    ensures identity { V.identity volume.new ≡ V.identity volume.old }
{
    write_synced(volume, at, &[0])
}

/// Writes a block but for its gate and syncs it.
pub fn write_behind<V: Volume>(volume: &mut V, gate: u64, block: &[u8]) -> Result<(), Failed>
    requires some { 1 < length block.now }
    requires end { gate + length block.now ≤ 2 ^ 40 }
    ensures ok { V.tells_contents → (log : List ℕ) → LogIs V.seen V.moment V.left_at volume.old log
        → OnOk result (LogIs V.seen V.moment V.left_at volume.new (written (gate + 1) (drop 1 block.now) log)) }
    ensures any_moment { LogGoes V.moment V.left_at (Torn (gate + 1) (length (drop 1 block.now))) volume.old volume.new }
    ensures faults { CountsFault result (V.faults volume.old) (V.faults volume.new) }
    ensures identity { V.identity volume.new ≡ V.identity volume.old }
{
    write_synced(volume, gate + 1, &block[1..])
}

/// Writes an open gate and syncs it.
pub fn open_gate<V: Volume>(volume: &mut V, at: u64) -> Result<(), Failed>
    requires { at < 2 ^ 40 }
    ensures ok { V.tells_contents → (log : List ℕ) → LogIs V.seen V.moment V.left_at volume.old log
        → OnOk result (LogIs V.seen V.moment V.left_at volume.new (written at (1 ∷ []) log)) }
    ensures any_moment { LogGoes V.moment V.left_at (Torn at 1) volume.old volume.new }
    ensures faults { CountsFault result (V.faults volume.old) (V.faults volume.new) }
    ensures identity { V.identity volume.new ≡ V.identity volume.old }
{
    write_synced(volume, at, &[1])
}

/// Whether a generation is barred, by the first nine bytes of its slot that the file has.
#[tactic(auto, unfolding(crate::specs::Gates::is_number))]
pub fn is_barred_by(generation: u64, front: &[u8]) -> bool
    requires generation { 1 ≤ generation }
    requires front { length front.now ≤ 9 }
    ensures { result ≡ bars generation front.now }
{
    if front.is_empty() {
        return slot_start_of(generation) != 0;
    }
    if front[0] != 1 {
        return true;
    }
    front.len() == 9 && u64_at(front, 1) != generation
}

/// Bars a generation, where it is not barred yet: from then on no block of it can be open before it begins.
pub fn bar<V: Volume>(volume: &mut V, generation: u64) -> Result<(), Failed>
    requires { 1 ≤ generation }
    ensures ok { V.tells_contents → (log : List ℕ) → LogIs V.seen V.moment V.left_at volume.old log
        → OnOk result (LogIs V.seen V.moment V.left_at volume.new (barred generation log)) }
    ensures any_moment { V.tells_contents → (log : List ℕ) → LogIs V.seen V.moment V.left_at volume.old log
        → LogGoes V.moment V.left_at (λ from to. BarringLeaves generation log to) volume.old volume.new }
    ensures faults { CountsFault result (V.faults volume.old) (V.faults volume.new) }
    ensures identity { V.identity volume.new ≡ V.identity volume.old }
{
    let at = slot_start_of(generation);
    let mut front = [0; 9];
    match volume.read(File::Log, at, &mut front) {
        Ok(count) => {
            if is_barred_by(generation, &front[..count]) {
                Ok(())
            } else {
                close_gate(volume, at)
            }
        }
        Err(fault) => Err(fault),
    }
}

/// Whether a gate needs a 0, by its byte, if the file has it.
pub fn needs_zero_by(missing_counts: bool, gate: &[u8]) -> bool
    ensures { result ≡ needs_zero missing_counts gate.now }
{
    match gate {
        [] => missing_counts,
        [byte, ..] => *byte == 1,
    }
}

/// Closes the gate at an offset of the file where it is 1, and where it is not in the file, if that counts.
pub fn clear_gate<V: Volume>(volume: &mut V, at: u64, missing_counts: bool) -> Result<(), Failed>
    requires { at < 2 ^ 40 }
    ensures ok { V.tells_contents → (log : List ℕ) → LogIs V.seen V.moment V.left_at volume.old log
        → OnOk result (LogIs V.seen V.moment V.left_at volume.new (closed missing_counts at log)) }
    ensures any_moment { V.tells_contents → (log : List ℕ) → LogIs V.seen V.moment V.left_at volume.old log
        → LogGoes V.moment V.left_at (λ from to. ClosingLeaves missing_counts at log to) volume.old volume.new }
    ensures faults { CountsFault result (V.faults volume.old) (V.faults volume.new) }
    ensures identity { V.identity volume.new ≡ V.identity volume.old }
{
    let mut gate = [0; 1];
    match volume.read(File::Log, at, &mut gate) {
        Ok(count) => {
            if needs_zero_by(missing_counts, &gate[..count]) {
                close_gate(volume, at)
            } else {
                Ok(())
            }
        }
        Err(fault) => Err(fault),
    }
}

/// Bars a generation, and then closes a gate, each where it is needed.
pub fn make_ready<V: Volume>(
    volume: &mut V,
    generation: u64,
    at: u64,
    missing_counts: bool,
) -> Result<(), Failed>
    requires generation { 1 ≤ generation }
    requires at { at < 2 ^ 40 }
    ensures ok { V.tells_contents → (log : List ℕ) → LogIs V.seen V.moment V.left_at volume.old log
        → OnOk result (LogIs V.seen V.moment V.left_at volume.new (closed missing_counts at (barred generation log))) }
    ensures any_moment { V.tells_contents → (log : List ℕ) → LogIs V.seen V.moment V.left_at volume.old log
        → LogGoes V.moment V.left_at (λ from to. ReadyingLeaves generation missing_counts at log to) volume.old volume.new }
    ensures faults { CountsFault result (V.faults volume.old) (V.faults volume.new) }
    ensures identity { V.identity volume.new ≡ V.identity volume.old }
{
    match bar(volume, generation) {
        Ok(()) => clear_gate(volume, at, missing_counts),
        Err(fault) => Err(fault),
    }
}
