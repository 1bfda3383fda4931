//! Which calls of an object in memory are to fail, for tests of what stands on it.

ghost use Rattle.std.specs.Prelude.{◌≡◌, ◌+◌, ◌==◌, nat_le, false};
ghost use Rattle.std.specs.List.{list_any};
ghost use Rattle.std.specs.Option.{option_map_or};

/// The numbers of the calls that fail, counted from 1, and the call from which on every one does.
#[derive(Drop)]
pub struct Schedule {
    failing: Vec<u64>,
    stop: Option<u64>,
    called: u64,
}

impl Schedule {
    ghost use Rattle.jet_io.specs.Schedule.{fails_next, IsOneCallLater};

    /// No call has been made yet. The list may have any order.
    pub fn new(failing: Vec<u64>, stop: Option<u64>) -> Schedule
        ensures failing { result.failing.items ≡ failing.items }
        ensures stop { result.stop ≡ stop }
        ensures called { result.called ≡ 0 }
    {
        Schedule {
            failing,
            stop,
            called: 0,
        }
    }

    /// Counts one call, and answers whether it has to fail.
    pub fn next_fails(&mut self) -> bool
        ensures fails { result ≡ fails_next self.old }
        ensures later { IsOneCallLater self.old self.new }
    {
        let fails = is_listed(&self.failing, self.called) || has_come(self.stop, self.called);
        self.called = self.called.saturating_add(1);
        fails
    }
}

/// The call after these is listed. A list has no number from 2^64 on.
fn is_listed(failing: &[u64], called: u64) -> bool
    ensures { result ≡ list_any (λ n. n == called + 1) failing.now }
{
    match called.checked_add(1) {
        Some(number) => failing.contains(&number),
        None => false,
    }
}

/// The stop is at the call after these or before it.
fn has_come(stop: Option<u64>, called: u64) -> bool
    ensures { result ≡ option_map_or (λ n. nat_le n (called + 1)) stop false }
{
    match stop {
        Some(number) => number.saturating_sub(1) <= called,
        None => false,
    }
}
