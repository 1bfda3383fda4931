//! Numbers from a seed, by which the image of a crash is picked.

ghost use Rattle.std.specs.Prelude.{◌≤◌, max};

/// How a write came to the disk.
#[derive(Clone, Copy)]
pub enum Way {
    /// Not at all.
    Lost,
    /// All of it.
    Whole,
    /// A front of it.
    Front,
    /// Bytes of it, bytes from before and other bytes.
    Mixed,
}

/// A generator of numbers (splitmix64).
#[derive(Drop)]
pub struct Dice {
    state: u64,
}

impl Dice {
    pub fn new(seed: u64) -> Dice {
        Dice { state: seed }
    }

    fn roll(&mut self) -> u64 {
        self.state = self.state.wrapping_add(0x9e37_79b9_7f4a_7c15);
        let mut mixed = self.state;
        mixed = (mixed ^ (mixed >> 30)).wrapping_mul(0xbf58_476d_1ce4_e5b9);
        mixed = (mixed ^ (mixed >> 27)).wrapping_mul(0x94d0_49bb_1331_11eb);
        mixed ^ (mixed >> 31)
    }

    /// A number from 0 to `most`.
    pub fn up_to(&mut self, most: usize) -> usize
        ensures { result ≤ most }
    {
        let roll = self.roll() as usize;
        match most.checked_add(1) {
            Some(count) => roll % count,
            None => roll,
        }
    }

    /// Each way comes as often.
    pub fn way(&mut self) -> Way {
        match self.up_to(3) {
            0 => Way::Lost,
            1 => Way::Whole,
            2 => Way::Front,
            _ => Way::Mixed,
        }
    }

    /// The size that a file of `old` bytes has after a write up to `end` that came in this way. `cut` is
    /// where its front ends.
    pub fn size(&mut self, way: Way, old: usize, end: usize, cut: usize) -> usize
        ensures no_shorter { old ≤ result }
        ensures no_longer { result ≤ max old end }
    {
        match way {
            Way::Lost => old,
            Way::Whole => old.max(end),
            Way::Front => old.max(end.min(cut)),
            Way::Mixed => old + self.up_to(end.saturating_sub(old)),
        }
    }

    /// The byte that is left where `old` stood and `new` was written.
    pub fn byte(&mut self, way: Way, in_front: bool, old: u8, new: u8) -> u8 {
        match way {
            Way::Lost => old,
            Way::Whole => new,
            Way::Front => if in_front { new } else { old },
            Way::Mixed => match self.up_to(2) {
                0 => old,
                1 => new,
                _ => (self.roll() % 256) as u8,
            },
        }
    }
}
