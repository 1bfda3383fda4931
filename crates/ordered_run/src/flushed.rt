//! What comes of a flush and of an image.

ghost use Rattle.std.specs.Prelude.{◌≡◌};
ghost use Rattle.ordered_run.specs.Flushing.{found_no_room, nothing_flushed};

/// How a run goes on once an image was written, or none was due.
#[derive(Clone, Copy, Debug, PartialEq, Eq)]
pub enum After {
    /// It goes on.
    Goes,
    /// The volume met a fault. Its store is down, and takes no more.
    Fault,
    /// There was no memory for an image, of which nothing was written.
    Memory,
}

/// Whether all bytes of a log so far are kept.
#[derive(Clone, Copy, Debug, PartialEq, Eq)]
pub enum Flush {
    /// Every crash leaves them, or an image in their place.
    Kept,
    /// The volume met a fault before.
    Failed,
    /// The volume had no room for them, and for an image in their place there was no memory.
    NoRoom,
}

impl Flush {
    /// Whether the line that it is flushed for is not answered.
    pub(crate) fn found_no_room(self) -> bool
        ensures { result ≡ found_no_room self }
    {
        match self {
            Flush::Kept => false,
            Flush::Failed => false,
            Flush::NoRoom => true,
        }
    }
}

/// What comes of a flush. An image may follow one that keeps all bytes, and fail: they are kept then, too.
#[derive(Clone, Copy, Debug, PartialEq, Eq)]
pub struct Flushed {
    pub flush: Flush,
    pub after: After,
}

/// Nothing was flushed, and the run goes on.
pub(crate) fn not_flushed() -> Flushed
    ensures { result ≡ nothing_flushed }
{
    Flushed {
        flush: Flush::Kept,
        after: After::Goes,
    }
}
