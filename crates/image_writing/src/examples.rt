//! A worked example of the room that undone changes take. The function does nothing: its contract is the example.

ghost use Rattle.std.specs.Prelude.{◌≡◌};
ghost use Rattle.database_state.specs.VersionStore.{version_span};
ghost use Rattle.laws_images.specs.Settled.{settled};
ghost use Rattle.image_writing.specs.LighterStates.{undone_span};
ghost use Rattle.image_writing.specs.RoomSamples.{sample};

/// An undone change behind the oldest needed one takes room, 64 bytes for an insert, and one before it none. An image keeps neither.
pub fn an_undone_change_takes_room()
    ensures span { version_span sample ≡ 128 }
    ensures undone { undone_span sample ≡ 64 }
    ensures settled { version_span (settled sample) ≡ 64 }
{}
