//! States within the limits that an image is held to: lawful entries keep them so. The functions do nothing: their contracts are
//! the laws.

ghost use Rattle.std.specs.Prelude.{◌≡◌, true};
ghost use Rattle.index_derive.specs.declared.log.Entry.{Entry};
ghost use Rattle.database_state.specs.Lawful.{is_lawful};
ghost use Rattle.database_state.specs.State.{DatabaseState, empty_state};
ghost use Rattle.database_state.specs.Step.{state_after};
ghost use Rattle.laws_images.specs.SoundStates.{HasSoundCatalog, HasSoundSessions, IsLabel, IsSoundState};

/// The sessions and the past stay within their limits: 64 sessions with labels from 1 to 99, open tables that are there, and
/// transactions of seven levels at most. Each past change is of an entry of such a label, which has a number from 1.
pub fn sessions_stay_within_their_limits()
    ensures empty { HasSoundSessions empty_state }
    ensures kept { (state : DatabaseState) (made : Entry) → HasSoundSessions state → IsLabel made.session.0 → is_lawful state made ≡ true → HasSoundSessions (state_after state made) }
{}

/// The catalog stays within its limits: 64 tables and 64 indexes a table, names and numbers that differ, columns with numbers of
/// their kinds, and legal indexes.
pub fn the_catalog_stays_within_its_limits()
    ensures empty { HasSoundCatalog empty_state }
    ensures kept { (state : DatabaseState) (made : Entry) → HasSoundCatalog state → is_lawful state made ≡ true → HasSoundCatalog (state_after state made) }
{}

/// So each state that lawful entries lead to from the empty one is within the limits that an image is held to.
pub fn lawful_entries_keep_states_sound()
    ensures empty { IsSoundState empty_state }
    ensures kept { (state : DatabaseState) (made : Entry) → IsSoundState state → IsLabel made.session.0 → is_lawful state made ≡ true → IsSoundState (state_after state made) }
{}
