//! What an edit does to the values of its column.

ghost use Rattle.std.specs.Prelude.{◌≡◌, ◌==◌, ◌+◌, ◌-◌, ◌^◌, ◌<◌, ℕ, List, length, min, remove, None, Some, if◌then◌else◌};
ghost use Rattle.column_set.specs.RecordValues.{size_of_values};
ghost use Rattle.record_edit.specs.SetColumn.{values_after};
ghost use Rattle.record_edit.specs.Effects.{values_by, IsEffectOn};

use column_set::row_format::VALUE_HEAD_BYTES;
use column_set::{size_of_length, size_of_values};
use jet_base::Octets;

/// What an edit does to the values of its column. Places are counted from 0.
#[derive(Clone, Copy)]
pub enum Effect {
    /// They stay.
    Nothing,
    /// All go.
    Clear,
    /// The new value takes the place of all.
    Only,
    /// The new value takes the place of one.
    Set(usize),
    /// The new value goes behind the last.
    Push,
    /// One goes, and the later ones close up.
    Remove(usize),
}

impl Effect {
    /// The effect of a new value, or of NULL, at a sequence of a column that has so many values.
    pub fn of(multi: bool, sequence: u32, is_null: bool, count: usize) -> Effect
        ensures fits { IsEffectOn count result }
        ensures values { (value : List ℕ) (values : List (List ℕ)) → length values ≡ count → values_by result value values ≡ values_after multi sequence (if is_null then None else Some value) values }
    {
        if !multi {
            return if is_null { Effect::Clear } else { Effect::Only };
        }
        let sequence = sequence as usize;
        let is_place = 1 <= sequence && sequence <= count;
        match (is_place, is_null) {
            (true, true) => Effect::Remove(sequence - 1),
            (true, false) => Effect::Set(sequence - 1),
            (false, true) => Effect::Nothing,
            (false, false) => Effect::Push,
        }
    }

    /// Whether the column has no value afterwards, where it had so many and none is new.
    pub fn leaves_none(self, count: usize) -> bool
        requires { IsEffectOn count self }
        ensures { (value : List ℕ) (values : List (List ℕ)) → length values ≡ count → (length (values_by self value values) == 0) ≡ result }
    {
        match self {
            Effect::Nothing => count == 0,
            Effect::Clear => true,
            Effect::Remove(_) => count == 1,
            Effect::Only | Effect::Set(_) | Effect::Push => false,
        }
    }

    /// The room of the column's values afterwards, where the new one has so many bytes. Past the largest number it is
    /// that number.
    pub fn size_after(self, added: usize, values: &[Octets]) -> usize
        requires { IsEffectOn (length values.now) self }
        ensures { (value : List ℕ) → length value ≡ added → result ≡ min (size_of_values (values_by self value values.now)) (2 ^ 64 - 1) }
    {
        let room = VALUE_HEAD_BYTES + size_of_length(added);
        match self {
            Effect::Nothing => size_of_values(values),
            Effect::Clear => 0,
            Effect::Only => room,
            Effect::Set(place) => size_without(values, place).saturating_add(room),
            Effect::Push => size_of_values(values).saturating_add(room),
            Effect::Remove(place) => size_without(values, place),
        }
    }
}

// The room of the values but for one. Past the largest number it is that number.
fn size_without(values: &[Octets], place: usize) -> usize
    requires { place < length values.now }
    ensures { result ≡ min (size_of_values (remove values.now place)) (2 ^ 64 - 1) }
{
    size_of_values(&values[..place]).saturating_add(size_of_values(&values[place + 1..]))
}
