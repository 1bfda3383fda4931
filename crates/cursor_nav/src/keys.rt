//! Keys that are made for a seek or a range.

ghost use Rattle.std.specs.Prelude.{◌≡◌, ◌≤◌, ◌<◌, ◌++◌, IsTrue, option_copied};
ghost use Rattle.jet_base.specs.Given.{given_fits, given_is_null};
ghost use Rattle.key_normal.specs.KeyBytes.{cut_key, segment_bytes};
ghost use Rattle.cursor_nav.specs.Navigation.{answer_of};
ghost use Rattle.cursor_nav.specs.MakingKeys.{begun_key, key_made, key_made_in, segment_made, key_value, has_short_keys, rule_of_cursor, segment_kind};
ghost use Rattle.cursor_nav.specs.CursorView.{made_key};

use crate::cursor::{Cursor, Moved};
use crate::parts::KeyInMaking;
use arrayvec::ArrayVec;
use column_set::{Columns, column_of_id};
use index_derive::{IndexRule, Schema, Segment};
use jet_base::{ColType, Given, Jet};
use key_normal::{Key, KeyMaker, Part};
use record_edit::{fits, stored_front};

impl Cursor {
    /// Makes the first segment of a key in the current index, or without `fresh` the next one. The index's keys have
    /// 255 bytes at most.
    ///
    /// It is refused, and nothing changes, with `NoCurrentIndex` in the hidden order; without `fresh` with
    /// `KeyNotMade` where no key is begun; with `KeyIsMade` where all segments stand; and with `InvalidBufferSize`
    /// where the value has not the form that the column's type asks for.
    #[tactic(auto, unfolding(crate::specs::MakingKeys::key_made))]
    pub fn make_key(&mut self, schema: &Schema, fresh: bool, value: &Given) -> Result<Moved, Jet>
        requires { IsTrue (has_short_keys (rule_of_cursor self.old schema.now)) }
        ensures answer { result ≡ answer_of (key_made self.old schema.now fresh value.now).jet 0 }
        ensures cursor { self.new ≡ (key_made self.old schema.now fresh value.now).cursor }
    {
        match self.rule(schema) {
            Some(rule) => self.make_segment(&schema.columns, rule, fresh, value),
            None => Err(Jet::NoCurrentIndex),
        }
    }

    /// Makes the next segment of a key of the rule, or with `fresh` the first.
    fn make_segment(
        &mut self,
        columns: &Columns,
        rule: &IndexRule,
        fresh: bool,
        value: &Given,
    ) -> Result<Moved, Jet>
        requires { rule.now.key_most ≤ 255 }
        ensures answer { result ≡ answer_of (key_made_in self.old columns.now fresh value.now (Some rule.now)).jet 0 }
        ensures cursor { self.new ≡ (key_made_in self.old columns.now fresh value.now (Some rule.now)).cursor }
    {
        if !fresh && self.key.is_none() {
            return Err(Jet::KeyNotMade);
        }
        let begun = self.begun(fresh);
        match rule.segments.as_slice().get(begun.segments) {
            Some(segment) => self.add_segment(columns, rule, begun, segment, value),
            None => Err(Jet::KeyIsMade),
        }
    }

    /// Makes the segment, behind those that stand.
    fn add_segment(
        &mut self,
        columns: &Columns,
        rule: &IndexRule,
        begun: KeyInMaking,
        segment: &Segment,
        value: &Given,
    ) -> Result<Moved, Jet>
        requires most { rule.now.key_most ≤ 255 }
        requires room { begun.segments < usize.MAX }
        ensures answer { result ≡ answer_of (segment_made self.old columns.now rule.now (made_key begun) value.now (Some segment.now)).jet 0 }
        ensures cursor { self.new ≡ (segment_made self.old columns.now rule.now (made_key begun) value.now (Some segment.now)).cursor }
    {
        let kind = kind_of(columns, segment);
        if !fits(kind, value) {
            return Err(Jet::InvalidBufferSize);
        }
        self.key = Some(KeyInMaking {
            segments: begun.segments + 1,
            bytes: extended(&begun.bytes, rule, kind, segment, value),
        });
        Ok(Moved::success())
    }

    /// The rule of the current index; None for the hidden order.
    fn rule<'a>(&self, schema: &'a Schema) -> Option<&'a IndexRule>
        ensures { option_copied result ≡ rule_of_cursor self.now schema.now }
    {
        schema.rule_with_id(self.index)
    }

    /// The segments so far, none where the key is begun anew or none is made.
    fn begun(&self, fresh: bool) -> KeyInMaking
        ensures { made_key result ≡ begun_key fresh self.now.key }
    {
        match &self.key {
            Some(key) if !fresh => KeyInMaking {
                segments: key.segments,
                bytes: key.bytes.copy(),
            },
            _ => KeyInMaking {
                segments: 0,
                bytes: Key::new(),
            },
        }
    }
}

/// The type of the segment's column.
fn kind_of(columns: &Columns, segment: &Segment) -> ColType
    ensures { result ≡ segment_kind columns.now segment.now }
{
    match column_of_id(columns.as_slice(), segment.column) {
        Some(column) => column.kind,
        None => ColType::Binary,
    }
}

/// The key so far with one more segment.
#[tactic(auto, using(crate::proofs::Cutting::take_front))]
fn extended(front: &Key, rule: &IndexRule, kind: ColType, segment: &Segment, value: &Given) -> Key
    requires most { rule.now.key_most ≤ 255 }
    requires fits { IsTrue (given_fits kind value.now) }
    ensures { result ≡ cut_key rule.now.key_most (front.now ++ segment_bytes kind (key_value kind value.now) segment.now.descending rule.now.flags.sortnullshigh) }
{
    let most = usize::from(rule.key_most);
    let stored = stored_front(kind, value);
    let mut maker = KeyMaker::new(most);
    maker.add(Part {
        kind,
        value: if is_null(value) {
            None
        } else {
            Some(stored.as_slice())
        },
        descending: segment.descending,
        nulls_high: rule.flags.sortnullshigh,
    });
    let (more, _) = maker.done();
    joined(front.as_bytes(), more.as_bytes(), most)
}

/// Whether no value is written.
fn is_null(value: &Given) -> bool
    ensures { result ≡ given_is_null value.now }
{
    matches!(value, Given::Null)
}

/// The first bytes of the two together, at most so many.
fn joined(front: &[u8], more: &[u8], most: usize) -> Key
    requires { most ≤ 255 }
    ensures { result ≡ cut_key most (front.now ++ more.now) }
{
    let (front, _) = front.split_at(most.min(front.len()));
    let (more, _) = more.split_at((most - front.len()).min(more.len()));
    let mut bytes = ArrayVec::<u8, 255>::new();
    match bytes.try_extend_from_slice(front) {
        Ok(()) => {}
        Err(_) => unreachable!(),
    }
    match bytes.try_extend_from_slice(more) {
        Ok(()) => {}
        Err(_) => unreachable!(),
    }
    Key::from_slice(bytes.as_slice())
}
