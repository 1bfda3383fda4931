//! The index that a call asks for: names become numbers, and it has the least free number and the next order of making.

ghost use Rattle.std.specs.Prelude.{◌≡◌, ◌<◌, ◌^◌, ℕ, List, length, map, IfOk};
ghost use Rattle.database_state.specs.SchemaChanges.{next_index_id, greatest_order};
ghost use Rattle.database_state.specs.SchemaSteps.{asked_index, segment_of, condition_of};

use crate::table::TableDef;
use index_derive::{Condition, IndexFlags, IndexRule, NamedCondition, NamedSegment, Segment};
use jet_base::{IndexId, Items, Name, OutOfMemory};

// What a call says of a new index, but for its name.
#[derive(Clone, Copy, Debug)]
pub(crate) struct AskedIndex<'a> {
    pub flags: IndexFlags,
    pub key_most: u16,
    pub segments: &'a [NamedSegment],
    pub conditions: &'a [NamedCondition],
}

impl TableDef {
    // The index that a call asks for.
    pub(crate) fn asked_index(
        &self,
        name: &Name,
        asked: &AskedIndex,
    ) -> Result<IndexRule, OutOfMemory>
        requires count { length self.now.indexes < 64 }
        requires order { greatest_order self.now.indexes < 4294967295 }
        ensures { IfOk result (λ made. made ≡ asked_index self.now name.now asked.now.flags asked.now.key_most asked.now.segments.now asked.now.conditions.now) }
    {
        Ok(IndexRule {
            id: self.next_index_id(),
            name: name.copy()?,
            order: greatest_order(self.indexes()) + 1,
            segments: self.numbered_segments(asked.segments)?,
            flags: asked.flags,
            conditions: self.numbered_conditions(asked.conditions)?,
            key_most: asked.key_most,
        })
    }

    // The least number, from 1, that no index has. Each turn leaves one that is taken.
    fn next_index_id(&self) -> IndexId
        requires { length self.now.indexes < 65535 }
        ensures { result.0 ≡ next_index_id self.now.indexes }
    {
        let indexes = self.indexes();
        let mut id = 1;
        for _index in indexes {
            if self.has_index(IndexId(id)) {
                id += 1;
            }
        }
        IndexId(id)
    }

    // The key columns by their numbers.
    fn numbered_segments(&self, asked: &[NamedSegment]) -> Result<Items<Segment>, OutOfMemory>
        ensures { IfOk result (λ made. made ≡ map (segment_of self.now.columns) asked.now) }
    {
        let mut made = Items::empty(*self.indexes.allocator());
        for segment in asked {
            made.push(Segment {
                column: self.column_id_named(&segment.column),
                descending: segment.descending,
            })?;
        }
        Ok(made)
    }

    // The conditions by the numbers of their columns.
    fn numbered_conditions(&self, asked: &[NamedCondition]) -> Result<Items<Condition>, OutOfMemory>
        ensures { IfOk result (λ made. made ≡ map (condition_of self.now.columns) asked.now) }
    {
        let mut made = Items::empty(*self.indexes.allocator());
        for condition in asked {
            made.push(Condition {
                column: self.column_id_named(&condition.column),
                must_be_null: condition.must_be_null,
            })?;
        }
        Ok(made)
    }
}

// The greatest order of making, 0 where there is no index.
pub(crate) fn greatest_order(rules: &[IndexRule]) -> u32
    ensures { result ≡ greatest_order rules.now }
{
    rules
        .iter()
        .fold(0, |greatest, made| greatest.max(made.order))
}
