//! The least key of a table's unique indexes that two records have.

ghost use Rattle.std.specs.Prelude.{◌≡◌, Some, option_map, IfOk};
ghost use Rattle.database_state.specs.Table.{schema_of};
ghost use Rattle.image_contents.specs.LegalRules.{IsLegalRule};
ghost use Rattle.image_contents.specs.ReadVariants.{AreReadableVariants, contents_of};
ghost use Rattle.image_findings.specs.Findings.{engine_of_parts, history_of};
ghost use Rattle.image_findings.specs.KeyFindings.{key_finding};
ghost use Rattle.image_live.specs.FoundKeys.{finding_in};
ghost use Rattle.image_live.specs.KeptRows.{HasSoundChanges, finding_by};
ghost use Rattle.image_live.specs.KeySpans.{spans_of};
ghost use Rattle.image_live.specs.SpanOrder.{AreInOrder};
ghost use Rattle.index_derive.specs.Entries.{is_unique};
ghost use Rattle.index_derive.specs.Schemas.{rule_with_id};
ghost use Rattle.live_part.specs.LiveBytes.{standing, without_undone};

use crate::keys::derived::derived_spans;
use crate::keys::shared::first_shared;
use crate::keys::spans::{KeySpan, in_order};
use btree_inplace::nodes_of_a_tree_rise;
use image_contents::TableVariants;
use index_derive::IndexRule;
use jet_base::{IndexId, OutOfMemory};
use std::alloc::Global;
use version_cleanup::Sessions;

/// A key of a unique index that is not one record's alone: before all held changes two records have it, or a change brings it to a
/// record while another has it, or had it before a change that the bringing one is not apart from.
#[derive(Drop)]
pub struct DuplicateKey {
    pub index: IndexId,
    pub key: Vec<u8>,
}

impl DuplicateKey {
    /// The key that was found in an index.
    fn new(alloc: Global, index: IndexId, found: &[u8]) -> Result<DuplicateKey, OutOfMemory>
        ensures { IfOk result (λ made. (made.index ≡ index) × (made.key.items ≡ found.now)) }
    {
        let mut key = Vec::new(alloc);
        match key.extend_from_slice(found) {
            Ok(()) => Ok(DuplicateKey { index, key }),
            Err(_) => Err(OutOfMemory),
        }
    }
}

/// The least key of a table's unique indexes, in the first index by number that has one, that is not one record's alone. It takes time
/// in proportion to the keys of all variants, but for sorting those of one index, and memory for those of one index at a time.
#[tactic(none)]
pub fn duplicate_key(
    alloc: Global,
    sessions: &Sessions,
    variants: &TableVariants<'_>,
) -> Result<Option<DuplicateKey>, OutOfMemory>
    requires readable { AreReadableVariants variants.now }
    requires changes { HasSoundChanges sessions.now variants.now }
    ensures { IfOk result (λ found. (kept : HasSoundChanges sessions.now variants.now) → option_map (finding_in kept.contents.table) found ≡ key_finding (history_of (engine_of_parts 0 kept.number 0 kept.tables (without_undone kept.live))) (standing kept.live.held) kept.contents) }
{
    let mut rest = variants.opened.indexes.as_slice();
    while let Some((index, others)) = rest.split_first() {
        match duplicate_in(alloc, sessions, variants, index.index) {
            Ok(None) => rest = others,
            Ok(Some(found)) => return Ok(Some(found)),
            Err(fault) => return Err(fault),
        }
    }
    Ok(None)
}

/// The least such key of an index.
#[tactic(none)]
fn duplicate_in(
    alloc: Global,
    sessions: &Sessions,
    variants: &TableVariants<'_>,
    index: IndexId,
) -> Result<Option<DuplicateKey>, OutOfMemory>
    requires readable { AreReadableVariants variants.now }
    requires changes { HasSoundChanges sessions.now variants.now }
    ensures { IfOk result (λ found. (kept : HasSoundChanges sessions.now variants.now) → option_map (finding_in kept.contents.table) found ≡ finding_by kept (rule_with_id (schema_of variants.now.table.now) index.0)) }
{
    match variants.rule_of(index) {
        Some(rule) => duplicate_by(alloc, sessions, variants, index, rule),
        None => Ok(None),
    }
}

/// Whether no two records may have a key of an index.
fn is_unique(rule: &IndexRule) -> bool
    ensures { result ≡ is_unique rule.now }
{
    rule.flags.primary || rule.flags.unique
}

/// The least such key of an index that has this rule, if it is unique.
#[tactic(none)]
fn duplicate_by(
    alloc: Global,
    sessions: &Sessions,
    variants: &TableVariants<'_>,
    index: IndexId,
    rule: &IndexRule,
) -> Result<Option<DuplicateKey>, OutOfMemory>
    requires readable { AreReadableVariants variants.now }
    requires changes { HasSoundChanges sessions.now variants.now }
    requires legal { IsLegalRule (schema_of variants.now.table.now) rule.now }
    requires rule { rule_with_id (schema_of variants.now.table.now) index.0 ≡ Some rule.now }
    ensures { IfOk result (λ found. (kept : HasSoundChanges sessions.now variants.now) → option_map (finding_in kept.contents.table) found ≡ finding_by kept (Some rule.now)) }
{
    if !is_unique(rule) {
        return Ok(None);
    }
    let spans = match spans_in_order(alloc, variants, rule) {
        Ok(spans) => spans,
        Err(fault) => return Err(fault),
    };
    nodes_of_a_tree_rise();
    match first_shared(sessions, variants.versions, spans.as_slice()) {
        Some(key) => match DuplicateKey::new(alloc, index, key) {
            Ok(found) => Ok(Some(found)),
            Err(fault) => Err(fault),
        },
        None => Ok(None),
    }
}

/// The keys of all variants of a table's records in an index, in their order, each with how long its record has it.
fn spans_in_order<'a>(
    alloc: Global,
    variants: &TableVariants<'a>,
    rule: &IndexRule,
) -> Result<Vec<KeySpan<'a>>, OutOfMemory>
    requires readable { AreReadableVariants variants.now }
    requires legal { IsLegalRule (schema_of variants.now.table.now) rule.now }
    ensures { IfOk result (λ spans. AreInOrder (spans_of rule.now (contents_of variants.now) variants.now.versions.now) spans.items) }
{
    match derived_spans(alloc, variants, rule) {
        Ok(spans) => Ok(in_order(spans)),
        Err(fault) => Err(fault),
    }
}
