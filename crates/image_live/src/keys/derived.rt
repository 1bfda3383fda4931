//! The keys that an index derives of all variants of a table's records, and how long each record has them.

ghost use Rattle.std.specs.Prelude.{◌≡◌, ◌<◌, ◌++◌, length, map, slice_get, Some, IfOk};
ghost use Rattle.std.specs.List.{flat_map};
ghost use Rattle.btree_inplace.specs.Trees.{nodes_of};
ghost use Rattle.database_state.specs.Table.{schema_of};
ghost use Rattle.image_contents.specs.LegalRules.{IsLegalRule};
ghost use Rattle.image_contents.specs.NodesLeft.{node_in};
ghost use Rattle.image_contents.specs.ReadVariants.{AreReadableVariants, HasReadableRow, IsReadableRow, contents_of};
ghost use Rattle.image_findings.specs.TableContents.{long_values};
ghost use Rattle.image_live.specs.KeySpans.{span_of, spans_before, spans_from, spans_of, spans_of_node};
ghost use Rattle.index_derive.specs.Entries.{key_list};
ghost use Rattle.stored_variants.specs.RecordRows.{record_of};
ghost use Rattle.version_store.specs.HeldChanges.{HeldChange};

use crate::keys::spans::{KeySpan, Lifetime, push_spans};
use image_contents::{NodeRef, NodeWalk, TableVariants};
use index_derive::IndexRule;
use jet_base::OutOfMemory;
use std::alloc::Global;

/// The keys of all variants of a table's records, each with how long its record has it, in no order.
pub(crate) fn derived_spans<'a>(
    alloc: Global,
    variants: &TableVariants<'a>,
    rule: &IndexRule,
) -> Result<Vec<KeySpan<'a>>, OutOfMemory>
    requires readable { AreReadableVariants variants.now }
    requires legal { IsLegalRule (schema_of variants.now.table.now) rule.now }
    ensures { IfOk result (λ spans. spans.items ≡ spans_of rule.now (contents_of variants.now) variants.now.versions.now) }
{
    let mut spans = Vec::new(alloc);
    match push_before(alloc, variants, rule, &mut spans) {
        Ok(()) => {}
        Err(fault) => return Err(fault),
    }
    match push_newest(alloc, variants, rule, &mut spans) {
        Ok(()) => Ok(spans),
        Err(fault) => Err(fault),
    }
}

/// Puts the keys of the records before held changes at the end.
fn push_before<'a>(
    alloc: Global,
    variants: &TableVariants<'a>,
    rule: &IndexRule,
    spans: &mut Vec<KeySpan<'a>>,
) -> Result<(), OutOfMemory>
    requires readable { AreReadableVariants variants.now }
    requires legal { IsLegalRule (schema_of variants.now.table.now) rule.now }
    ensures { IfOk result (λ _. spans.new.items ≡ spans.old.items ++ spans_from rule.now (contents_of variants.now) variants.now.versions.now 0 variants.now.versions.now) }
{
    let mut place = 0;
    while place < variants.versions.len() {
        match push_change(alloc, variants, rule, spans, place) {
            Ok(()) => {}
            Err(fault) => return Err(fault),
        }
        place += 1;
    }
    Ok(())
}

/// Puts the keys of the record before the held change at a place at the end, where it is one of the table. The record is so since the
/// change before that set it.
fn push_change<'a>(
    alloc: Global,
    variants: &TableVariants<'a>,
    rule: &IndexRule,
    spans: &mut Vec<KeySpan<'a>>,
    place: usize,
) -> Result<(), OutOfMemory>
    requires readable { AreReadableVariants variants.now }
    requires legal { IsLegalRule (schema_of variants.now.table.now) rule.now }
    requires within { place < length variants.now.versions.now }
    ensures { IfOk result (λ _. (h : HeldChange) → slice_get variants.now.versions.now place ≡ Some h → spans.new.items ≡ spans.old.items ++ spans_before rule.now (contents_of variants.now) variants.now.versions.now place h) }
{
    let change = variants.versions.change_at(place);
    if change.table != variants.table.id() {
        return Ok(());
    }
    let Some(row) = change.before else {
        return Ok(());
    };
    let begins = match variants.versions.older_rewrite(place) {
        Some(older) => older + 1,
        None => 0,
    };
    let lifetime = Lifetime {
        bookmark: change.bookmark,
        begins,
        ends: place,
    };
    push_row(alloc, variants, rule, spans, lifetime, row)
}

/// Puts the keys of the newest records at the end.
fn push_newest<'a>(
    alloc: Global,
    variants: &TableVariants<'a>,
    rule: &IndexRule,
    spans: &mut Vec<KeySpan<'a>>,
) -> Result<(), OutOfMemory>
    requires readable { AreReadableVariants variants.now }
    requires legal { IsLegalRule (schema_of variants.now.table.now) rule.now }
    ensures { IfOk result (λ _. spans.new.items ≡ spans.old.items ++ flat_map (spans_of_node rule.now (contents_of variants.now) variants.now.versions.now) (nodes_of variants.now.space.now variants.now.opened.now.nodes)) }
{
    let mut walk = NodeWalk::new(variants.space, &variants.opened.nodes);
    while let Some(node) = walk.next() {
        match push_node(alloc, variants, rule, spans, node) {
            Ok(()) => {}
            Err(fault) => return Err(fault),
        }
    }
    Ok(())
}

/// Puts the keys of the newest record of a node at the end. It is so since the last change that set it.
fn push_node<'a>(
    alloc: Global,
    variants: &TableVariants<'a>,
    rule: &IndexRule,
    spans: &mut Vec<KeySpan<'a>>,
    node: NodeRef<'a>,
) -> Result<(), OutOfMemory>
    requires readable { AreReadableVariants variants.now }
    requires legal { IsLegalRule (schema_of variants.now.table.now) rule.now }
    requires row { HasReadableRow (long_values (contents_of variants.now)) (node_in node) }
    ensures { IfOk result (λ _. spans.new.items ≡ spans.old.items ++ spans_of_node rule.now (contents_of variants.now) variants.now.versions.now (node_in node.entry)) }
{
    if node.bytes.is_empty() {
        return Ok(());
    }
    let ends = variants.versions.len();
    let begins = match variants
        .versions
        .newest_rewrite(variants.table.id(), node.key)
    {
        Some(newest) => newest + 1,
        None => 0,
    };
    let lifetime = Lifetime {
        bookmark: node.key,
        begins,
        ends,
    };
    push_row(alloc, variants, rule, spans, lifetime, node.bytes)
}

/// Puts the keys of the record of a row at the end.
fn push_row<'a>(
    alloc: Global,
    variants: &TableVariants<'a>,
    rule: &IndexRule,
    spans: &mut Vec<KeySpan<'a>>,
    lifetime: Lifetime<'a>,
    row: &[u8],
) -> Result<(), OutOfMemory>
    requires readable { AreReadableVariants variants.now }
    requires legal { IsLegalRule (schema_of variants.now.table.now) rule.now }
    requires row { IsReadableRow (long_values (contents_of variants.now)) row.now }
    ensures { IfOk result (λ _. spans.new.items ≡ spans.old.items ++ map (span_of lifetime.entry.bookmark.now lifetime.entry.begins lifetime.entry.ends) (key_list rule.now (schema_of variants.now.table.now) (record_of (long_values (contents_of variants.now)) row.now))) }
{
    match variants.keys_of_row(alloc, rule, row) {
        Ok(keys) => push_spans(alloc, spans, keys.as_slice(), lifetime),
        Err(fault) => Err(fault),
    }
}
