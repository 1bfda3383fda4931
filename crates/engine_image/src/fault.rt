//! What refuses an image.

ghost use Rattle.std.specs.Prelude.{◌≡◌, Option, Some, option_copied, IfOk};
ghost use Rattle.image_contents.specs.FoundEntries.{finding_in, name_of_rule};
ghost use Rattle.image_findings.specs.Images.{Finding as Found};
ghost use Rattle.image_findings.specs.Images.Finding.{Row};
ghost use Rattle.image_live.specs.FoundKeys.{finding_in as duplicate_in};
ghost use Rattle.image_opening.specs.OpenedCatalogs.{IsFirstFinding};
ghost use Rattle.engine_image.specs.FoundFaults.{Refuses, finding_told};

use image_contents::{DifferingEntry, TableVariants, ValueFault};
use image_live::DuplicateKey;
use image_opening::OpenFault;
use index_derive::IndexRule;
use jet_base::{Name, Octets, OutOfMemory};
use jet_catalog::TableDef;
use std::alloc::Global;
use thiserror::Error;

/// What is found first of an image that is not consistent. Tables and indexes are told by their names.
#[derive(Debug, Drop)]
pub enum Finding {
    /// The page of this number is in use and in no tree, or in two places.
    Pages(u32),
    /// The tree below a root page, the first number, is none at a page, the second one.
    Tree(u32, u32),
    /// The nodes of the catalog's tree are not those of a sound catalog.
    Catalog,
    /// The row under this bookmark of a table, or its node, is not sound, or the node is missing.
    Row {
        table: Name,
        bookmark: Octets,
    },
    /// The live part has not its form, or is not sound.
    Live,
    /// This entry of an index, its key with the bookmark behind it, is stored and not wanted, or else wanted and not stored.
    Index {
        table: Name,
        index: Name,
        key: Octets,
        is_stored: bool,
    },
    /// Two records have this key of a unique index.
    Unique {
        table: Name,
        index: Name,
        key: Octets,
    },
    /// A long value is not whole, or counts other references than there are.
    Long(ValueFault),
}

/// Why no engine was made of an image.
#[derive(Debug, Drop, Error)]
pub enum ImageFault {
    /// The image is not consistent: this is found first.
    #[error("the image is not consistent")]
    NotSound(Finding),
    /// There was no memory. It tells nothing of the image.
    #[error("out of memory")]
    OutOfMemory,
}

/// A fault of the opening, as one of the image.
pub(crate) fn fault_of_opening(fault: OpenFault) -> ImageFault
    ensures { (first : Option Found) → IsFirstFinding first fault → Refuses first result }
{
    match fault {
        OpenFault::Pages(page) => ImageFault::NotSound(Finding::Pages(page)),
        OpenFault::Tree(root, page) => ImageFault::NotSound(Finding::Tree(root, page)),
        OpenFault::Catalog => ImageFault::NotSound(Finding::Catalog),
        OpenFault::OutOfMemory => ImageFault::OutOfMemory,
    }
}

/// A finding, or that there was no memory for it.
fn fault_of(made: Result<Finding, OutOfMemory>) -> ImageFault
    ensures { (first : Found) → IfOk made (λ finding. finding_told finding ≡ first) → Refuses (Some first) result }
{
    match made {
        Ok(finding) => ImageFault::NotSound(finding),
        Err(_) => ImageFault::OutOfMemory,
    }
}

/// The name of an index that has this rule, none where there is no such index.
fn name_of(alloc: Global, rule: Option<&IndexRule>) -> Result<Name, OutOfMemory>
    ensures { IfOk result (λ name. name ≡ name_of_rule (option_copied rule.entry)) }
{
    match rule {
        Some(rule) => rule.name.copy(),
        None => Name::from_slice(alloc, &[]),
    }
}

/// The row under a bookmark of a table.
fn row_finding(alloc: Global, table: &TableDef, bookmark: &[u8]) -> Result<Finding, OutOfMemory>
    ensures { IfOk result (λ made. finding_told made ≡ Row table.now.name bookmark.now) }
{
    let name = table.name().copy()?;
    let bookmark = Octets::from_slice(alloc, bookmark)?;
    Ok(Finding::Row {
        table: name,
        bookmark,
    })
}

/// An entry of an index of a table.
fn entry_finding(
    alloc: Global,
    variants: &TableVariants<'_>,
    entry: DifferingEntry,
) -> Result<Finding, OutOfMemory>
    ensures { IfOk result (λ made. finding_told made ≡ finding_in variants.now.table.now entry) }
{
    let name = variants.table.name().copy()?;
    let index = name_of(alloc, variants.rule_of(entry.index))?;
    let key = Octets::new(entry.key)?;
    Ok(Finding::Index {
        table: name,
        index,
        key,
        is_stored: entry.is_stored,
    })
}

/// A key of a unique index of a table.
fn key_finding(
    alloc: Global,
    variants: &TableVariants<'_>,
    duplicate: DuplicateKey,
) -> Result<Finding, OutOfMemory>
    ensures { IfOk result (λ made. finding_told made ≡ duplicate_in variants.now.table.now duplicate) }
{
    let name = variants.table.name().copy()?;
    let index = name_of(alloc, variants.rule_of(duplicate.index))?;
    let key = Octets::new(duplicate.key)?;
    Ok(Finding::Unique {
        table: name,
        index,
        key,
    })
}

/// That a row of a table, or its node, is not sound.
pub(crate) fn fault_of_row(alloc: Global, table: &TableDef, bookmark: &[u8]) -> ImageFault
    ensures { Refuses (Some (Row table.now.name bookmark.now)) result }
{
    fault_of(row_finding(alloc, table, bookmark))
}

/// That an entry is stored and not wanted, or wanted and not stored.
pub(crate) fn fault_of_entry(
    alloc: Global,
    variants: &TableVariants<'_>,
    entry: DifferingEntry,
) -> ImageFault
    ensures { Refuses (Some (finding_in variants.now.table.now entry)) result }
{
    fault_of(entry_finding(alloc, variants, entry))
}

/// That two records have a key of a unique index.
pub(crate) fn fault_of_key(
    alloc: Global,
    variants: &TableVariants<'_>,
    duplicate: DuplicateKey,
) -> ImageFault
    ensures { Refuses (Some (duplicate_in variants.now.table.now duplicate)) result }
{
    fault_of(key_finding(alloc, variants, duplicate))
}
