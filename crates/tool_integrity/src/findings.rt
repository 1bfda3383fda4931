//! The lines of findings.

ghost use Rattle.std.specs.Prelude.{◌≡◌, ◌++◌, IfOk, OnOk, if◌then◌else◌};
ghost use Rattle.engine_image.specs.FoundFaults.{finding_told};
ghost use Rattle.image_findings.specs.FindingTexts.{finding_text};
ghost use Rattle.image_findings.specs.Images.Finding.{Pages, Tree, Row, Index, Unique, Long};
ghost use Rattle.tool_integrity.specs.IntegrityLines.{clean_line, finding_line, index_text};

use crate::lines::{append, append_counts, append_key, append_name, append_number};
use engine_image::Finding;
use image_contents::ValueFault;
use jet_base::{Name, Octets, OutOfMemory};
use std::alloc::Global;

/// The line of an image of which nothing is found: `integrity clean number N tables K`, with the number of log entries that led to the
/// database, and how many tables it has.
pub fn clean_line(alloc: Global, number: u64, tables: u64) -> Result<Vec<u8>, OutOfMemory>
    ensures { IfOk result (λ line. line.items ≡ clean_line number tables) }
{
    let mut line = Vec::new(alloc);
    append_clean(&mut line, number, tables)?;
    Ok(line)
}

/// The line of what is found first of an image: `integrity` and the kind of the finding, with its pages in decimal digits, its table and
/// index by their names, and its key in hexadecimal digits. Of an entry of an index, and of a long value, it tells how many there are
/// and how many there should be, as `have A want B`.
pub fn finding_line(alloc: Global, finding: &Finding) -> Result<Vec<u8>, OutOfMemory>
    ensures { IfOk result (λ line. line.items ≡ finding_line (finding_told finding.now)) }
{
    let mut line = Vec::new(alloc);
    append_finding(&mut line, finding)?;
    line.push(b'\n')?;
    Ok(line)
}

/// Puts the line of an image of which nothing is found at the end.
fn append_clean(text: &mut Vec<u8>, number: u64, tables: u64) -> Result<(), OutOfMemory>
    ensures { OnOk result (text.new.items ≡ text.old.items ++ clean_line number tables) }
{
    append(text, b"integrity clean number ")?;
    append_number(text, number)?;
    append(text, b" tables ")?;
    append_number(text, tables)?;
    append(text, b"\n")
}

/// Puts the text of a finding at the end.
fn append_finding(text: &mut Vec<u8>, finding: &Finding) -> Result<(), OutOfMemory>
    ensures { OnOk result (text.new.items ≡ text.old.items ++ finding_text (finding_told finding.now)) }
{
    match finding {
        Finding::Pages(page) => append_page(text, *page),
        Finding::Tree(root, page) => append_tree(text, *root, *page),
        Finding::Catalog => append(text, b"integrity catalog"),
        Finding::Row { table, bookmark } => append_row(text, table, bookmark),
        Finding::Live => append(text, b"integrity live"),
        Finding::Index {
            table,
            index,
            key,
            is_stored,
        } => append_entry(text, table, index, key, *is_stored),
        Finding::Unique { table, index, key } => append_unique(text, table, index, key),
        Finding::Long(value) => append_value(text, value),
    }
}

/// A page that is in use and in no tree, or in two places.
fn append_page(text: &mut Vec<u8>, page: u32) -> Result<(), OutOfMemory>
    ensures { OnOk result (text.new.items ≡ text.old.items ++ finding_text (Pages page)) }
{
    append(text, b"integrity pages ")?;
    append_number(text, page as u64)
}

/// A page at which the tree below a root is none.
fn append_tree(text: &mut Vec<u8>, root: u32, page: u32) -> Result<(), OutOfMemory>
    ensures { OnOk result (text.new.items ≡ text.old.items ++ finding_text (Tree root page)) }
{
    append(text, b"integrity tree ")?;
    append_number(text, root as u64)?;
    append(text, b" page ")?;
    append_number(text, page as u64)
}

/// A row that is not sound.
fn append_row(text: &mut Vec<u8>, table: &Name, bookmark: &Octets) -> Result<(), OutOfMemory>
    ensures { OnOk result (text.new.items ≡ text.old.items ++ finding_text (Row table.now bookmark.now)) }
{
    append(text, b"integrity row ")?;
    append_name(text, table)?;
    append(text, b" ")?;
    append_key(text, bookmark)
}

/// A table and an index of it.
fn append_index(text: &mut Vec<u8>, table: &Name, index: &Name) -> Result<(), OutOfMemory>
    ensures { OnOk result (text.new.items ≡ text.old.items ++ index_text table.now index.now) }
{
    append_name(text, table)?;
    append(text, b" ")?;
    append_name(text, index)?;
    append(text, b" ")
}

/// How many entries there are, and how many there should be.
fn counts_of_entry(is_stored: bool) -> (u64, u64)
    ensures have { result.0 ≡ (if is_stored then 1 else 0) }
    ensures want { result.1 ≡ (if is_stored then 0 else 1) }
{
    if is_stored { (1, 0) } else { (0, 1) }
}

/// An entry of an index that is stored and not wanted, or wanted and not stored.
fn append_entry(
    text: &mut Vec<u8>,
    table: &Name,
    index: &Name,
    key: &Octets,
    is_stored: bool,
) -> Result<(), OutOfMemory>
    ensures { OnOk result (text.new.items ≡ text.old.items ++ finding_text (Index table.now index.now key.now (if is_stored then 1 else 0) (if is_stored then 0 else 1))) }
{
    let (have, want) = counts_of_entry(is_stored);
    append(text, b"integrity index ")?;
    append_index(text, table, index)?;
    append_key(text, key)?;
    append_counts(text, have, want)
}

/// A key that two records have.
fn append_unique(
    text: &mut Vec<u8>,
    table: &Name,
    index: &Name,
    key: &Octets,
) -> Result<(), OutOfMemory>
    ensures { OnOk result (text.new.items ≡ text.old.items ++ finding_text (Unique table.now index.now key.now)) }
{
    append(text, b"integrity unique ")?;
    append_index(text, table, index)?;
    append_key(text, key)
}

/// A long value that is not whole, or whose count is another.
fn append_value(text: &mut Vec<u8>, value: &ValueFault) -> Result<(), OutOfMemory>
    ensures { OnOk result (text.new.items ≡ text.old.items ++ finding_text (Long value.now.entry value.now.place value.now.have value.now.wanted)) }
{
    append(text, b"integrity long ")?;
    append_number(text, value.entry)?;
    append(text, b" ")?;
    append_number(text, value.place as u64)?;
    append_counts(text, value.have, value.wanted)
}
