//! The rows of a temporary table, put and read again: in the order of their keys, of their arrival, and up to the greatest size.

ghost use Rattle.std.specs.Prelude.{◌≡◌, ◌∷◌, ◌≤◌, [], false, length};
ghost use Rattle.jet_base.specs.declared.words.ColType.TheVariants.{Long, Text};
ghost use Rattle.temp_table.specs.Examples.{plain, rising};

use jet_base::{ColType, Way};
use std::alloc::Global;
use std::process::Abort;
use std::test::*;
use temp_table::{TempColumn, TempFault, TempTable};

/// A column of a type, by which rows are sorted or not.
fn column(kind: ColType, is_key: bool) -> TempColumn
    ensures { result ≡ record { kind = kind; is_key = is_key; descending = false } }
{
    TempColumn {
        kind,
        is_key,
        descending: false,
    }
}

/// An empty table of a number, by which its rows are sorted, and a letter.
fn numbers(rt: &impl Abort, alloc: Global, unique: bool) -> TempTable
    ensures { result.columns ≡ rising Long ∷ plain Text ∷ [] }
{
    let columns = [column(ColType::Long, true), column(ColType::Text, false)];
    let columns = columns.to_vec(alloc).expect(rt, "memory");
    TempTable::open(alloc, columns, unique).expect(rt, "memory")
}

/// Puts a number with a letter.
fn put(table: &mut TempTable, number: u32, letter: u8) -> Result<(), TempFault>
    requires { table.old.columns ≡ rising Long ∷ plain Text ∷ [] }
    ensures { table.new.columns ≡ table.old.columns }
{
    table.put(&[Some(&number.to_le_bytes()), Some(&[letter])])
}

/// The letter of the row that a move goes to, if there is one.
fn letter_at(table: &mut TempTable, way: Way) -> Option<u8>
    requires { table.old.columns ≡ rising Long ∷ plain Text ∷ [] }
    ensures { table.new.columns ≡ table.old.columns }
{
    if !table.move_to(way) {
        return None;
    }
    match table.read(1) {
        Some([letter]) => Some(*letter),
        _ => None,
    }
}

#[test]
fn rows_are_read_by_key_and_then_by_arrival(rt: HostRuntime) {
    let mut table = numbers(&rt, rt.alloc(), false);
    assert!(&rt; table.columns().len() == 2 && table.count() == 0);
    assert!(&rt; put(&mut table, 2, b'c').is_ok());
    assert!(&rt; put(&mut table, 1, b'a').is_ok());
    assert!(&rt; put(&mut table, 2, b'b').is_ok());
    assert!(&rt; table.count() == 3 && !table.is_on());
    assert!(&rt; letter_at(&mut table, Way::First) == Some(b'a'));
    assert!(&rt; letter_at(&mut table, Way::Next) == Some(b'c'));
    assert!(&rt; letter_at(&mut table, Way::Next) == Some(b'b'));
    assert!(&rt; table.is_on());
    assert!(&rt; letter_at(&mut table, Way::Next).is_none());
    assert!(&rt; letter_at(&mut table, Way::Previous) == Some(b'b'));
}

#[test]
fn a_unique_key_is_put_once(rt: HostRuntime) {
    let mut table = numbers(&rt, rt.alloc(), true);
    assert!(&rt; put(&mut table, 2, b'c').is_ok());
    assert!(&rt; put(&mut table, 2, b'b') == Err(TempFault::Double));
    assert!(&rt; put(&mut table, 3, b'b').is_ok());
    assert!(&rt; table.count() == 2);
    assert!(&rt; letter_at(&mut table, Way::First) == Some(b'c'));
    assert!(&rt; letter_at(&mut table, Way::Last) == Some(b'b'));
}

/// A text of the greatest size of a short column.
static TEXT: &[u8; 255] = &[b'a'; 255];

/// An empty table of seven texts, by the first of which its rows are sorted.
fn texts(rt: &impl Abort, alloc: Global) -> TempTable
    ensures { result.columns ≡ rising Text ∷ plain Text ∷ plain Text ∷ plain Text ∷ plain Text ∷ plain Text ∷ plain Text ∷ [] }
{
    let other = column(ColType::Text, false);
    let columns = [
        column(ColType::Text, true),
        other,
        other,
        other,
        other,
        other,
        other,
    ];
    let columns = columns.to_vec(alloc).expect(rt, "memory");
    TempTable::open(alloc, columns, false).expect(rt, "memory")
}

/// Puts a row of six texts of the greatest size and one more: 1,567 bytes beside that one's own.
fn put_texts(table: &mut TempTable, text: &[u8; 255], last: &[u8]) -> Result<(), TempFault>
    requires columns { table.old.columns ≡ rising Text ∷ plain Text ∷ plain Text ∷ plain Text ∷ plain Text ∷ plain Text ∷ plain Text ∷ [] }
    requires short { length last.now ≤ 255 }
    ensures { table.new.columns ≡ table.old.columns }
{
    let text = Some(text.as_slice());
    table.put(&[text, text, text, text, text, text, Some(last)])
}

#[test]
fn a_row_above_the_greatest_size_is_too_big(rt: HostRuntime) {
    let mut table = texts(&rt, rt.alloc());
    assert!(&rt; put_texts(&mut table, TEXT, &TEXT[..134]) == Err(TempFault::TooBig));
    assert!(&rt; table.count() == 0);
    assert!(&rt; put_texts(&mut table, TEXT, &TEXT[..133]).is_ok());
    assert!(&rt; table.count() == 1);
}
