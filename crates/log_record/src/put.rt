//! Writing the fields of entries behind the bytes of a buffer that has room for them.

ghost use Rattle.std.specs.Prelude.{◌≡◌, ◌<◌, ◌≤◌, ◌+◌, ◌^◌, ◌∷◌, [], ◌++◌, length, vec_len, IfSome, Option};
ghost use Rattle.std.specs.Vec.{vec_capacity};
ghost use Rattle.std.specs.Int.{w16, w32, to_le_bytes};
ghost use Rattle.log_grammar.specs.EntryBytes.{bool_byte, bookmark_bytes, copied_bytes, name_bytes, value_bytes};
ghost use Rattle.log_record.specs.EntrySizes.{size_of_bookmark, size_of_copied, size_of_name};

use crate::append::{append, append_byte};
use column_set::Bookmark;
use jet_base::{Name, Octets};

/// Writes the number of a table.
pub fn put_table(bytes: &mut Vec<u8>, table: u32)
    requires { vec_len bytes.old + 4 ≤ vec_capacity bytes.old }
    ensures items { bytes.new.items ≡ bytes.old.items ++ to_le_bytes w32 table }
    ensures len { vec_len bytes.new ≡ vec_len bytes.old + 4 }
    ensures room { vec_capacity bytes.old ≤ vec_capacity bytes.new }
{
    append(bytes, &table.to_le_bytes());
}

/// Writes the number of a column or of an index.
pub fn put_number(bytes: &mut Vec<u8>, number: u16)
    requires { vec_len bytes.old + 2 ≤ vec_capacity bytes.old }
    ensures items { bytes.new.items ≡ bytes.old.items ++ to_le_bytes w16 number }
    ensures len { vec_len bytes.new ≡ vec_len bytes.old + 2 }
    ensures room { vec_capacity bytes.old ≤ vec_capacity bytes.new }
{
    append(bytes, &number.to_le_bytes());
}

/// Writes a bookmark, its length before it.
pub fn put_bookmark(bytes: &mut Vec<u8>, bookmark: &Bookmark)
    requires short { length bookmark.now < 2 ^ 16 }
    requires room { vec_len bytes.old + size_of_bookmark bookmark.now ≤ vec_capacity bytes.old }
    ensures items { bytes.new.items ≡ bytes.old.items ++ bookmark_bytes bookmark.now }
    ensures len { vec_len bytes.new ≡ vec_len bytes.old + size_of_bookmark bookmark.now }
    ensures room { vec_capacity bytes.old ≤ vec_capacity bytes.new }
{
    let own = bookmark.as_bytes();
    put_number(bytes, own.len() as u16);
    append(bytes, own);
}

/// Writes the bookmark of a copied record, or that there is none.
pub fn put_copied(bytes: &mut Vec<u8>, copied: &Option<Bookmark>)
    requires short { IfSome copied.now (λ bookmark. length bookmark < 2 ^ 16) }
    requires room { vec_len bytes.old + size_of_copied copied.now ≤ vec_capacity bytes.old }
    ensures items { bytes.new.items ≡ bytes.old.items ++ copied_bytes copied.now }
    ensures len { vec_len bytes.new ≡ vec_len bytes.old + size_of_copied copied.now }
    ensures room { vec_capacity bytes.old ≤ vec_capacity bytes.new }
{
    match copied {
        None => append_byte(bytes, 0),
        Some(bookmark) => {
            append_byte(bytes, 1);
            put_bookmark(bytes, bookmark);
        }
    }
}

/// Writes a name, its length before it.
pub fn put_name(bytes: &mut Vec<u8>, name: &Name)
    requires short { length name.now < 256 }
    requires room { vec_len bytes.old + size_of_name name.now ≤ vec_capacity bytes.old }
    ensures items { bytes.new.items ≡ bytes.old.items ++ name_bytes name.now }
    ensures len { vec_len bytes.new ≡ vec_len bytes.old + size_of_name name.now }
    ensures room { vec_capacity bytes.old ≤ vec_capacity bytes.new }
{
    let text = name.as_bytes();
    append_byte(bytes, text.len() as u8);
    append(bytes, text);
}

/// Writes a column's number and a flag.
pub fn put_flagged(bytes: &mut Vec<u8>, column: u16, flag: bool)
    requires { vec_len bytes.old + 3 ≤ vec_capacity bytes.old }
    ensures items { bytes.new.items ≡ bytes.old.items ++ (to_le_bytes w16 column ++ (bool_byte flag ∷ [])) }
    ensures len { vec_len bytes.new ≡ vec_len bytes.old + 3 }
    ensures room { vec_capacity bytes.old ≤ vec_capacity bytes.new }
{
    put_number(bytes, column);
    append_byte(bytes, flag as u8);
}

/// Writes a value, its column and its length before it.
pub fn put_value(bytes: &mut Vec<u8>, column: u16, value: &Octets)
    requires short { length value.now < 2 ^ 32 }
    requires room { vec_len bytes.old + (6 + length value.now) ≤ vec_capacity bytes.old }
    ensures items { bytes.new.items ≡ bytes.old.items ++ value_bytes (column, value.now) }
    ensures len { vec_len bytes.new ≡ vec_len bytes.old + (6 + length value.now) }
    ensures room { vec_capacity bytes.old ≤ vec_capacity bytes.new }
{
    let own = value.as_bytes();
    put_number(bytes, column);
    append(bytes, &(own.len() as u32).to_le_bytes());
    append(bytes, own);
}
