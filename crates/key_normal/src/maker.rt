//! Making a key, one column after the other.

ghost use Rattle.std.specs.Prelude.{◌≡◌, ◌≤◌, ℕ, List, [], ◌∷◌, ◌++◌, map, cond, reverse, option_copied, false, length};
ghost use Rattle.key_normal.specs.KeyBytes.{segment_bytes, value_bytes, in_direction, folded_byte, in_groups, with_top_bit_turned};
ghost use Rattle.key_normal.specs.KeySoFar.{key_so_far, with_byte, with_bytes};
ghost use Rattle.key_normal.specs.Spelling.{spelled};

use crate::key::{Key, LONGEST_KEY};
use arrayvec::ArrayVec;
use jet_base::ColType;
use std::marker::Model;

/// The first byte of a segment whose column is NULL, where NULL comes first.
const NULL_LOW: u8 = 0x00;
/// The first byte of a segment whose column is NULL, where NULL comes last.
const NULL_HIGH: u8 = 0xc0;
/// The first byte of a value without a byte.
const EMPTY: u8 = 0x40;
/// The first byte of any other value.
const VALUE: u8 = 0x7f;
/// What follows a group of eight bytes behind which another group comes.
const MORE_FOLLOWS: u8 = 9;

/// One column of a key.
#[derive(Clone, Copy, Debug)]
pub struct Part<'a> {
    /// The column's type.
    pub kind: ColType,
    /// The stored bytes of its value, or NULL.
    pub value: Option<&'a [u8]>,
    /// Greater values come first.
    pub descending: bool,
    /// NULL comes after all values of an ascending column.
    pub nulls_high: bool,
}

/// A key in the making. It takes no memory.
#[derive(Debug, Drop)]
pub struct KeyMaker {
    bytes: ArrayVec<u8, LONGEST_KEY>,
    most: usize,
    lost: bool,
}

impl Model for KeyMaker {
    ghost use Rattle.std.specs.Prelude.{◌≤◌, length};
    ghost use Rattle.key_normal.specs.KeySoFar.{KeySoFar};

    ghost Value = { KeySoFar };

    ghost view = { λ a. record { most = a.most; bytes = a.bytes.items; lost = a.lost } };

    ghost invariant = { λ a. (length a.bytes.items ≤ a.most) × (a.most ≤ 255) };
}

impl KeyMaker {
    /// A key without a byte, which will keep the first `most` bytes that it is given.
    pub fn new(most: usize) -> KeyMaker
        requires { most ≤ 255 }
        ensures { result ≡ key_so_far most [] }
    {
        KeyMaker {
            bytes: ArrayVec::new(),
            most,
            lost: false,
        }
    }

    /// Puts the column's segment behind the bytes that were given before.
    #[tactic(auto, using(crate::proofs::Making::with_bytes_key_so_far))]
    pub fn add(&mut self, part: Part)
        ensures { (given : List ℕ) → self.old ≡ key_so_far self.old.most given → self.new ≡ key_so_far self.old.most (given ++ segment_bytes part.entry.kind (option_copied part.entry.value) part.entry.descending part.entry.nulls_high) }
    {
        match part.value {
            None => {
                let first = if part.nulls_high { NULL_HIGH } else { NULL_LOW };
                self.push(first, part.descending);
            }
            Some(value) => self.add_value(part.kind, value, part.descending),
        }
    }

    /// The key, and whether it lost bytes at its limit.
    pub fn done(&self) -> (Key, bool)
        ensures key { result.0 ≡ self.now.bytes }
        ensures lost { result.1 ≡ self.now.lost }
    {
        (Key::from_slice(self.bytes.as_slice()), self.lost)
    }

    /// The key alone, of a maker that is done with. Its bytes are not copied out.
    pub fn finish(self) -> Key
        ensures { result ≡ self.bytes }
    {
        Key { bytes: self.bytes }
    }

    #[tactic(auto, using(crate::proofs::Making::segment_of_value, crate::proofs::Making::unchanged))]
    fn add_value(&mut self, kind: ColType, value: &[u8], descending: bool)
        ensures { self.new ≡ with_bytes self.old (segment_bytes kind (Some value.now) descending false) }
    {
        if value.is_empty() {
            self.push(EMPTY, descending);
            return;
        }
        self.push(VALUE, descending);
        match kind {
            ColType::Bit | ColType::UnsignedByte | ColType::Guid => {
                self.push_each(value, false, descending)
            }
            ColType::UnsignedShort | ColType::UnsignedLong => {
                self.push_from_the_end(value, descending)
            }
            ColType::Short | ColType::Long | ColType::LongLong | ColType::Currency => {
                self.push_signed(value, descending)
            }
            ColType::Binary | ColType::LongBinary => self.push_groups(value, false, descending),
            ColType::Text | ColType::LongText => self.push_groups(value, true, descending),
        }
    }

    /// Pushes the byte as the column's direction has it.
    fn push(&mut self, byte: u8, descending: bool)
        ensures { self.new ≡ with_byte self.old (in_direction descending byte) }
    {
        if self.bytes.len() < self.most {
            self.bytes.push(if descending { 0xff - byte } else { byte });
        } else {
            self.lost = true;
        }
    }

    /// Pushes the bytes in their order, letters without their case where `folds` is set.
    fn push_each(&mut self, bytes: &[u8], folds: bool, descending: bool)
        ensures { self.new ≡ with_bytes self.old (map (in_direction descending) (map (spelled folds) bytes.now)) }
    {
        for byte in bytes {
            self.push(spelling(*byte, folds), descending);
        }
    }

    /// Pushes the bytes from the last to the first.
    fn push_from_the_end(&mut self, bytes: &[u8], descending: bool)
        ensures { self.new ≡ with_bytes self.old (map (in_direction descending) (reverse bytes.now)) }
    {
        let mut rest = bytes;
        while let Some((last, front)) = rest.split_last() {
            self.push(*last, descending);
            rest = front;
        }
    }

    /// Pushes the bytes from the last to the first, with the top bit of the number turned.
    fn push_signed(&mut self, bytes: &[u8], descending: bool)
        ensures { self.new ≡ with_bytes self.old (map (in_direction descending) (with_top_bit_turned (reverse bytes.now))) }
    {
        if let Some((top, front)) = bytes.split_last() {
            self.push(top.wrapping_add(0x80), descending);
            self.push_from_the_end(front, descending);
        }
    }

    /// Pushes the bytes in groups of eight, each followed by its count.
    #[tactic(auto, using(crate::proofs::Making::with_bytes_group))]
    fn push_groups(&mut self, bytes: &[u8], folds: bool, descending: bool)
        ensures { self.new ≡ with_bytes self.old (map (in_direction descending) (in_groups (map (spelled folds) bytes.now))) }
    {
        let mut rest = bytes;
        while rest.len() > 8 {
            let (group, more) = rest.split_at(8);
            self.push_each(group, folds, descending);
            self.push(MORE_FOLLOWS, descending);
            rest = more;
        }
        self.push_last_group(rest, folds, descending);
    }

    /// Pushes a group that is filled up with zeros, and how many bytes of it are used.
    #[tactic(auto, using(crate::proofs::Making::with_bytes_last_group))]
    fn push_last_group(&mut self, bytes: &[u8], folds: bool, descending: bool)
        requires { length bytes.now ≤ 8 }
        ensures { self.new ≡ with_bytes self.old (map (in_direction descending) (in_groups (map (spelled folds) bytes.now))) }
    {
        let (_, unused) = [0; 8].split_at(bytes.len());
        self.push_each(bytes, folds, descending);
        self.push_each(unused, false, descending);
        self.push(bytes.len() as u8, descending);
    }
}

/// The byte as a key has it: a letter from `a` to `z` as its capital, where `folds` is set.
fn spelling(byte: u8, folds: bool) -> u8
    ensures { result ≡ spelled folds byte }
{
    if folds && 0x61 <= byte && byte <= 0x7a {
        byte - 0x20
    } else {
        byte
    }
}
