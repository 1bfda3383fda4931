//! The values that are set.

ghost use Rattle.std.specs.Prelude.{◌≡◌, IsTrue, IfOk, length, replicate};
ghost use Rattle.jet_base.specs.Given.{as_bit, as_stored, given_bytes, given_fits, given_is_null, given_length};
ghost use Rattle.record_edit.specs.NewValues.{given_of, given_of_bytes};
ghost use Rattle.std.specs.Option.{option_copied};

use crate::{largest_value, number_fits, stored_number, width_fits};
use jet_base::{ColType, Given, Octets, OutOfMemory};
use std::alloc::Global;

/// A value that is set, as it is written.
#[derive(Clone, Copy)]
pub enum NewValue<'a> {
    /// None.
    Null,
    /// A number.
    Number(i64),
    /// The stored bytes.
    Bytes(&'a [u8]),
    /// So many bytes of the one byte.
    Fill(u32, u8),
}

impl<'a> NewValue<'a> {
    /// The value of a written one.
    pub fn from_given(value: &'a Given) -> NewValue<'a>
        ensures { given_of result ≡ value.now }
    {
        match value {
            Given::Null => NewValue::Null,
            Given::Number(number) => NewValue::Number(*number),
            Given::Bytes(octets) => NewValue::Bytes(octets.as_bytes()),
            Given::Fill(count, byte) => NewValue::Fill(*count, *byte),
        }
    }

    /// The value of these bytes, or NULL.
    pub fn from_bytes(value: Option<&'a [u8]>) -> NewValue<'a>
        ensures { given_of result ≡ given_of_bytes (option_copied value.entry) }
    {
        match value {
            None => NewValue::Null,
            Some(bytes) => NewValue::Bytes(bytes),
        }
    }

    /// Whether it is NULL.
    pub fn is_null(self) -> bool
        ensures { result ≡ given_is_null (given_of self.entry) }
    {
        match self {
            NewValue::Null => true,
            NewValue::Number(_) | NewValue::Bytes(_) | NewValue::Fill(_, _) => false,
        }
    }

    /// How many bytes are written.
    pub fn length(self) -> usize
        ensures { result ≡ given_length (given_of self.entry) }
    {
        match self {
            NewValue::Null | NewValue::Number(_) => 0,
            NewValue::Bytes(bytes) => bytes.len(),
            NewValue::Fill(count, _) => count as usize,
        }
    }

    /// Whether it has the form that the type asks for.
    pub fn fits(self, kind: ColType) -> bool
        ensures { result ≡ given_fits kind (given_of self.entry) }
    {
        match self {
            NewValue::Null => true,
            NewValue::Number(number) => number_fits(kind, number),
            NewValue::Bytes(bytes) => width_fits(kind, bytes.len()),
            NewValue::Fill(count, _) => width_fits(kind, count as usize),
        }
    }

    /// How many bytes it stores in a column of the type.
    pub fn stored_length(self, kind: ColType) -> usize
        ensures { result ≡ length (given_bytes kind (given_of self.entry)) }
    {
        match self {
            NewValue::Number(_) => largest_value(kind),
            NewValue::Null | NewValue::Bytes(_) | NewValue::Fill(_, _) => self.length(),
        }
    }

    /// The bytes that it stores in a column of the type.
    #[inline(always)]
    pub fn stored(self, alloc: Global, kind: ColType) -> Result<Octets, OutOfMemory>
        requires { IsTrue (given_fits kind (given_of self)) }
        ensures { IfOk result (λ made. made ≡ given_bytes kind (given_of self.entry)) }
    {
        match self {
            NewValue::Null => Ok(Octets::empty(alloc)),
            NewValue::Number(number) => {
                Octets::from_slice(alloc, stored_number(kind, number).as_slice())
            }
            NewValue::Bytes(bytes) => stored_bytes(alloc, kind, bytes),
            NewValue::Fill(count, byte) => stored_fill(alloc, kind, count, byte),
        }
    }
}

// A byte as a `Bit` stores it: 00 stays, and any other is 01.
fn as_bit(byte: u8) -> u8
    ensures { result ≡ as_bit byte }
{
    if byte == 0 { 0 } else { 1 }
}

// Bytes as a column of the type stores them.
fn stored_bytes(alloc: Global, kind: ColType, bytes: &[u8]) -> Result<Octets, OutOfMemory>
    ensures { IfOk result (λ made. made ≡ as_stored kind bytes.now) }
{
    match kind {
        ColType::Bit => stored_bits(alloc, bytes),
        _ => Octets::from_slice(alloc, bytes),
    }
}

// Bytes as a column of type `Bit` stores them. Apart, since few columns have it.
#[inline(never)]
fn stored_bits(alloc: Global, bytes: &[u8]) -> Result<Octets, OutOfMemory>
    ensures { IfOk result (λ made. made ≡ as_stored ColType.Bit bytes.now) }
{
    let bits = bytes.iter().map(|byte| as_bit(*byte)).collect(alloc)?;
    Octets::new(bits)
}

// The same of a repeated byte, as a column of any type stores it.
#[inline(never)]
fn stored_fill(alloc: Global, kind: ColType, count: u32, byte: u8) -> Result<Octets, OutOfMemory>
    ensures { IfOk result (λ made. made ≡ as_stored kind (replicate count byte)) }
{
    let stored = match kind {
        ColType::Bit => as_bit(byte),
        _ => byte,
    };
    Octets::new(Vec::from_elem(alloc, stored, count as usize)?)
}
