//! The rule of the word, and what its steps do and tell.
//!
//! A step is told values of a call by a type parameter: the call picks the ghost members of `Brand`.

use crate::views::View;
use atomic_table::{Join, Play, Split, TableRule};
use jet_base::Session;
use std::marker::{Brand, PhantomData};

/// What the word counts, and how all views fit the one log.
pub struct LogRule;

impl TableRule<(), View, Vec<Session>> for LogRule {
    ghost use Rattle.std.specs.Prelude.{map};
    ghost use Rattle.history_word.specs.Parts.{lone_view, first_part};
    ghost use Rattle.history_word.specs.Rule.{IsKept};

    ghost holds = { λ sessions s. IsKept s.words s.views };

    ghost first = { λ sessions. lone_view (first_part (map (λ s. s.0) sessions.items)) };
}

/// The entries that an append is told of.
pub trait NewEntries {
    ghost use Rattle.std.specs.Prelude.{List};
    ghost use Rattle.index_derive.specs.declared.log.Entry.{Entry};

    ghost entries: { List Entry };
}

impl NewEntries for Brand {
    ghost use Rattle.std.specs.Prelude.{[]};

    ghost entries = { [] };
}

/// The session that a split is told of.
pub trait OneSession {
    ghost use Rattle.std.specs.Prelude.{ℕ};

    ghost session: { ℕ };
}

impl OneSession for Brand {
    ghost session = { 0 };
}

/// The position and the count of faults that a load is told of.
pub trait Marks {
    ghost use Rattle.std.specs.Prelude.{ℕ};

    ghost to: { ℕ };

    ghost count: { ℕ };
}

impl Marks for Brand {
    ghost to = { 0 };

    ghost count = { 0 };
}

/// The log grows, and the guest sees it.
pub struct Append<J: NewEntries> {
    of: PhantomData<J>,
}

impl<J: NewEntries> Play<(), View> for Append<J> {
    ghost use Rattle.history_word.specs.Moves.{Appends};

    ghost then = { Appends J.entries };
}

/// The guest sees the log.
pub struct Look;

impl Play<(), View> for Look {
    ghost use Rattle.history_word.specs.Moves.{Looks};

    ghost then = { Looks };
}

/// What the guest knows is taken over, and the guest is spent.
pub struct Learn;

impl Play<(), View> for Learn {
    ghost use Rattle.history_word.specs.Moves.{Learns};

    ghost then = { Learns };
}

/// The given position and the faults seen rise.
pub struct Give<J: Marks> {
    of: PhantomData<J>,
}

impl<J: Marks> Play<(), View> for Give<J> {
    ghost use Rattle.history_word.specs.Moves.{Gives};

    ghost then = { Gives J.to J.count };
}

/// The trimmed position rises, and the guest sees the log.
pub struct Trim<J: Marks> {
    of: PhantomData<J>,
}

impl<J: Marks> Play<(), View> for Trim<J> {
    ghost use Rattle.history_word.specs.Moves.{Trims};

    ghost then = { Trims J.to };
}

/// The part of another seat comes in as the guest.
pub struct AsGuest;

impl Join<View> for AsGuest {
    ghost use Rattle.history_word.specs.Parts.{lone_view, blank_part};

    ghost both = { λ v w. record { mine = v.mine; guest = w.mine } };

    ghost spent = { lone_view blank_part };
}

/// The guest goes into a seat of its own.
pub struct GuestLeaves;

impl Split<View> for GuestLeaves {
    ghost use Rattle.history_word.specs.Parts.{lone_view};

    ghost left = { λ v. lone_view v.mine };

    ghost right = { λ v. lone_view v.guest };
}

/// The whole part goes into a seat of its own.
pub struct WholeLeaves;

impl Split<View> for WholeLeaves {
    ghost use Rattle.history_word.specs.Parts.{lone_view, blank_part};

    ghost left = { λ v. lone_view blank_part };

    ghost right = { λ v. lone_view v.mine };
}

/// The right of a session goes into a seat of its own, with the log.
pub struct RightLeaves<J: OneSession> {
    of: PhantomData<J>,
}

impl<J: OneSession> Split<View> for RightLeaves<J> {
    ghost use Rattle.history_word.specs.Parts.{lone_view, without_right, with_one_right};

    ghost left = { λ v. lone_view (without_right J.session v.mine) };

    ghost right = { λ v. lone_view (with_one_right J.session v.mine) };
}

/// The store's right goes into a seat of its own, with the log.
pub struct StoreLeaves;

impl Split<View> for StoreLeaves {
    ghost use Rattle.history_word.specs.Parts.{lone_view, without_store, store_part};

    ghost left = { λ v. lone_view (without_store v.mine) };

    ghost right = { λ v. lone_view (store_part v.mine) };
}

/// A note goes into a seat of its own, and all stays.
pub struct NoteLeaves;

impl Split<View> for NoteLeaves {
    ghost use Rattle.history_word.specs.Parts.{lone_view, note_of};

    ghost left = { λ v. v };

    ghost right = { λ v. lone_view (note_of v.mine) };
}
