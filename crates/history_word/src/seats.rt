//! What a thread holds of the log.

use crate::views::View;
use std::marker::Model;

/// A beginning of the log that was seen, with at most one right. It has no bytes.
#[derive(Drop)]
pub struct Seat {
    pub(crate) seat: atomic_table::Seat<(), View>,
}

impl Model for Seat {
    ghost use Rattle.std.specs.Prelude.{◌≡◌, [], false};
    ghost use Rattle.history_word.specs.Held.{Held};
    ghost use Rattle.history_word.specs.Parts.{blank_part};

    ghost Value = { Held };

    ghost view = { λ s. record { word = s.seat.table_id; part = s.seat.me.0.mine } };

    ghost invariant = { λ s. (s.seat.me.1 ≡ []) × (s.seat.me.0.guest ≡ blank_part) × (s.seat.me.0.mine.turn ≡ false) };
}

/// The permission to append, with the whole log. There is one of each word. It has no bytes.
#[derive(Drop)]
pub struct Turn {
    pub(crate) seat: atomic_table::Seat<(), View>,
}

impl Model for Turn {
    ghost use Rattle.std.specs.Prelude.{◌≡◌, [], true};
    ghost use Rattle.history_word.specs.Held.{Held};
    ghost use Rattle.history_word.specs.Parts.{blank_part};

    ghost Value = { Held };

    ghost view = { λ s. record { word = s.seat.table_id; part = s.seat.me.0.mine } };

    ghost invariant = { λ s. (s.seat.me.1 ≡ []) × (s.seat.me.0.guest ≡ blank_part) × (s.seat.me.0.mine.turn ≡ true) };
}
