//! One step of the word each, on the seats of the table.
ghost use Rattle.std.specs.Prelude.{◌≡◌, ℕ, ◌+◌, ◌<◌, ◌≤◌, ◌^◌, true, false, [], length};
ghost use mathlib.Core.Option.{none};
ghost use Rattle.atomic_table.specs.Table.{step};
ghost use Rattle.index_derive.specs.Steps.{entries_of_step};
ghost use Rattle.history_word.specs.Moves.{Appends, Gives, Learns, Looks, Trims};
ghost use Rattle.history_word.specs.Parts.{are_own, blank_part, has_right, lone_view, note_of, store_part, with_one_right, without_right, without_store};

use crate::steps::{
    Append, AsGuest, Give, GuestLeaves, Learn, Look, Marks, NewEntries, NoteLeaves, OneSession,
    RightLeaves, StoreLeaves, Trim, WholeLeaves,
};
use crate::views::View;
use crate::word::Word;
use atomic_table::Seat;
use index_derive::Step;

impl Word {
    /// The seat's whole part, in a seat of its own.
    pub(crate) fn take_out(&self, seat: &mut Seat<(), View>) -> Seat<(), View>
        requires { seat.old.table_id ≡ self.now }
        ensures seat { (seat.new.table_id ≡ seat.old.table_id) × (seat.new.me ≡ (lone_view blank_part, seat.old.me.1)) }
        ensures whole { (result.table_id ≡ seat.old.table_id) × (result.me ≡ (lone_view seat.old.me.0.mine, [])) }
    {
        self.table.shared.split_seat::<WholeLeaves>(seat)
    }

    /// The other seat's part becomes the guest of this one.
    pub(crate) fn bring_in(&self, seat: &mut Seat<(), View>, other: Seat<(), View>)
        requires tables { (seat.old.table_id ≡ self.now) × (other.table_id ≡ self.now) }
        requires free { other.me.1 ≡ [] }
        ensures table { seat.new.table_id ≡ seat.old.table_id }
        ensures guest { seat.new.me ≡ (record { mine = seat.old.me.0.mine; guest = other.me.0.mine }, seat.old.me.1) }
    {
        self.table.shared.join_seat::<AsGuest>(seat, other);
    }

    /// The guest, in a seat of its own.
    pub(crate) fn let_go(&self, seat: &mut Seat<(), View>) -> Seat<(), View>
        requires { seat.old.table_id ≡ self.now }
        ensures seat { (seat.new.table_id ≡ seat.old.table_id) × (seat.new.me ≡ (lone_view seat.old.me.0.mine, seat.old.me.1)) }
        ensures guest { (result.table_id ≡ seat.old.table_id) × (result.me ≡ (lone_view seat.old.me.0.guest, [])) }
    {
        self.table.shared.split_seat::<GuestLeaves>(seat)
    }

    /// The right of the session, in a seat of its own.
    pub(crate) fn give_right<J: OneSession>(&self, turn: &mut Seat<(), View>) -> Seat<(), View>
        requires table { turn.old.table_id ≡ self.now }
        requires turn { turn.old.me.0.mine.turn ≡ true }
        requires right { has_right J.session turn.old.me.0.mine.rights ≡ true }
        ensures turn { (turn.new.table_id ≡ turn.old.table_id) × (turn.new.me ≡ (lone_view (without_right J.session turn.old.me.0.mine), turn.old.me.1)) }
        ensures seat { (result.table_id ≡ turn.old.table_id) × (result.me ≡ (lone_view (with_one_right J.session turn.old.me.0.mine), [])) }
    {
        self.table.shared.split_seat::<RightLeaves<J>>(turn)
    }

    /// The store's right, in a seat of its own.
    pub(crate) fn give_store(&self, turn: &mut Seat<(), View>) -> Seat<(), View>
        requires table { turn.old.table_id ≡ self.now }
        requires store { turn.old.me.0.mine.store ≡ true }
        ensures turn { (turn.new.table_id ≡ turn.old.table_id) × (turn.new.me ≡ (lone_view (without_store turn.old.me.0.mine), turn.old.me.1)) }
        ensures seat { (result.table_id ≡ turn.old.table_id) × (result.me ≡ (lone_view (store_part turn.old.me.0.mine), [])) }
    {
        self.table.shared.split_seat::<StoreLeaves>(turn)
    }

    /// A note, in a seat of its own.
    pub(crate) fn note(&self, seat: &mut Seat<(), View>) -> Seat<(), View>
        requires { seat.old.table_id ≡ self.now }
        ensures seat { (seat.new.table_id ≡ seat.old.table_id) × (seat.new.me ≡ seat.old.me) }
        ensures note { (result.table_id ≡ seat.old.table_id) × (result.me ≡ (lone_view (note_of seat.old.me.0.mine), [])) }
    {
        self.table.shared.split_seat::<NoteLeaves>(seat)
    }

    /// The one step that changes the word. `made` has the entries that the step is told of.
    pub(crate) fn grow<J: NewEntries>(&self, both: &mut Seat<(), View>, made: &Step) -> u64
        requires table { both.old.table_id ≡ self.now }
        requires entries { J.entries ≡ entries_of_step (Some made.now) }
        requires turn { both.old.me.0.mine.turn ≡ true }
        requires right { are_own both.old.me.0.guest.rights (entries_of_step (Some made.now)) ≡ true }
        requires room { length both.old.me.0.mine.log < 2 ^ 62 }
        ensures { (both.new.table_id ≡ both.old.table_id) × Appends (entries_of_step (Some made.now)) (step 0 0 0 0 none) both.old.me result both.new.me }
    {
        self.table
            .shared
            .fetch_add::<Append<J>>(both, 0, made.len())
    }

    /// The length of the log, which the guest sees.
    pub(crate) fn see(&self, both: &mut Seat<(), View>) -> u64
        requires table { both.old.table_id ≡ self.now }
        requires turn { both.old.me.0.mine.turn ≡ true }
        ensures { (both.new.table_id ≡ both.old.table_id) × Looks (step 0 0 0 0 none) both.old.me result both.new.me }
    {
        self.table.shared.load::<Look>(both, 0)
    }

    /// What the guest knows is taken over.
    pub(crate) fn learn(&self, both: &mut Seat<(), View>)
        requires table { both.old.table_id ≡ self.now }
        requires turn { both.old.me.0.mine.turn ≡ false }
        ensures { (both.new.table_id ≡ both.old.table_id) × Learns (step 0 0 0 0 none) both.old.me 0 both.new.me }
    {
        self.table.shared.load::<Learn>(both, 0);
    }

    /// The given position and the faults rise to the numbers that the step is told of.
    pub(crate) fn raise<J: Marks>(&self, seat: &mut Seat<(), View>, to: u64, faults: u64)
        requires table { seat.old.table_id ≡ self.now }
        requires told { (J.to ≡ to) × (J.count ≡ faults) }
        requires store { seat.old.me.0.mine.store ≡ true }
        requires later { (seat.old.me.0.mine.given ≤ to) × (seat.old.me.0.mine.faults ≤ faults) }
        ensures { (seat.new.table_id ≡ seat.old.table_id) × Gives to faults (step 0 0 0 0 none) seat.old.me 0 seat.new.me }
    {
        self.table.shared.load::<Give<J>>(seat, 0);
    }

    /// The trimmed position rises to the number that the step is told of, and the guest sees the log.
    pub(crate) fn cut<J: Marks>(&self, both: &mut Seat<(), View>, to: u64)
        requires table { both.old.table_id ≡ self.now }
        requires told { J.to ≡ to }
        requires turn { (both.old.me.0.mine.turn ≡ true) × (both.old.me.0.guest.store ≡ true) }
        requires given { to ≤ both.old.me.0.guest.given }
        ensures { (both.new.table_id ≡ both.old.table_id) × Trims to (step 0 0 0 0 none) both.old.me 0 both.new.me }
    {
        self.table.shared.load::<Trim<J>>(both, 0);
    }
}
