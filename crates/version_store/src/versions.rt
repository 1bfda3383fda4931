//! The held changes, and the calls on them.

ghost use Rattle.std.specs.Prelude.{◌≡◌, ℕ, ◌≤◌, ◌<◌, ◌↔◌, ◌==◌, true, false, Option, Some, None, [], ◌∷◌, ◌++◌, length, map, take, drop, find, nat_le, slice_get, option_copied, option_map, unwrap_or, IfSome, IsErrOf, OnOk, OnErr};
ghost use Rattle.version_store.specs.declared.fault.VersionFault.TheVariants as fault;
ghost use Rattle.version_store.specs.Answers.{change_at, told_change};
ghost use Rattle.version_store.specs.Items.{state_of};
ghost use Rattle.version_store.specs.HeldChanges.{HeldChange, is_concurrent, is_kept, is_record, is_standing, is_standing_rewrite, new_change, has_conflict, has_room, span as the_span, seen_row, shown, hides, conflicts, last_place, is_open_at, newest_undone, released_change, committed_change, with_status};
ghost use Rattle.version_store.specs.Sums.{unseen_sum};

use crate::calls::{By, ChangeKind, Held, Reader, Undone, Variant};
use crate::chains::Chains;
use crate::ends::{
    commit_all, end_of, highest_before, make_room, newest_of, newest_with, newest_without,
    release_all, set_newest,
};
use crate::fault::VersionFault;
use crate::hash::hash_of;
use crate::item::{Item, Status, cost_of, row_parts, what};
use crate::records::{newest_hashed, newest_standing, newest_touching};
use column_set::{Bookmark, Change};
use jet_base::{ColumnId, OutOfMemory, Session, TableId};
use std::alloc::Global;
use std::collections::VecDeque;
use std::marker::Model;
use version_bucket::Buckets;

/// The changes of the past that are still held, oldest first, each with the row before it. One stands for the whole engine.
///
/// Finding the changes of a record walks those of its slot; there are as many slots as held changes, or more. Reading takes no memory.
#[derive(Drop)]
pub struct Versions {
    items: VecDeque<Item>,
    // The row before each item, empty where there was none.
    rows: Buckets,
    // The hashes of the items' records.
    chains: Chains,
    // What all changes that were ever pushed have cost.
    total: u64,
    // By the session's label the number of its newest open change: changes are numbered from 1, and 0 is none.
    newest: Vec<u64>,
}

impl Model for Versions {
    ghost use Rattle.std.specs.Prelude.{List};
    ghost use Rattle.version_store.specs.HeldChanges.{HeldChange};

    ghost Value = { List HeldChange };

    ghost use Rattle.version_store.specs.Kept.{held, IsKept};

    ghost view = { held };

    ghost invariant = { IsKept };
}

impl Versions {
    /// No change is held. It takes no memory.
    pub fn new(alloc: Global) -> Versions
        ensures { result ≡ [] }
    {
        Versions {
            items: VecDeque::new(alloc),
            rows: Buckets::new(alloc),
            chains: Chains::new(alloc),
            total: 0,
            newest: Vec::new(alloc),
        }
    }

    /// How many changes are held.
    pub fn len(&self) -> usize
        ensures { result ≡ length self.now }
    {
        self.items.len()
    }

    /// Whether no change is held.
    pub fn is_empty(&self) -> bool
        ensures { result ≡ (length self.now == 0) }
    {
        self.len() == 0
    }

    /// Whether the span of the version store stays within its limit with this change: it goes from the oldest kept change to
    /// the newest, where a change is kept that is open or was committed after the oldest open transaction began. The row
    /// before has at most 4,096 bytes. It looks at the changes before the oldest kept one, which cleaning takes away.
    pub fn fits(&self, by: By, change: &Change, before: Option<&[u8]>) -> bool
        requires { length (unwrap_or (option_copied before) []) ≤ 4096 }
        ensures { result ≡ has_room by change.now (option_copied before.entry) self.now }
    {
        let cost = cost_of(change, before);
        cost <= by.limit && self.is_span_within(by.oldest, by.limit - cost)
    }

    // Whether the costs from the oldest kept change to the newest are at most so much, which all changes ever pushed may be.
    fn is_span_within(&self, oldest: Option<u64>, most: u64) -> bool
        ensures { result ≡ nat_le (the_span oldest self.now) most }
    {
        if self.total <= most {
            true
        } else {
            self.span(oldest) <= most
        }
    }

    // The costs from the oldest kept change to the newest.
    fn span(&self, oldest: Option<u64>) -> u64
        ensures { result ≡ the_span oldest self.now }
    {
        let mut at = 0;
        while at < self.items.len() {
            let item = &self.items[at];
            if item.is_kept(oldest) {
                return self.total - item.spent;
            }
            at += 1;
        }
        0
    }

    /// Holds a change behind the others, with a copy of the row before it, which has at most 4,096 bytes. It is open. A change
    /// that does not fit is refused, as `fits` says, and the held changes stay where it is refused or memory fails.
    pub fn push(
        &mut self,
        by: By,
        change: &Change,
        before: Option<&[u8]>,
    ) -> Result<(), VersionFault>
        requires { length (unwrap_or (option_copied before) []) ≤ 4096 }
        ensures over { IsErrOf result fault.OverSpan ↔ (has_room by change.now (option_copied before.entry) self.old ≡ false) }
        ensures ok { OnOk result (self.new ≡ self.old ++ new_change by change.now (option_copied before.entry) ∷ []) }
        ensures err { OnErr result (self.new ≡ self.old) }
    {
        if !self.fits(by, change, before) {
            return Err(VersionFault::OverSpan);
        }
        match self.hold(by, change, before, Status::Uncommitted) {
            Ok(()) => Ok(()),
            Err(_) => Err(VersionFault::OutOfMemory),
        }
    }

    /// Holds a change of this status behind the others, with a copy of the row before it, which has at most 4,096 bytes,
    /// whatever the span becomes. Held changes are read back by it, the oldest first. They stay where memory fails. What all
    /// changes have cost ends before 2^64, which no run reaches: a change past it is refused as for want of memory.
    pub fn hold(
        &mut self,
        by: By,
        change: &Change,
        before: Option<&[u8]>,
        status: Status,
    ) -> Result<(), OutOfMemory>
        requires { length (unwrap_or (option_copied before) []) ≤ 4096 }
        ensures ok { OnOk result (self.new ≡ self.old ++ with_status (state_of status) (new_change by change.now (option_copied before.entry)) ∷ []) }
        ensures err { OnErr result (self.new ≡ self.old) }
    {
        let cost = cost_of(change, before);
        if cost > u64::MAX - self.total {
            return Err(OutOfMemory);
        }
        let (had_row, row) = row_parts(before);
        let bookmark = change.bookmark().copy()?;
        let hash = hash_of(change.table(), bookmark.as_bytes());
        let own_before = newest_of(&self.newest, by.session);
        let end = end_of(own_before, self.rows.first());
        let highest = highest_before(&self.items, end).max(by.level);
        let item = Item {
            number: by.number,
            session: by.session,
            level: by.level,
            kind: what(change),
            table: change.table(),
            bookmark,
            had_row,
            status,
            spent: self.total,
            own_before,
            highest,
        };
        self.items.reserve(1)?;
        make_room(&mut self.newest, by.session)?;
        self.chains.push(hash)?;
        match self.rows.push(row) {
            Ok(_) => {}
            Err(error) => {
                self.chains.pop_back();
                return Err(error);
            }
        }
        self.items.push_back_reserved(item);
        self.total += cost;
        let number = self.rows.first() + self.items.len() as u64;
        let newest = newest_with(status, own_before, number);
        set_newest(&mut self.newest, by.session, newest);
        Ok(())
    }

    /// Whether a write conflict stands against the change: a change of another session that is open, or was committed after the
    /// reader's begin, touches the same record, unless both are sums.
    pub fn conflict(&self, reader: Reader, change: &Change) -> bool
        ensures { result ≡ has_conflict reader change.now self.now }
    {
        let bookmark = change.bookmark().as_bytes();
        let mut end = newest_hashed(&self.chains, change.table(), bookmark);
        while end > 0 {
            if self.items[end - 1].conflicts(reader, change) {
                return true;
            }
            end = self.chains.before(end - 1);
        }
        false
    }

    /// What the reader sees of a record as far as puts and drops go: the row before the oldest of them that it does not see,
    /// which is open in another session or was committed after its begin.
    pub fn variant(&self, table: TableId, bookmark: &[u8], reader: Reader) -> Variant<'_>
        ensures { shown result ≡ seen_row table.0 bookmark.now reader self.now }
    {
        match self.oldest_hiding(table, bookmark, reader) {
            Some(place) => match self.before_at(place) {
                Some(row) => Variant::Before(row),
                None => Variant::Absent,
            },
            None => Variant::Current,
        }
    }

    /// What of a column's sum the reader does not see: the wrapping sum of the amounts on the column of the record that are
    /// open in other sessions or were committed after its begin, of those that stand before the oldest put or drop that it does
    /// not see. The row of [`Versions::variant`] has them in its sum, and the sum without them is the reader's. It takes no
    /// memory.
    pub fn unseen_sum(
        &self,
        table: TableId,
        bookmark: &[u8],
        column: ColumnId,
        reader: Reader,
    ) -> u32
        ensures { result ≡ unseen_sum table.0 bookmark.now column.0 reader self.now }
    {
        let mut sum = 0;
        let mut end = newest_hashed(&self.chains, table, bookmark);
        while end > 0 {
            let place = end - 1;
            sum = self.items[place].unseen_with(table, bookmark, column, reader, sum);
            end = self.chains.before(place);
        }
        sum
    }

    // The place of the oldest put or drop of the record that the reader does not see.
    fn oldest_hiding(&self, table: TableId, bookmark: &[u8], reader: Reader) -> Option<usize>
        ensures found { find (hides table.0 bookmark.now reader) self.now ≡ change_at self.now result }
        ensures within { IfSome result (λ place. place < length self.now) }
    {
        let mut oldest = None;
        let mut end = newest_hashed(&self.chains, table, bookmark);
        while end > 0 {
            let place = end - 1;
            let hides = self.items[place].hides(table, bookmark, reader);
            oldest = hides.then_some(place).or(oldest);
            end = self.chains.before(place);
        }
        oldest
    }

    /// All that is held of the change at this place, in place. It takes no memory.
    pub fn change_at(&self, place: usize) -> Held<'_>
        requires { place < length self.now }
        ensures { slice_get self.now place ≡ Some (told_change result) }
    {
        let before = self.before_at(place);
        let item = &self.items[place];
        Held {
            number: item.number,
            session: item.session,
            level: item.level,
            kind: item.kind,
            table: item.table,
            bookmark: item.bookmark.as_bytes(),
            before,
            status: item.status,
        }
    }

    /// The row before the change at this place, in place.
    pub fn before_at(&self, place: usize) -> Option<&[u8]>
        requires { place < length self.now }
        ensures { slice_get (map (λ h. h.before) self.now) place ≡ Some (option_copied result) }
    {
        if self.items[place].had_row {
            Some(self.rows.get(self.rows.first() + place as u64))
        } else {
            None
        }
    }

    /// The bookmark of the record of the change at this place.
    pub fn bookmark_at(&self, place: usize) -> &[u8]
        requires { place < length self.now }
        ensures { slice_get (map (λ h. h.bookmark) self.now) place ≡ Some result.now }
    {
        self.items[place].bookmark.as_bytes()
    }

    /// The number of the entry that made the change at this place.
    pub fn number_at(&self, place: usize) -> u64
        requires { place < length self.now }
        ensures { slice_get (map (λ h. h.number) self.now) place ≡ Some result }
    {
        self.items[place].number
    }

    /// What the change at this place does to its record.
    pub fn kind_at(&self, place: usize) -> ChangeKind
        requires { place < length self.now }
        ensures { slice_get (map (λ h. h.kind) self.now) place ≡ Some result }
    {
        self.items[place].kind
    }

    /// Whether the change at this place is kept: it is open, or was committed after the oldest open transaction began.
    pub fn is_kept_at(&self, place: usize, oldest: Option<u64>) -> bool
        requires { place < length self.now }
        ensures { slice_get (map (is_kept oldest) self.now) place ≡ Some result }
    {
        self.items[place].is_kept(oldest)
    }

    /// Whether the change at this place is a put or a drop that is not undone.
    pub fn is_standing_at(&self, place: usize) -> bool
        requires { place < length self.now }
        ensures { slice_get (map is_standing self.now) place ≡ Some result }
    {
        self.items[place].is_standing()
    }

    /// Whether another session made the change at this place, and it is open or was committed after the reader's begin.
    pub fn is_concurrent_at(&self, place: usize, reader: Reader) -> bool
        requires { place < length self.now }
        ensures { slice_get (map (is_concurrent reader) self.now) place ≡ Some result }
    {
        self.items[place].is_concurrent(reader)
    }

    /// The place of the newest change of the record, of whatever kind. Each of the others is `older_change` of the one behind
    /// it.
    pub fn newest_change(&self, table: TableId, bookmark: &[u8]) -> Option<usize>
        ensures place { result ≡ last_place (is_record table.0 bookmark.now) self.now }
        ensures within { IfSome result (λ place. place < length self.now) }
    {
        let from = newest_hashed(&self.chains, table, bookmark);
        newest_touching(&self.items, &self.chains, from, table, bookmark)
    }

    /// The place of the newest change of the record of the change at this place, among the changes before it.
    pub fn older_change(&self, place: usize) -> Option<usize>
        requires { place < length self.now }
        ensures place { (h : HeldChange) → slice_get self.now place ≡ Some h → result ≡ last_place (is_record h.table h.bookmark) (take place self.now) }
        ensures within { IfSome result (λ older. older < place) }
    {
        let from = self.chains.before(place);
        let item = &self.items[place];
        newest_touching(
            &self.items,
            &self.chains,
            from,
            item.table,
            item.bookmark.as_bytes(),
        )
    }

    /// The place of the newest put or drop of the record that is not undone. Each of the others is `older_rewrite` of the one
    /// behind it.
    pub fn newest_rewrite(&self, table: TableId, bookmark: &[u8]) -> Option<usize>
        ensures place { result ≡ last_place (is_standing_rewrite table.0 bookmark.now) self.now }
        ensures within { IfSome result (λ place. place < length self.now) }
    {
        let from = newest_hashed(&self.chains, table, bookmark);
        newest_standing(&self.items, &self.chains, from, table, bookmark)
    }

    /// The place of the newest put or drop that is not undone, of the record of the change at this place, among the changes
    /// before it.
    pub fn older_rewrite(&self, place: usize) -> Option<usize>
        requires { place < length self.now }
        ensures place { (h : HeldChange) → slice_get self.now place ≡ Some h → result ≡ last_place (is_standing_rewrite h.table h.bookmark) (take place self.now) }
        ensures within { IfSome result (λ older. older < place) }
    {
        let from = self.chains.before(place);
        let item = &self.items[place];
        newest_standing(
            &self.items,
            &self.chains,
            from,
            item.table,
            item.bookmark.as_bytes(),
        )
    }

    /// The newest open change of the session at the level becomes undone. None where there is none.
    pub fn undo_level(&mut self, session: Session, level: u8) -> Option<Undone>
        ensures changes { self.new ≡ newest_undone session.0 level self.old }
        ensures place { option_map (λ undone. undone.place) result ≡ last_place (is_open_at session.0 level) self.old }
        ensures table { option_map (λ undone. undone.table.0) result ≡ option_map (λ h. h.table) (change_at self.old (last_place (is_open_at session.0 level) self.old)) }
    {
        let place = self.newest_open_at(session, level)?;
        let newest = newest_of(&self.newest, session);
        let first = self.rows.first();
        let item = &mut self.items[place];
        item.status = Status::Undone;
        let table = item.table;
        let next = newest_without(newest, first, place, item.own_before);
        set_newest(&mut self.newest, session, next);
        Some(Undone { table, place })
    }

    // The place of the newest open change of the session at the level.
    fn newest_open_at(&self, session: Session, level: u8) -> Option<usize>
        ensures place { result ≡ last_place (is_open_at session.0 level) self.now }
        ensures within { IfSome result (λ place. place < length self.now) }
    {
        let first = self.rows.first();
        let mut end = end_of(newest_of(&self.newest, session), first);
        while end > 0 {
            let item = &self.items[end - 1];
            if item.is_open_at(session, level) {
                return Some(end - 1);
            }
            if item.highest < level {
                return None;
            }
            end = end_of(item.own_before, first);
        }
        None
    }

    /// The session's open changes at the level, which is at least 2, go to the level below.
    pub fn release(&mut self, session: Session, level: u8)
        requires { 2 ≤ level }
        ensures { self.new ≡ map (released_change session.0 level) self.old }
    {
        let first = self.rows.first();
        let newest = newest_of(&self.newest, session);
        release_all(&mut self.items, first, newest, session, level);
    }

    /// The session's open changes are committed, by the entry of this number.
    pub fn commit(&mut self, session: Session, number: u64)
        ensures { self.new ≡ map (committed_change session.0 number) self.old }
    {
        let first = self.rows.first();
        let newest = newest_of(&self.newest, session);
        commit_all(&mut self.items, first, newest, session, number);
        set_newest(&mut self.newest, session, 0);
    }

    /// Gives up the oldest change.
    pub fn pop_oldest(&mut self)
        requires { 0 < length self.old }
        ensures { self.new ≡ drop 1 self.old }
    {
        self.items.pop_front();
        self.rows.pop_front();
        self.chains.pop_front();
    }

    /// The table of the oldest change.
    pub fn oldest_table(&self) -> Option<TableId>
        ensures { option_map (λ table. table.0) result ≡ option_map (λ h. h.table) (slice_get self.now 0) }
    {
        match self.items.front() {
            Some(item) => Some(item.table),
            None => None,
        }
    }
}
