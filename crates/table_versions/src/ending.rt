//! Ends of levels and transactions, undos, locks, and the oldest change that is forgotten.

ghost use Rattle.std.specs.Prelude.{◌≡◌, ◌≤◌, ◌↔◌, true, false, is_some, IsErrOf, OnErr, OnOk, Some, ◌<◌, length};
ghost use Rattle.column_set.specs.ChangedRecords.{changed_table};
ghost use Rattle.database_state.specs.Table.{table_with_id};
ghost use Rattle.version_store.specs.HeldChanges.{kind_of};
ghost use Rattle.laws_engine.specs.VersionedTables.{with_change, with_level_released, with_session_committed, with_changes_undone, with_last_undone, without_oldest};
ghost use Rattle.stored_variants.specs.StoredVersions.{has_room};
ghost use Rattle.std.specs.List.{AllByRecursion, list_any};
ghost use Rattle.laws_versions.specs.History.{EachTwo};
ghost use Rattle.laws_engine.specs.HeldRecords.{is_open_at, is_open_of};
ghost use Rattle.version_store.specs.declared.calls.ChangeKind.TheVariants as kind;
ghost use Rattle.version_store.specs.declared.fault.VersionFault.TheVariants as fault;

use crate::store::TableVersions;
use column_set::Change;
use jet_base::Session;
use laws_engine::changes_undone_one_by_one_are_undone_at_once;
use long_rows::counts_after_a_step;
use variant_trees::{forget_oldest, put_back};
use version_store::{By, VersionFault};

/// The most levels of a transaction.
const MOST_LEVELS: u8 = 7;

impl TableVersions {
    /// The session's open changes at the level, which is at least 2, go to the level below. It takes no memory.
    pub fn release(&mut self, session: Session, level: u8)
        requires { 2 ≤ level }
        ensures { self.new ≡ record self.old { store = with_level_released session.0 level self.old.store } }
    {
        self.versions.release(session, level);
    }

    /// The session's open changes are committed, by the entry of this number. It takes no memory.
    pub fn commit(&mut self, session: Session, number: u64)
        ensures { self.new ≡ record self.old { store = with_session_committed session.0 number self.old.store } }
    {
        self.versions.commit(session, number);
    }

    /// Holds a lock, behind the other changes. It is refused where it does not fit, as `fits` says. After a refusal and after
    /// want of memory all is as it was.
    pub fn hold(&mut self, by: By, change: &Change) -> Result<(), VersionFault>
        requires lock { kind_of change.now ≡ kind.Hold }
        requires named { is_some (table_with_id self.old.store.tables (changed_table change.now)) ≡ true }
        ensures over { IsErrOf result fault.OverSpan ↔ (has_room by change.now self.old.store ≡ false) }
        ensures ok { OnOk result (self.new ≡ record self.old { store = with_change by change.now self.old.store }) }
        ensures err { OnErr result (self.new ≡ self.old) }
    {
        counts_after_a_step();
        self.versions.push(by, change, None)
    }

    /// All open changes of the session are undone, the newest first: each record is again the one before it. They stand at the
    /// levels 1 to 7, which do not fall from the older to the newer. Want of memory does not stop it: it is slower then.
    pub fn undo_session(&mut self, session: Session)
        requires rise { EachTwo (λ earlier later. is_open_of session.0 earlier ≡ true → is_open_of session.0 later ≡ true → earlier.level ≤ later.level) self.old.store.held }
        requires levels { AllByRecursion (λ held. is_open_of session.0 held ≡ true → (1 ≤ held.level) × (held.level ≤ 7)) self.old.store.held }
        ensures { self.new ≡ record self.old { store = with_changes_undone (is_open_of session.0) self.old.store } }
    {
        let mut level = MOST_LEVELS;
        while level > 0 {
            self.undo_level(session, level);
            level -= 1;
        }
    }

    /// The session's open changes at the level are undone, the newest first: each record is again the one before it. Want of
    /// memory does not stop it: it is slower then.
    pub fn undo_level(&mut self, session: Session, level: u8)
        ensures { self.new ≡ record self.old { store = with_changes_undone (is_open_at session.0 level) self.old.store } }
    {
        changes_undone_one_by_one_are_undone_at_once();
        let mut more = self.undo_newest(session, level);
        while more {
            more = self.undo_newest(session, level);
        }
    }

    // The newest of the session's open changes at the level is undone. Tells whether there was one.
    fn undo_newest(&mut self, session: Session, level: u8) -> bool
        ensures store { self.new ≡ record self.old { store = with_last_undone (is_open_at session.0 level) self.old.store } }
        ensures found { result ≡ list_any (is_open_at session.0 level) self.old.store.held }
    {
        match self.versions.undo_level(session, level) {
            Some(undone) => {
                put_back(
                    self.alloc,
                    &self.catalog,
                    &mut self.trees,
                    &self.versions,
                    undone.table,
                    undone.place,
                );
                true
            }
            None => false,
        }
    }

    /// Gives up the oldest held change, with the variant that no reader needs: the row before it, the keys that no other variant
    /// has, and the node if no variant is left. Want of memory does not stop it: it is slower then.
    pub fn forget(&mut self)
        requires { 0 < length self.old.store.held }
        ensures { self.new ≡ record self.old { store = without_oldest self.old.store } }
    {
        forget_oldest(self.alloc, &self.catalog, &mut self.trees, &self.versions);
        self.versions.pop_oldest();
    }
}
