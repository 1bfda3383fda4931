//! Whether the sessions of an image are sound.

ghost use Rattle.std.specs.Prelude.{◌≡◌, List, map, is_some};
ghost use Rattle.std.specs.List.{list_all};
ghost use Rattle.database_state.specs.Table.{table_with_id};
ghost use Rattle.image_findings.specs.LiveFindings.{are_sound_sessions, do_not_fall, have_room, is_sound_session, is_sound_transaction};
ghost use Rattle.image_findings.specs.TableContents.{TableContents};
ghost use Rattle.image_live.specs.TablesRead.{AreTablesOf};
ghost use Rattle.laws_engine.specs.EngineState.{ends_of};

use crate::tables::ImageTables;
use jet_base::TableId;
use jet_catalog::Catalog;
use version_cleanup::{Live, Sessions, Transaction};

/// The greatest number that an entry may have which ends what was begun.
const LAST_END: u64 = (1 << 35) + 1;

impl<'a> ImageTables<'a> {
    /// Whether the sessions are sound: the open tables of each do not fall and are in the catalog, its transaction began with an entry
    /// that was made, and what they are still to end was begun and can be ended.
    pub fn are_sound_sessions(&self, sessions: &Sessions) -> bool
        ensures { (tables : List TableContents) → AreTablesOf self.now tables → result ≡ are_sound_sessions self.now.number tables sessions.now }
    {
        for place in 0..sessions.len() {
            if !self.is_sound_session(sessions.at(place)) {
                return false;
            }
        }
        have_room(self.number, sessions)
    }

    /// Whether a session is sound.
    fn is_sound_session(&self, session: &Live) -> bool
        ensures { (tables : List TableContents) → AreTablesOf self.now tables → result ≡ is_sound_session self.now.number tables session.now }
    {
        let opened = session.open_tables();
        if !do_not_fall(opened) {
            return false;
        }
        if !are_there(self.catalog, opened) {
            return false;
        }
        is_sound_transaction(self.number, session.transaction())
    }
}

/// Whether the tables are in the catalog.
fn are_there(catalog: &Catalog, ids: &[TableId]) -> bool
    ensures { result ≡ list_all (λ id. is_some (table_with_id catalog.now.tables id.0)) ids.now }
{
    ids.iter().all(|id| catalog.by_id(*id).is_some())
}

/// Whether no table has a lesser number than the one before it.
fn do_not_fall(ids: &[TableId]) -> bool
    ensures { result ≡ do_not_fall (map (λ id. id.0) ids.now) }
{
    let mut last = 0;
    for id in ids {
        if id.0 < last {
            return false;
        }
        last = id.0;
    }
    true
}

/// Whether a transaction began with an entry that was made.
fn is_sound_transaction(number: u64, transaction: Option<Transaction>) -> bool
    ensures { result ≡ is_sound_transaction number transaction }
{
    match transaction {
        Some(transaction) => 1 <= transaction.begin && transaction.begin <= number,
        None => true,
    }
}

/// How many entries are to end what a session has begun: itself, its open tables and its levels.
fn ends_of(session: &Live) -> u64
    ensures { result ≡ ends_of session.now }
{
    let levels = match session.transaction() {
        Some(transaction) => transaction.levels as u64,
        None => 0,
    };
    1 + session.open_tables().len() as u64 + levels
}

/// Whether what the sessions are still to end was begun, and can be ended.
fn have_room(number: u64, sessions: &Sessions) -> bool
    ensures { result ≡ have_room number sessions.now }
{
    if number > LAST_END {
        return false;
    }
    let mut left = number.min(LAST_END - number);
    for place in 0..sessions.len() {
        match left.checked_sub(ends_of(sessions.at(place))) {
            Some(rest) => left = rest,
            None => return false,
        }
    }
    true
}
