//! The names of the calls.

ghost use Rattle.std.specs.Prelude.{◌≡◌, IfSome, List, ℕ};
ghost use Rattle.jet_base.specs.declared.ids.CursorId.{CursorId};
ghost use Rattle.script_text.specs.Calls as calls;
ghost use Rattle.script_text.specs.CallNames.{read_by, reading, cursor_read_by};

use script_transcript::call_lines::{
    ADD_COLUMN, BEGIN_SESSION, BEGIN_TRANSACTION, CLOSE_TABLE, COMMIT_TRANSACTION, CREATE_INDEX,
    CREATE_TABLE, DELETE, DELETE_COLUMN, DELETE_INDEX, DELETE_TABLE, END_SESSION, ESCROW_UPDATE,
    GET_BOOKMARK, GET_LOCK, GOTO_BOOKMARK, INDEX_RECORD_COUNT, INTERSECT_INDEXES, MAKE_KEY, MOVE,
    OPEN_TABLE, PREPARE_UPDATE, RETRIEVE_COLUMN, RETRIEVE_KEY, ROLLBACK, SEEK, SET_COLUMN,
    SET_CURRENT_INDEX, SET_INDEX_RANGE, TEMP_CLOSE, TEMP_COUNT, TEMP_MOVE, TEMP_OPEN, TEMP_PUT,
    TEMP_READ, UPDATE,
};
use script_words::texts::is_word;

/// A call behind whose name the label of a cursor or a temporary table stands.
#[derive(Clone, Copy)]
pub enum CursorCall {
    OpenTable,
    CloseTable,
    SetCurrentIndex,
    MakeKey,
    Move,
    Seek,
    SetIndexRange,
    IndexRecordCount,
    RetrieveKey,
    GetBookmark,
    GotoBookmark,
    PrepareUpdate,
    SetColumn,
    RetrieveColumn,
    Update,
    Delete,
    GetLock,
    EscrowUpdate,
    TempOpen,
    TempPut,
    TempMove,
    TempRead,
    TempCount,
    TempClose,
    IntersectIndexes,
}

/// A call by its name.
#[derive(Clone, Copy)]
pub enum CallName {
    BeginSession,
    EndSession,
    BeginTransaction,
    CommitTransaction,
    Rollback,
    CreateTable,
    DeleteTable,
    AddColumn,
    DeleteColumn,
    CreateIndex,
    DeleteIndex,
    OfCursor(CursorCall),
}

/// A call on temporary tables.
#[tactic(auto, unfolding(crate::specs::Calls::temp_call))]
fn temp_call(name: &[u8]) -> Option<CursorCall>
    ensures { (cursor : CursorId) (words : List (List ℕ)) → calls.temp_call name.now cursor words ≡ cursor_read_by result cursor words }
{
    if is_word(name, TEMP_OPEN.name) {
        Some(CursorCall::TempOpen)
    } else if is_word(name, TEMP_PUT.name) {
        Some(CursorCall::TempPut)
    } else if is_word(name, TEMP_MOVE.name) {
        Some(CursorCall::TempMove)
    } else if is_word(name, TEMP_READ.name) {
        Some(CursorCall::TempRead)
    } else if is_word(name, TEMP_COUNT.name) {
        Some(CursorCall::TempCount)
    } else if is_word(name, TEMP_CLOSE.name) {
        Some(CursorCall::TempClose)
    } else if is_word(name, INTERSECT_INDEXES.name) {
        Some(CursorCall::IntersectIndexes)
    } else {
        None
    }
}

/// A call of records, or else on temporary tables.
#[tactic(auto, unfolding(crate::specs::Calls::record_call))]
fn record_call(name: &[u8]) -> Option<CursorCall>
    ensures { (cursor : CursorId) (words : List (List ℕ)) → calls.record_call name.now cursor words ≡ cursor_read_by result cursor words }
{
    if is_word(name, PREPARE_UPDATE.name) {
        Some(CursorCall::PrepareUpdate)
    } else if is_word(name, SET_COLUMN.name) {
        Some(CursorCall::SetColumn)
    } else if is_word(name, RETRIEVE_COLUMN.name) {
        Some(CursorCall::RetrieveColumn)
    } else if is_word(name, UPDATE.name) {
        Some(CursorCall::Update)
    } else if is_word(name, DELETE.name) {
        Some(CursorCall::Delete)
    } else if is_word(name, GET_LOCK.name) {
        Some(CursorCall::GetLock)
    } else if is_word(name, ESCROW_UPDATE.name) {
        Some(CursorCall::EscrowUpdate)
    } else {
        temp_call(name)
    }
}

/// A call of navigation, or else of records.
#[tactic(auto, unfolding(crate::specs::Calls::place_call))]
fn place_call(name: &[u8]) -> Option<CursorCall>
    ensures { (cursor : CursorId) (words : List (List ℕ)) → calls.place_call name.now cursor words ≡ cursor_read_by result cursor words }
{
    if is_word(name, MOVE.name) {
        Some(CursorCall::Move)
    } else if is_word(name, SEEK.name) {
        Some(CursorCall::Seek)
    } else if is_word(name, SET_INDEX_RANGE.name) {
        Some(CursorCall::SetIndexRange)
    } else if is_word(name, INDEX_RECORD_COUNT.name) {
        Some(CursorCall::IndexRecordCount)
    } else if is_word(name, RETRIEVE_KEY.name) {
        Some(CursorCall::RetrieveKey)
    } else if is_word(name, GET_BOOKMARK.name) {
        Some(CursorCall::GetBookmark)
    } else if is_word(name, GOTO_BOOKMARK.name) {
        Some(CursorCall::GotoBookmark)
    } else {
        record_call(name)
    }
}

/// Any call of a cursor.
#[tactic(auto, unfolding(crate::specs::Calls::call_of_cursor))]
fn call_of_cursor(name: &[u8]) -> Option<CursorCall>
    ensures { (cursor : CursorId) (words : List (List ℕ)) → calls.call_of_cursor name.now cursor words ≡ cursor_read_by result cursor words }
{
    if is_word(name, OPEN_TABLE.name) {
        Some(CursorCall::OpenTable)
    } else if is_word(name, CLOSE_TABLE.name) {
        Some(CursorCall::CloseTable)
    } else if is_word(name, SET_CURRENT_INDEX.name) {
        Some(CursorCall::SetCurrentIndex)
    } else if is_word(name, MAKE_KEY.name) {
        Some(CursorCall::MakeKey)
    } else {
        place_call(name)
    }
}

/// The same, as one of all calls.
fn labelled_call(name: &[u8]) -> Option<CallName>
    ensures { (words : List (List ℕ)) → calls.cursor_call (calls.call_of_cursor name.now) words ≡ read_by result words }
{
    match call_of_cursor(name) {
        Some(call) => Some(CallName::OfCursor(call)),
        None => None,
    }
}

/// A call of the schema, or else of a cursor.
#[tactic(auto, unfolding(crate::specs::Calls::schema_call))]
fn schema_call(name: &[u8]) -> Option<CallName>
    ensures { (words : List (List ℕ)) → calls.schema_call name.now words ≡ read_by result words }
{
    if is_word(name, CREATE_TABLE.name) {
        Some(CallName::CreateTable)
    } else if is_word(name, DELETE_TABLE.name) {
        Some(CallName::DeleteTable)
    } else if is_word(name, ADD_COLUMN.name) {
        Some(CallName::AddColumn)
    } else if is_word(name, DELETE_COLUMN.name) {
        Some(CallName::DeleteColumn)
    } else if is_word(name, CREATE_INDEX.name) {
        Some(CallName::CreateIndex)
    } else if is_word(name, DELETE_INDEX.name) {
        Some(CallName::DeleteIndex)
    } else {
        labelled_call(name)
    }
}

/// A call of sessions and transactions, or else any other.
#[tactic(auto, unfolding(crate::specs::Calls::named_call))]
fn any_call(name: &[u8]) -> Option<CallName>
    ensures { (words : List (List ℕ)) → calls.named_call name.now words ≡ read_by result words }
{
    if is_word(name, BEGIN_SESSION.name) {
        Some(CallName::BeginSession)
    } else if is_word(name, END_SESSION.name) {
        Some(CallName::EndSession)
    } else if is_word(name, BEGIN_TRANSACTION.name) {
        Some(CallName::BeginTransaction)
    } else if is_word(name, COMMIT_TRANSACTION.name) {
        Some(CallName::CommitTransaction)
    } else if is_word(name, ROLLBACK.name) {
        Some(CallName::Rollback)
    } else {
        schema_call(name)
    }
}

/// The calls that a script makes for each record or row, found by the length of their names before any name is compared.
fn frequent_call(name: &[u8]) -> Option<CallName>
    ensures { IfSome result (λ call. (words : List (List ℕ)) → calls.named_call name.now words ≡ reading call words) }
{
    match name.len() {
        4 if is_word(name, MOVE.name) => Some(CallName::OfCursor(CursorCall::Move)),
        6 if is_word(name, UPDATE.name) => Some(CallName::OfCursor(CursorCall::Update)),
        7 if is_word(name, TEMP_PUT.name) => Some(CallName::OfCursor(CursorCall::TempPut)),
        9 if is_word(name, SET_COLUMN.name) => Some(CallName::OfCursor(CursorCall::SetColumn)),
        13 if is_word(name, PREPARE_UPDATE.name) => {
            Some(CallName::OfCursor(CursorCall::PrepareUpdate))
        }
        14 if is_word(name, RETRIEVE_COLUMN.name) => {
            Some(CallName::OfCursor(CursorCall::RetrieveColumn))
        }
        _ => None,
    }
}

/// The call of a name, where it is the name of one.
pub fn call_named(name: &[u8]) -> Option<CallName>
    ensures { (words : List (List ℕ)) → calls.named_call name.now words ≡ read_by result words }
{
    match frequent_call(name) {
        Some(call) => Some(call),
        None => any_call(name),
    }
}
