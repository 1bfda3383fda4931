//! The calls, each with what is written of it.

ghost use Rattle.std.specs.Prelude.{◌≡◌, ◌≤◌, ◌+◌, ◌-◌, [], ◌∷◌, ◌++◌, length, take};
ghost use Rattle.jet_base.specs.JetName.{jet_name};
ghost use Rattle.jet_base.specs.declared.replies.Jet.TheVariants as jet;
ghost use Rattle.script_transcript.specs.TranscriptLine.{call_name};

use crate::call_lines::{
    ADD_COLUMN, BEGIN_SESSION, BEGIN_TRANSACTION, CLOSE_TABLE, COMMIT_TRANSACTION, CREATE_INDEX,
    CREATE_TABLE, CallLine, DELETE, DELETE_COLUMN, DELETE_INDEX, DELETE_TABLE, END_SESSION,
    ESCROW_UPDATE, GET_BOOKMARK, GET_LOCK, GOTO_BOOKMARK, INDEX_RECORD_COUNT, INTERSECT_INDEXES,
    MAKE_KEY, MOVE, OPEN_TABLE, PREPARE_UPDATE, RETRIEVE_COLUMN, RETRIEVE_KEY, ROLLBACK, SEEK,
    SET_COLUMN, SET_CURRENT_INDEX, SET_INDEX_RANGE, TEMP_CLOSE, TEMP_COUNT, TEMP_MOVE, TEMP_OPEN,
    TEMP_PUT, TEMP_READ, UPDATE,
};
use session_local::Request;

/// What is written of a call.
pub fn line_of(request: &Request) -> &'static CallLine
    ensures name { result.now.name.now ≡ call_name request.now }
    ensures answer { take result.now.count result.now.answer ≡ 32 ∷ call_name request.now ++ 32 ∷ jet_name jet.Success ++ 10 ∷ [] }
    // Without the end of the line.
    ensures front { take (result.now.count - 1) result.now.answer ≡ 32 ∷ call_name request.now ++ 32 ∷ jet_name jet.Success }
    // The name of the call, between two spaces.
    ensures between { take (length result.now.name.now + 2) result.now.answer ≡ 32 ∷ call_name request.now ++ 32 ∷ [] }
    ensures short { length result.now.name.now ≤ 17 }
    ensures within { result.now.count ≤ 34 }
    ensures some { 1 ≤ result.now.count }
{
    match request {
        Request::BeginSession => &BEGIN_SESSION,
        Request::EndSession => &END_SESSION,
        Request::BeginTransaction => &BEGIN_TRANSACTION,
        Request::CommitTransaction { .. } => &COMMIT_TRANSACTION,
        Request::Rollback { .. } => &ROLLBACK,
        Request::CreateTable { .. } => &CREATE_TABLE,
        Request::DeleteTable { .. } => &DELETE_TABLE,
        Request::AddColumn { .. } => &ADD_COLUMN,
        Request::DeleteColumn { .. } => &DELETE_COLUMN,
        Request::CreateIndex { .. } => &CREATE_INDEX,
        Request::DeleteIndex { .. } => &DELETE_INDEX,
        Request::OpenTable { .. } => &OPEN_TABLE,
        Request::CloseTable { .. } => &CLOSE_TABLE,
        Request::SetCurrentIndex { .. } => &SET_CURRENT_INDEX,
        Request::Move { .. } => &MOVE,
        Request::MakeKey { .. } => &MAKE_KEY,
        Request::Seek { .. } => &SEEK,
        Request::SetIndexRange { .. } => &SET_INDEX_RANGE,
        Request::RemoveIndexRange { .. } => &SET_INDEX_RANGE,
        Request::IndexRecordCount { .. } => &INDEX_RECORD_COUNT,
        Request::RetrieveKey { .. } => &RETRIEVE_KEY,
        Request::GetBookmark { .. } => &GET_BOOKMARK,
        Request::GotoBookmark { .. } => &GOTO_BOOKMARK,
        Request::PrepareUpdate { .. } => &PREPARE_UPDATE,
        Request::SetColumn { .. } => &SET_COLUMN,
        Request::RetrieveColumn { .. } => &RETRIEVE_COLUMN,
        Request::Update { .. } => &UPDATE,
        Request::Delete { .. } => &DELETE,
        Request::GetLock { .. } => &GET_LOCK,
        Request::EscrowUpdate { .. } => &ESCROW_UPDATE,
        Request::TempOpen { .. } => &TEMP_OPEN,
        Request::TempPut { .. } => &TEMP_PUT,
        Request::TempMove { .. } => &TEMP_MOVE,
        Request::TempRead { .. } => &TEMP_READ,
        Request::TempCount { .. } => &TEMP_COUNT,
        Request::TempClose { .. } => &TEMP_CLOSE,
        Request::IntersectIndexes { .. } => &INTERSECT_INDEXES,
    }
}
