//! Which calls a session answers without a look at the shared state.

ghost use Rattle.std.specs.Prelude.{◌≡◌, option_map};
ghost use Rattle.session_local.specs.Calls.{is_always_local, is_local_reply, is_local};
ghost use Rattle.session_local.specs.LocalCalls.{cursor_of};

use crate::request::Request;
use jet_base::{CursorId, Jet, Prepare};

/// Whether a call that was answered so is a local one: one that touches the session's own state alone.
///
/// A line of a local call has the number after the session's last call that looked at the shared state, and a line of
/// any other call the number of the log's last entry.
pub fn is_local(request: &Request, jet: Jet) -> bool
    ensures { result ≡ is_local request.now jet }
{
    is_always_local(request) || is_local_reply(jet)
}

// the calls that are local whatever they answer
pub(crate) fn is_always_local(request: &Request) -> bool
    ensures { result ≡ is_always_local request.now }
{
    match request {
        Request::MakeKey { .. }
        | Request::RemoveIndexRange { .. }
        | Request::SetColumn { .. }
        | Request::TempOpen { .. }
        | Request::TempPut { .. }
        | Request::TempMove { .. }
        | Request::TempRead { .. }
        | Request::TempCount { .. }
        | Request::TempClose { .. } => true,
        Request::RetrieveColumn { copy, .. } => *copy,
        Request::PrepareUpdate { how, .. } => matches!(how, Prepare::Insert | Prepare::Cancel),
        _ => false,
    }
}

// the replies that are given without a look at the shared state
fn is_local_reply(jet: Jet) -> bool
    ensures { result ≡ is_local_reply jet }
{
    matches!(
        jet,
        Jet::InvalidSesid | Jet::SessionInUse | Jet::InvalidTableId
    )
}

// The label of the cursor that the call is made at.
pub(crate) fn cursor_of(request: &Request) -> Option<CursorId>
    ensures { option_map (λ label. label.0) result ≡ cursor_of request.now }
{
    match request {
        Request::CloseTable { cursor }
        | Request::SetCurrentIndex { cursor, .. }
        | Request::Move { cursor, .. }
        | Request::MakeKey { cursor, .. }
        | Request::Seek { cursor, .. }
        | Request::SetIndexRange { cursor, .. }
        | Request::RemoveIndexRange { cursor }
        | Request::IndexRecordCount { cursor, .. }
        | Request::RetrieveKey { cursor }
        | Request::GetBookmark { cursor }
        | Request::GotoBookmark { cursor, .. }
        | Request::PrepareUpdate { cursor, .. }
        | Request::SetColumn { cursor, .. }
        | Request::RetrieveColumn { cursor, .. }
        | Request::Update { cursor }
        | Request::Delete { cursor }
        | Request::GetLock { cursor }
        | Request::EscrowUpdate { cursor, .. } => Some(*cursor),
        _ => None,
    }
}
