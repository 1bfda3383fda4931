//! The calls without words of their own.
//!
//! Each makes its request by itself: a function that made several would clear a place for each of them at every call.

ghost use Rattle.session_local.specs.declared.request.Request.TheVariants as call;
ghost use Rattle.script_words.specs.Reading.{Reads};
ghost use Rattle.script_text.specs.Kept.{calls_with};
ghost use Rattle.script_text.specs.Calls as calls;

use crate::kept::{Calls, keep};
use jet_base::CursorId;
use script_words::arity::no_more;
use script_words::{Parts, Refusal};
use session_local::Request;

/// `BeginSession`.
#[tactic(auto, unfolding(crate::specs::Calls::bare_call))]
pub fn begin_session(words: &mut Parts<'_>, kept: &mut Calls) -> Result<(), Refusal>
    ensures { Reads (λ _. kept.new) result (calls_with kept.old (calls.bare_call call.BeginSession words.old)) }
{
    no_more(words)?;
    keep(kept, Request::BeginSession)
}

/// `EndSession`.
#[tactic(auto, unfolding(crate::specs::Calls::bare_call))]
pub fn end_session(words: &mut Parts<'_>, kept: &mut Calls) -> Result<(), Refusal>
    ensures { Reads (λ _. kept.new) result (calls_with kept.old (calls.bare_call call.EndSession words.old)) }
{
    no_more(words)?;
    keep(kept, Request::EndSession)
}

/// `BeginTransaction`.
#[tactic(auto, unfolding(crate::specs::Calls::bare_call))]
pub fn begin_transaction(words: &mut Parts<'_>, kept: &mut Calls) -> Result<(), Refusal>
    ensures { Reads (λ _. kept.new) result (calls_with kept.old (calls.bare_call call.BeginTransaction words.old)) }
{
    no_more(words)?;
    keep(kept, Request::BeginTransaction)
}

/// `CloseTable c`.
#[tactic(auto, unfolding(crate::specs::Calls::only_cursor, crate::specs::Calls::bare_call))]
pub fn close_table(cursor: CursorId, words: &mut Parts<'_>, kept: &mut Calls) -> Result<(), Refusal>
    ensures { Reads (λ _. kept.new) result (calls_with kept.old (calls.only_cursor call.CloseTable cursor words.old)) }
{
    no_more(words)?;
    keep(kept, Request::CloseTable { cursor })
}

/// `RetrieveKey c`.
#[tactic(auto, unfolding(crate::specs::Calls::only_cursor, crate::specs::Calls::bare_call))]
pub fn retrieve_key(
    cursor: CursorId,
    words: &mut Parts<'_>,
    kept: &mut Calls,
) -> Result<(), Refusal>
    ensures { Reads (λ _. kept.new) result (calls_with kept.old (calls.only_cursor call.RetrieveKey cursor words.old)) }
{
    no_more(words)?;
    keep(kept, Request::RetrieveKey { cursor })
}

/// `GetBookmark c`.
#[tactic(auto, unfolding(crate::specs::Calls::only_cursor, crate::specs::Calls::bare_call))]
pub fn get_bookmark(
    cursor: CursorId,
    words: &mut Parts<'_>,
    kept: &mut Calls,
) -> Result<(), Refusal>
    ensures { Reads (λ _. kept.new) result (calls_with kept.old (calls.only_cursor call.GetBookmark cursor words.old)) }
{
    no_more(words)?;
    keep(kept, Request::GetBookmark { cursor })
}

/// `Update c`.
#[tactic(auto, unfolding(crate::specs::Calls::only_cursor, crate::specs::Calls::bare_call))]
pub fn update(cursor: CursorId, words: &mut Parts<'_>, kept: &mut Calls) -> Result<(), Refusal>
    ensures { Reads (λ _. kept.new) result (calls_with kept.old (calls.only_cursor call.Update cursor words.old)) }
{
    no_more(words)?;
    keep(kept, Request::Update { cursor })
}

/// `Delete c`.
#[tactic(auto, unfolding(crate::specs::Calls::only_cursor, crate::specs::Calls::bare_call))]
pub fn delete(cursor: CursorId, words: &mut Parts<'_>, kept: &mut Calls) -> Result<(), Refusal>
    ensures { Reads (λ _. kept.new) result (calls_with kept.old (calls.only_cursor call.Delete cursor words.old)) }
{
    no_more(words)?;
    keep(kept, Request::Delete { cursor })
}

/// `GetLock c`.
#[tactic(auto, unfolding(crate::specs::Calls::only_cursor, crate::specs::Calls::bare_call))]
pub fn get_lock(cursor: CursorId, words: &mut Parts<'_>, kept: &mut Calls) -> Result<(), Refusal>
    ensures { Reads (λ _. kept.new) result (calls_with kept.old (calls.only_cursor call.GetLock cursor words.old)) }
{
    no_more(words)?;
    keep(kept, Request::GetLock { cursor })
}
