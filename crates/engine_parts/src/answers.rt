//! Ways to decide.

ghost use Rattle.std.specs.Prelude.{◌≡◌, None, Some, false};
ghost use Rattle.session_local.specs.declared.reply.Value.TheVariants.{Nothing};
ghost use Rattle.engine_parts.specs.Deciding.{only_reply};

use index_derive::{Entry, EntryKind, Step};
use jet_base::{Jet, Session};
use session_local::{Decision, Reply, Value};

// The decision of a reply after which all is as it was.
pub(crate) fn replied(reply: Reply) -> Decision
    ensures { result ≡ only_reply reply }
{
    Decision {
        step: None,
        reply,
        table: None,
        copied: None,
        temp: None,
        buffers: None,
        flush: false,
    }
}

/// A refusal.
pub fn refused(jet: Jet) -> Decision
    ensures { result ≡ record { step = None; reply = record { jet = jet; value = Nothing }; table = None; copied = None; temp = None; buffers = None; flush = false } }
{
    replied(refusal(jet))
}

/// The reply of a refusal.
pub fn refusal(jet: Jet) -> Reply
    ensures { result ≡ record { jet = jet; value = Nothing } }
{
    Reply {
        jet,
        value: Value::Nothing,
    }
}

/// Success with a step.
pub fn done(step: Step, flush: bool) -> Decision
    ensures { result ≡ record { step = Some step; reply = record { jet = Jet.Success; value = Nothing }; table = None; copied = None; temp = None; buffers = None; flush = flush } }
{
    Decision {
        step: Some(step),
        reply: Reply {
            jet: Jet::Success,
            value: Value::Nothing,
        },
        table: None,
        copied: None,
        temp: None,
        buffers: None,
        flush,
    }
}

/// A step of one entry.
pub fn one(session: Session, kind: EntryKind) -> Step
    ensures { result ≡ Step.One (record { session = session; kind = kind }) }
{
    Step::One(Entry { session, kind })
}
