//! The engine with the bytes of its log entries.

ghost use Rattle.std.specs.Prelude.{◌≡◌, ◌≤◌, ◌<◌, ◌+◌, ◌-◌, ◌^◌, ◌++◌, [], true, false, Some, drop, length, min, take, IfOk, IsTrue, OnErr, OnOk};
ghost use Rattle.index_derive.specs.Steps.{entries_of_step};
ghost use Rattle.database_state.specs.State.{DatabaseState};
ghost use Rattle.session_local.specs.LocalCalls.{is_answered_locally};
ghost use Rattle.session_local.specs.Run.{takes_no_memory};
ghost use Rattle.session_local.specs.BuiltCalls.{is_built_request};
ghost use Rattle.laws_engine.specs.EngineState.{HasRoomForEnds, cleaned, engine_of};
ghost use Rattle.laws_engine.specs.EngineSteps.{engine_after_step, step_cleans};
ghost use Rattle.laws_engine.specs.HoldsState.{HoldsState};
ghost use Rattle.engine_core.specs.Reading.{is_reading};
ghost use Rattle.engine_parts.specs.Deciding.{Decides, HoldsSession, IsDecision, only_reply};
ghost use Rattle.engine_core.specs.Cleans.{CanGo, without_oldest_held};
ghost use Rattle.engine_core.specs.Steps.{MayTake};
ghost use Rattle.log_grammar.specs.EntryStreams.{stream_bytes};
ghost use Rattle.entry_log.specs.LogState.{appended, bytes_from, empty_stream, stream_end, trimmed_to};
ghost use Rattle.loggable_steps.specs.Loggable.{is_label, is_loggable, made_by};
ghost use Rattle.loggable_steps.specs.Replays.{closed, opened_state};
ghost use Rattle.engine_core.specs.Ends.{end_bytes};
ghost use Rattle.engine_core.specs.LoggedState.{MayBeCleaned, MayLackMemory, logged_step_may_lack_memory};

use crate::logging::counting::{Ends, count_anew, own_bytes};
use crate::logging::laws::{ends_follow_their_steps, what_is_begun_keeps_the_bytes_of_its_end};
use crate::logging::types::the_step_can_be_logged;
use crate::logging::writing::{ends_after, step_size, write};
use crate::{applying, cleaning, closing, deciding};
use engine_parts::Engine;
use entry_log::EntryLog;
use index_derive::Step;
use jet_base::OutOfMemory;
use laws_engine::ends_always_find_room;
use loggable_steps::{
    a_closed_state_is_held_by_its_tables, an_engine_without_sessions_tells_its_state,
};
use session_local::{Decision, Local, Reply, Request};
use std::alloc::Global;
use std::marker::Model;

/// The engine with the bytes of the log entries that it has made since its log began, at position 0.
#[derive(Drop)]
pub struct LoggedEngine {
    engine: Engine,
    log: EntryLog,
    /// What is to end. The log has room for its entries.
    ends: Ends,
}

impl Model for LoggedEngine {
    ghost use Rattle.engine_core.specs.LoggedState.{LoggedState};

    ghost Value = { LoggedState };

    ghost use Rattle.engine_core.specs.LoggedState.{HasRoom};

    ghost view = { λ a. record { engine = a.engine; stream = a.log.stream } };

    ghost invariant = { λ a. HasRoom a.engine a.log a.ends };
}

impl LoggedEngine {
    /// An engine without sessions, with a log that begins. It takes no memory.
    pub fn new(alloc: Global, engine: Engine) -> LoggedEngine
        requires { engine.sessions ≡ [] }
        ensures engine { result.engine ≡ engine }
        ensures stream { result.stream ≡ empty_stream }
    {
        LoggedEngine {
            engine,
            log: EntryLog::new(alloc),
            ends: Ends::none(),
        }
    }

    /// The engine.
    pub fn engine(&self) -> &Engine
        ensures { result.now ≡ self.now.engine }
    {
        &self.engine
    }

    /// The log of the entries that it has made.
    pub fn log(&self) -> &EntryLog
        ensures { result.now.stream ≡ self.now.stream }
    {
        &self.log
    }

    /// The number of log entries so far, those before the log began among them.
    pub fn number(&self) -> u64
        ensures { result ≡ self.now.engine.number }
    {
        self.engine.number()
    }

    /// Puts another limit of the version store's span, in bytes.
    pub fn set_limit(&mut self, limit: u64)
        ensures engine { self.new.engine ≡ record self.old.engine { limit = limit } }
        ensures stream { self.new.stream ≡ self.old.stream }
    {
        self.engine.set_limit(limit);
    }

    /// Decides a call that looks at the shared state, but for those that `read` answers, as [`decide`](crate::decide) does.
    pub fn decide(&self, local: &mut Local, request: &Request) -> Result<Decision, OutOfMemory>
        requires beside { HoldsSession self.now.engine local.old }
        requires built { is_built_request request.now ≡ true }
        requires shared { is_answered_locally local.old.state request.now ≡ false }
        requires changing { is_reading request.now ≡ false }
        ensures answer { IfOk result (λ decision. Decides self.now.engine local.old request.now local.new decision) }
        ensures decided { IfOk result (λ decision. IsDecision self.now.engine local.old request.now local.new decision) }
        ensures kept { OnErr result (local.new ≡ local.old) }
        ensures memory { OnErr result (takes_no_memory request.now ≡ false) }
        ensures session { local.new.session ≡ local.old.session }
    {
        deciding::decide(&self.engine, local, request)
    }

    /// Answers a call that moves a cursor or reads, as [`read`](crate::read) does.
    pub fn read(&self, local: &mut Local, request: &Request) -> Reply
        requires beside { HoldsSession self.now.engine local.old }
        requires shared { is_answered_locally local.old.state request.now ≡ false }
        requires reading { is_reading request.now ≡ true }
        ensures answer { Decides self.now.engine local.old request.now local.new (only_reply result) }
        ensures decided { IsDecision self.now.engine local.old request.now local.new (only_reply result) }
        ensures session { local.new.session ≡ local.old.session }
    {
        deciding::read(&self.engine, local, request)
    }

    /// Gives up held changes from the oldest on that no reader needs, at most so many, and tells how many, as
    /// [`clean`](crate::clean) does. No byte of the log changes.
    pub fn clean(&mut self, most: u32) -> u32
        ensures gone { self.new.engine ≡ without_oldest_held result self.old.engine }
        ensures few { result ≤ most }
        ensures unneeded { CanGo result self.old.engine }
        ensures all { result < most → self.new.engine ≡ cleaned self.old.engine }
        ensures holds { (state : DatabaseState) → HoldsState self.old.engine state → HoldsState self.new.engine state }
        ensures stream { self.new.stream ≡ self.old.stream }
    {
        cleaning::clean(&mut self.engine, most)
    }

    /// The position of the first byte of the log that is kept.
    pub fn trimmed(&self) -> u64
        ensures { result ≡ self.now.stream.from }
    {
        self.log.trimmed()
    }

    /// The position behind the last entry. A log has fewer than 2^61 + 2^41 bytes, at whatever number its engine was opened: at most
    /// 2^34 + 1 entries have fewer than 2^27 bytes each, and those behind them, at most 2^34, end something by at most 13 bytes.
    pub fn stream_end(&self) -> u64
        ensures value { result ≡ stream_end self.now.stream }
        ensures bound { stream_end self.now.stream < 2 ^ 61 + 2 ^ 41 }
    {
        self.log.stream_end()
    }

    /// Copies the bytes of the log from a position on, as many as the slice has room for and the log has. It tells how many;
    /// the rest of the slice stays.
    pub fn pending(&self, from: u64, into: &mut [u8]) -> usize
        requires kept { self.now.stream.from ≤ from }
        requires before { from ≤ stream_end self.now.stream }
        ensures count { result ≡ min (length into.old) (stream_end self.now.stream - from) }
        ensures bytes { into.new ≡ take result (bytes_from from self.now.stream) ++ drop result into.old }
    {
        self.log.pending(from, into)
    }

    /// The bytes of the log before a position are not kept any more.
    pub fn trim(&mut self, to: u64)
        requires { to ≤ stream_end self.old.stream }
        ensures engine { self.new.engine ≡ self.old.engine }
        ensures stream { self.new.stream ≡ trimmed_to to self.old.stream }
    {
        self.log.trim(to);
    }

    /// Makes a step that was decided in this state, or that is lawful in a replay, as [`apply`](crate::apply) does, and writes its
    /// entries behind the log, each once. Its session has a label, 1 to 99, so that each of them can be written, by less than
    /// 134,217,728 bytes. After want of memory no byte of the log has changed, and the engine is as it was, but that the clean may
    /// stand which comes before a change of a record and a schema step. Want of memory stops nothing that ends something: the room
    /// for its entry is kept from its begin on.
    pub fn apply(&mut self, step: &Step) -> Result<(), OutOfMemory>
        requires lawful { MayTake self.old.engine step.now }
        requires room { HasRoomForEnds self.old.engine }
        requires label { is_label (made_by step.now).session.0 ≡ true }
        ensures engine { OnOk result (self.new.engine ≡ engine_after_step self.old.engine step.now) }
        ensures stream { OnOk result (self.new.stream ≡ appended (stream_bytes (entries_of_step (Some step.now))) self.old.stream) }
        ensures cleaned { OnErr result (MayBeCleaned self.old.engine self.new.engine) }
        ensures same { OnErr result (step_cleans step.now ≡ false → self.new.engine ≡ self.old.engine) }
        ensures kept { OnErr result (self.new.stream ≡ self.old.stream) }
        ensures memory { OnErr result (logged_step_may_lack_memory step.now ≡ true) }
        ensures loggable { is_loggable (made_by step.now) ≡ true }
    {
        what_is_begun_keeps_the_bytes_of_its_end();
        ends_follow_their_steps();
        ends_always_find_room();
        the_step_can_be_logged(&self.engine, step);
        let own = own_bytes(&self.ends, &self.engine, step);
        let ends = ends_after(self.ends.bytes(), step);
        match make(&mut self.engine, &mut self.log, step, ends) {
            Ok(()) => {
                count_anew(&mut self.ends, &self.engine, step, own);
                Ok(())
            }
            Err(fault) => Err(fault),
        }
    }

    /// The room that is kept for the entries that end all that is begun, in bytes: just what these entries have.
    pub fn room_for_ends(&self) -> usize
        ensures { result ≡ end_bytes self.now.engine.sessions }
    {
        self.ends.bytes()
    }

    /// Gives up all sessions with their open transactions, writes no entry, and begins a log anew at position 0. What is left
    /// is the engine of the committed tables and the numbers that were given. Want of memory does not stop it.
    pub fn close(&mut self)
        requires held { (state : DatabaseState) × HoldsState self.old.engine state }
        ensures engine { (state : DatabaseState) → HoldsState self.old.engine state → self.new.engine ≡ engine_of self.old.engine.limit self.old.engine.newest_put (closed state) }
        ensures state { (state : DatabaseState) → HoldsState self.old.engine state → opened_state self.new.engine ≡ closed state }
        ensures holds { (state : DatabaseState) → HoldsState self.old.engine state → HoldsState self.new.engine (closed state) }
        ensures stream { self.new.stream ≡ empty_stream }
    {
        an_engine_without_sessions_tells_its_state();
        a_closed_state_is_held_by_its_tables();
        closing::close(&mut self.engine);
        self.log = new_log(&self.engine);
        self.ends = Ends::none();
    }
}

/// A log that begins, in the engine's memory.
fn new_log(engine: &Engine) -> EntryLog
    ensures { result.stream ≡ empty_stream }
{
    EntryLog::new(engine.alloc)
}

/// Makes a step and writes its entries, with room for the ends behind it.
fn make(
    engine: &mut Engine,
    log: &mut EntryLog,
    step: &Step,
    ends: usize,
) -> Result<(), OutOfMemory>
    requires lawful { MayTake engine.old step.now }
    requires room { HasRoomForEnds engine.old }
    requires loggable { IsTrue (is_loggable (made_by step.now)) }
    requires few { ends < 2 ^ 41 }
    requires short { stream_end log.old.stream < 2 ^ 63 }
    ensures engine { OnOk result (engine.new ≡ engine_after_step engine.old step.now) }
    ensures stream { OnOk result (log.new.stream ≡ appended (stream_bytes (entries_of_step (Some step.now))) log.old.stream) }
    ensures ends { OnOk result (ends ≤ log.new.room) }
    ensures cleaned { OnErr result (MayBeCleaned engine.old engine.new) }
    ensures same { OnErr result (step_cleans step.now ≡ false → engine.new ≡ engine.old) }
    ensures kept { OnErr result (log.new.stream ≡ log.old.stream) }
    ensures grows { OnErr result (log.old.room ≤ log.new.room) }
    ensures memory { OnErr result (MayLackMemory step.now (length (stream_bytes (entries_of_step (Some step.now))) + ends) log.old.room) }
{
    match log.reserve(step_size(step) + ends) {
        Ok(()) => match applying::apply(engine, step) {
            Ok(()) => {
                write(log, step);
                Ok(())
            }
            Err(fault) => Err(fault),
        },
        Err(fault) => Err(fault),
    }
}
