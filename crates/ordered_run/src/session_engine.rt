//! The engine that a script's lines are served by.

ghost use Rattle.std.specs.Prelude.{◌≡◌, ◌≤◌, ℕ, true, false, List, [], ◌∷◌, length, if◌then◌else◌, OnErr, OnOk, IfOk, IfErr, Some};
ghost use Rattle.index_derive.specs.declared.log.Step.{Step};
ghost use Rattle.index_derive.specs.Steps.{entries_of_step};
ghost use Rattle.database_state.specs.State.{DatabaseState};
ghost use Rattle.session_local.specs.Calls.{is_local};
ghost use Rattle.session_local.specs.LocalCalls.{is_answered_locally};
ghost use Rattle.session_local.specs.Answer.{answered_by};
ghost use Rattle.session_local.specs.Run.{RunState, Line, rows_of_line, run_after, may_come};
ghost use Rattle.session_local.specs.BuiltCalls.{is_built_request};
ghost use Rattle.script_text.specs.Built.{are_built};
ghost use Rattle.script_transcript.specs.TranscriptLine.{NamesNoMore};
ghost use Rattle.ordered_run.specs.Sessions.{session_at};
ghost use Rattle.laws_engine.specs.EngineState.{HasRoomForEnds};
ghost use Rattle.laws_engine.specs.EngineSteps.{engine_after_answer};
ghost use Rattle.laws_engine.specs.HoldsState.{HoldsState};
ghost use Rattle.loggable_steps.specs.Loggable.{is_label, made_by};
ghost use Rattle.engine_core.specs.LoggedState.{MayBeCleaned};
ghost use Rattle.engine_core.specs.Reading.{is_reading};
ghost use Rattle.engine_core.specs.Steps.{MayTake};
ghost use Rattle.ordered_run.specs.Flushing.{reply_by_flush, rows_by_flush, IsFlushOutcome};
ghost use Rattle.ordered_run.specs.SessionRun.{no_memory_reply, row_told, LacksMemory};
ghost use Rattle.ordered_run.specs.Outcomes.{BeginsRun};
ghost use Rattle.ordered_run.specs.ServedLines.{outcome_of_line, HasAnswered, LineMade};
ghost use Rattle.ordered_run.specs.Serving.{reply_of, run_engine, CanServe, IsAt};

use crate::flushed::{After, Flush, Flushed, not_flushed};
use crate::laws::{
    a_run_begins_with_fresh_sessions, calls_without_memory_are_logged_without,
    sessions_follow_a_line,
};
use crate::run_engine::RunEngine;
use crate::served::{LineAnswer, Served};
use crate::sessions::RunSessions;
use engine_core::{
    a_run_begins_without_sessions, a_run_holds_its_sessions, a_run_is_held_after_its_lines, decide,
    is_reading, no_answer_is_want_of_memory, read, steps_of_a_run_may_be_taken,
};
use index_derive::Step;
use jet_base::{Jet, OutOfMemory, Session};
use session_local::{
    Reply, Request, Value, finish, is_local, local_calls_take_no_step, local_step,
};
use std::alloc::Global;

/// An engine with versions, and the sessions of a script by their labels.
///
/// A session answers by itself what needs its own state alone. Any other call is decided on what the engine holds; its step
/// is made, and only then the session's own state is brought to what the call leaves. Where the call waits for the log, the log
/// is flushed before the line is told.
#[derive(Drop)]
pub struct SessionEngine<E> {
    engine: E,
    sessions: RunSessions,
}

impl<E: RunEngine> SessionEngine<E> {
    /// An engine that was opened, and has no session yet. Without memory for the places of its sessions it is given back.
    pub fn over(alloc: Global, engine: E) -> Result<SessionEngine<E>, E>
        requires { (E.held engine).sessions ≡ [] }
        ensures engine { IfOk result (λ made. run_engine made ≡ engine) }
        // It is ready for the lines of every script that is built, from the state that the engine holds.
        ensures ready { IfOk result (λ made. (opening : DatabaseState) → HoldsState (E.held engine) opening → (lines : List Line) → are_built lines ≡ true → BeginsRun E.held opening made lines) }
        ensures back { IfErr result (λ given. given ≡ engine) }
    {
        a_run_begins_without_sessions();
        a_run_begins_with_fresh_sessions();
        match RunSessions::new(alloc) {
            Ok(sessions) => Ok(SessionEngine { engine, sessions }),
            Err(OutOfMemory) => Err(engine),
        }
    }

    /// The engine, without what the sessions have in memory.
    pub fn into_engine(self) -> E
        ensures { result ≡ run_engine self }
    {
        self.engine
    }

    /// Serves the next line, and flushes the log where it waits for that. Its reply is want of memory only where the call may find
    /// none, and then nothing changes; and that of a failed log write only where the flush met a fault. It is not to be printed
    /// where the flush found no room, and the run goes on only as the flush says.
    pub(crate) fn serve(&mut self, session: Session, request: &Request) -> Served
        requires goes { E.ready self.old.engine }
        requires ready { (limit : ℕ) × (run : RunState) × (rest : List Line) × CanServe E.held limit self.old run ((session.0, request.now) ∷ rest) }
        ensures row { (limit : ℕ) (run : RunState) (rest : List Line) → CanServe E.held limit self.old run ((session.0, request.now) ∷ rest)
            → rows_of_line limit run (session.0, request.now) (outcome_of_line result) ≡ rows_by_flush result.flushed.flush (row_told result.n session request.now (answered_by result.reply (reply_of self.new session))) }
        ensures outcome { (limit : ℕ) (run : RunState) (rest : List Line) → CanServe E.held limit self.old run ((session.0, request.now) ∷ rest)
            → may_come limit run (session.0, request.now) (outcome_of_line result) ≡ true }
        ensures state { (limit : ℕ) (run : RunState) (rest : List Line) → CanServe E.held limit self.old run ((session.0, request.now) ∷ rest)
            → CanServe E.held limit self.new (run_after limit run (session.0, request.now) (outcome_of_line result)) rest }
        ensures made { (limit : ℕ) (run : RunState) (rest : List Line) → CanServe E.held limit self.old run ((session.0, request.now) ∷ rest)
            → LineMade E.made E.flushed limit run (session.0, request.now) (outcome_of_line result) self.old.engine self.new.engine result.flushed }
        ensures goes { result.flushed.after ≡ After.Goes → E.ready self.new.engine }
        ensures told { IsFlushOutcome result.flushed }
        ensures named { NamesNoMore result.reply (length (reply_of self.new session)) }
    {
        let answer = self.serve_call(session, request);
        if answer.flush {
            told(answer, self.engine.flush())
        } else {
            told(answer, not_flushed())
        }
    }

    /// The session's reply buffer, a front of which the last reply to the session names.
    pub(crate) fn reply(&self, session: Session) -> &[u8]
        ensures bytes { result.now ≡ reply_of self.now session }
        ensures short { length (reply_of self.now session) ≤ 1048576 }
    {
        self.sessions.reply(session)
    }

    // Serves a call of a session.
    #[tactic(none)]
    fn serve_call(&mut self, session: Session, request: &Request) -> LineAnswer
        requires goes { E.ready self.old.engine }
        requires ready { (limit : ℕ) × (run : RunState) × IsAt E.held limit self.old run }
        requires built { is_built_request request.now ≡ true }
        requires labelled { is_label session.0 ≡ true }
        ensures line { (limit : ℕ) (run : RunState) → IsAt E.held limit self.old run → HasAnswered E.held E.made limit self.old.engine self.new run session request.now result }
        ensures goes { E.ready self.new.engine }
        ensures named { NamesNoMore result.reply (length (reply_of self.new session)) }
    {
        a_run_holds_its_sessions();
        a_run_is_held_after_its_lines();
        local_calls_take_no_step();
        no_answer_is_want_of_memory();
        sessions_follow_a_line();
        match local_step(self.sessions.local_mut(session), request) {
            Ok(Some(reply)) => tell(self.sessions.last(session), reply, false),
            Ok(None) => self.serve_shared(session, request),
            Err(OutOfMemory) => self.without_memory(session),
        }
    }

    // Serves a call that looks at the shared state.
    fn serve_shared(&mut self, session: Session, request: &Request) -> LineAnswer
        requires goes { E.ready self.old.engine }
        requires ready { (limit : ℕ) × (run : RunState) × IsAt E.held limit self.old run }
        requires built { is_built_request request.now ≡ true }
        requires labelled { is_label session.0 ≡ true }
        requires shared { is_answered_locally (session_at self.old.sessions session.0).local.state request.now ≡ false }
        ensures line { (limit : ℕ) (run : RunState) → IsAt E.held limit self.old run → HasAnswered E.held E.made limit self.old.engine self.new run session request.now result }
        ensures goes { E.ready self.new.engine }
        ensures named { NamesNoMore result.reply (length (reply_of self.new session)) }
    {
        if is_reading(request) {
            self.serve_reading(session, request)
        } else {
            self.serve_decided(session, request)
        }
    }

    // Serves a call that moves a cursor or reads. Apart, since the engine's reading is large, and in the loop of the lines it
    // would cost every line.
    #[inline(never)]
    #[tactic(none)]
    fn serve_reading(&mut self, session: Session, request: &Request) -> LineAnswer
        requires goes { E.ready self.old.engine }
        requires ready { (limit : ℕ) × (run : RunState) × IsAt E.held limit self.old run }
        requires built { is_built_request request.now ≡ true }
        requires labelled { is_label session.0 ≡ true }
        requires shared { is_answered_locally (session_at self.old.sessions session.0).local.state request.now ≡ false }
        requires reading { is_reading request.now ≡ true }
        ensures line { (limit : ℕ) (run : RunState) → IsAt E.held limit self.old run → HasAnswered E.held E.made limit self.old.engine self.new run session request.now result }
        ensures goes { E.ready self.new.engine }
        ensures named { NamesNoMore result.reply (length (reply_of self.new session)) }
    {
        a_run_holds_its_sessions();
        a_run_is_held_after_its_lines();
        no_answer_is_want_of_memory();
        sessions_follow_a_line();
        let reply = read(
            self.engine.engine(),
            self.sessions.local_mut(session),
            request,
        );
        let number = self.number_for(session, request, reply.jet);
        self.sessions.set_last(session, number);
        tell(number, reply, false)
    }

    // Serves any other call that looks at the shared state. Apart, since its decision is large and most calls need none.
    #[inline(never)]
    #[tactic(none)]
    fn serve_decided(&mut self, session: Session, request: &Request) -> LineAnswer
        requires goes { E.ready self.old.engine }
        requires ready { (limit : ℕ) × (run : RunState) × IsAt E.held limit self.old run }
        requires built { is_built_request request.now ≡ true }
        requires labelled { is_label session.0 ≡ true }
        requires shared { is_answered_locally (session_at self.old.sessions session.0).local.state request.now ≡ false }
        requires changing { is_reading request.now ≡ false }
        ensures line { (limit : ℕ) (run : RunState) → IsAt E.held limit self.old run → HasAnswered E.held E.made limit self.old.engine self.new run session request.now result }
        ensures goes { E.ready self.new.engine }
        ensures named { NamesNoMore result.reply (length (reply_of self.new session)) }
    {
        a_run_holds_its_sessions();
        a_run_is_held_after_its_lines();
        steps_of_a_run_may_be_taken();
        no_answer_is_want_of_memory();
        calls_without_memory_are_logged_without();
        sessions_follow_a_line();
        let Ok(decision) = decide(
            self.engine.engine(),
            self.sessions.local_mut(session),
            request,
        ) else {
            return self.without_memory(session);
        };
        let reply = decision.reply;
        let flush = decision.flush;
        let n = self.number_for(session, request, reply.jet);
        if make_step(&mut self.engine, &decision.step).is_err() {
            return self.without_memory(session);
        }
        finish(self.sessions.local_mut(session), request, decision);
        let last = self.number_for(session, request, reply.jet);
        self.sessions.set_last(session, last);
        tell(n, reply, flush)
    }

    // The number of the line of a call that was answered so: for a local call that after the session's last look at the
    // shared state, and else that of the last log entry.
    fn number_for(&self, session: Session, request: &Request, jet: Jet) -> u64
        ensures { result ≡ (if is_local request.now jet then (session_at self.now.sessions session.0).last else (E.held self.now.engine).number) }
    {
        if is_local(request, jet) {
            self.sessions.last(session)
        } else {
            self.engine.engine().number()
        }
    }

    // A line that found no memory.
    fn without_memory(&self, session: Session) -> LineAnswer
        ensures n { result.n ≡ (session_at self.now.sessions session.0).last }
        ensures reply { result.reply ≡ no_memory_reply }
        ensures flush { result.flush ≡ false }
    {
        LineAnswer {
            n: self.sessions.last(session),
            reply: Reply {
                jet: Jet::OutOfMemory,
                value: Value::Nothing,
            },
            flush: false,
        }
    }
}

// What a line is answered.
fn tell(n: u64, reply: Reply, flush: bool) -> LineAnswer
    ensures line { result ≡ record { n = n; reply = reply; flush = flush } }
{
    LineAnswer { n, reply, flush }
}

// What is told of a line that was answered, once its log was flushed.
fn told(answer: LineAnswer, flushed: Flushed) -> Served
    ensures { result ≡ record { n = answer.n; reply = reply_by_flush flushed.flush answer.reply; flushed = flushed } }
{
    let reply = match flushed.flush {
        Flush::Failed => Reply {
            jet: Jet::LogWriteFail,
            value: Value::Nothing,
        },
        Flush::Kept | Flush::NoRoom => answer.reply,
    };
    Served {
        n: answer.n,
        reply,
        flushed,
    }
}

// Makes the step of a call, if it has one. Where there is no memory the engine holds what it held.
fn make_step<E: RunEngine>(engine: &mut E, step: &Option<Step>) -> Result<(), OutOfMemory>
    requires goes { E.ready engine.old }
    requires lawful { (made : Step) → step.now ≡ Some made → MayTake (E.held engine.old) made }
    requires room { (made : Step) → step.now ≡ Some made → HasRoomForEnds (E.held engine.old) }
    requires label { (made : Step) → step.now ≡ Some made → is_label (made_by made).session.0 ≡ true }
    ensures done { OnOk result (E.held engine.new ≡ engine_after_answer (E.held engine.old) step.now) }
    ensures made { OnOk result (E.made (entries_of_step step.now) engine.old engine.new) }
    ensures kept { OnErr result (MayBeCleaned (E.held engine.old) (E.held engine.new)) }
    ensures none { OnErr result (E.made [] engine.old engine.new) }
    ensures memory { OnErr result (LacksMemory step.now) }
    ensures goes { E.ready engine.new }
{
    match step {
        Some(step) => engine.apply(step),
        None => Ok(()),
    }
}
