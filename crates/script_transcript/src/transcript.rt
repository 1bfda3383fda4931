//! A transcript: a text of lines, each of which says how a call was answered.

ghost use Rattle.std.specs.Prelude.{◌≡◌, [], ◌∷◌, ◌+◌, ◌*◌, ◌^◌, ◌≤◌, ◌<◌, ◌++◌, length, if◌then◌else◌, IsTrue, OnOk, vec_len};
ghost use Rattle.jet_base.specs.JetName.{jet_name};
ghost use Rattle.session_local.specs.Answer as answer;
ghost use Rattle.session_local.specs.Answer.{answered_by, shown_by};
ghost use Rattle.script_transcript.specs.TranscriptLine.{answer_behind_head, call_name, line_head, shown_text, transcript_line, NamesNoMore};
ghost use Rattle.script_transcript.specs.Written.{BeginsWith};
ghost use Rattle.std.specs.Vec.{vec_capacity};

use crate::append::{append, append_front, append_hex, append_label, append_number, append_signed};
use crate::names::line_of;
use jet_base::{Jet, OutOfMemory, Session, name};
use session_local::{Reply, Request, Value};
use std::alloc::Global;
use std::marker::Model;

/// The room in bytes that the longest line fits, with a value of 1,048,576 bytes in hexadecimal digits.
pub const LINE_ROOM: usize = 2_097_408;

/// What the bytes of a transcript begin with: the head of a line of this number and session, or nothing if it has no length.
#[derive(Clone, Copy)]
struct Head {
    length: usize,
    number: u64,
    session: Session,
}

/// A text of transcript lines with room kept behind it.
///
/// Most lines of a run have the number and the session of the line before. So where the text is emptied, the head of its first
/// line stays in its place, and serves the next line if that begins so too.
#[derive(Drop)]
pub struct Transcript {
    // The text, or where that is empty the head that is kept.
    bytes: Vec<u8>,
    empty: bool,
    head: Head,
}

impl Model for Transcript {
    ghost use Rattle.script_transcript.specs.Written.{Written, written, KeepsItsHead};

    ghost Value = { Written };

    ghost view = { written };

    ghost invariant = { KeepsItsHead };
}

impl Transcript {
    /// The empty text, with no room yet. It takes no memory.
    pub fn new(alloc: Global) -> Transcript
        ensures { result.text ≡ [] }
    {
        Transcript {
            bytes: Vec::new(alloc),
            empty: true,
            head: Head {
                length: 0,
                number: 0,
                session: Session(0),
            },
        }
    }

    /// The text so far.
    pub fn text(&self) -> &[u8]
        ensures { result.now ≡ self.now.text }
    {
        if self.empty {
            return &[];
        }
        self.bytes.as_slice()
    }

    /// Makes room for one more line. The text stays, whatever the result.
    pub fn make_room(&mut self) -> Result<(), OutOfMemory>
        ensures text { self.new.text ≡ self.old.text }
        ensures room { OnOk result (LINE_ROOM ≤ self.new.room) }
        ensures grows { self.old.room ≤ self.new.room }
    {
        if self.empty && LINE_ROOM <= self.bytes.capacity() {
            return Ok(());
        }
        let kept = if self.empty { self.head.length } else { 0 };
        self.bytes.reserve(LINE_ROOM - kept)?;
        Ok(())
    }

    /// Appends the line that says how a call was answered. It takes no memory.
    ///
    /// `n` is the number of the call, and `bytes` the session's reply buffer, of which a reply's value names the front.
    #[tactic(auto, using(crate::proofs::Heads::heads), unfolding(crate::specs::TranscriptLine::answer_line))]
    pub fn line(&mut self, n: u64, session: Session, request: &Request, reply: &Reply, bytes: &[u8])
        requires bytes { length bytes.now ≤ 1048576 }
        requires named { NamesNoMore reply.now (length bytes.now) }
        requires room { LINE_ROOM ≤ self.old.room }
        ensures text { self.new.text ≡ self.old.text ++ transcript_line n session.0 request.now reply.now bytes.now }
        // What is written takes of the room, and nothing else does.
        ensures room { length self.old.text + self.old.room ≤ length self.new.text + self.new.room }
    {
        begin_line(&mut self.bytes, &mut self.head, self.empty, n, session);
        self.empty = false;
        append_answer(&mut self.bytes, request, reply, bytes);
    }

    /// Empties the text and keeps the room, that of the text's bytes included.
    pub fn clear(&mut self)
        ensures text { self.new.text ≡ [] }
        ensures room { length self.old.text + self.old.room ≤ self.new.room }
    {
        self.bytes.truncate(self.head.length);
        self.empty = true;
    }
}

/// Puts the bytes of a value at the end, behind its whole length where not all of it is shown.
#[tactic(auto, unfolding(crate::specs::TranscriptLine::shown_text))]
fn append_bytes_value(text: &mut Vec<u8>, jet: Jet, bytes: &[u8], whole: u64)
    requires { vec_len text.old + 24 + 2 * length bytes.now ≤ vec_capacity text.old }
    ensures items { text.new.items ≡ text.old.items ++ shown_text jet (answer.Bytes bytes.now whole) }
    ensures len { vec_len text.new ≤ vec_len text.old + 24 + 2 * length bytes.now }
    ensures room { vec_capacity text.old ≤ vec_capacity text.new }
{
    if jet == Jet::BufferTruncated {
        append(text, b" ");
        append_number(text, whole);
    }
    append(text, b" x:");
    append_hex(text, bytes);
}

/// Puts the value of a reply at the end.
#[tactic(auto, unfolding(crate::specs::TranscriptLine::shown_text))]
fn append_value(text: &mut Vec<u8>, reply: &Reply, bytes: &[u8])
    requires bytes { length bytes.now ≤ 1048576 }
    requires named { NamesNoMore reply.now (length bytes.now) }
    requires room { vec_len text.old + 2097176 ≤ vec_capacity text.old }
    ensures items { text.new.items ≡ text.old.items ++ shown_text reply.now.jet (shown_by reply.now.value bytes.now) }
    ensures len { vec_len text.new ≤ vec_len text.old + 2097176 }
    ensures room { vec_capacity text.old ≤ vec_capacity text.new }
{
    match reply.value {
        Value::Nothing => {}
        Value::Number(number) => {
            append(text, b" n:");
            append_signed(text, number);
        }
        Value::Count(count) => {
            append(text, b" ");
            append_number(text, count);
        }
        Value::Bytes(count, whole) => append_bytes_value(text, reply.jet, &bytes[..count], whole),
    }
}

/// Puts what a line begins with behind a text, whose bytes they are but where it is empty.
#[tactic(auto, using(crate::proofs::Heads::heads))]
#[inline(always)]
fn begin_line(bytes: &mut Vec<u8>, head: &mut Head, empty: bool, number: u64, session: Session)
    requires kept { BeginsWith head.old bytes.old.items }
    requires short { head.old.length ≤ 41 }
    requires within { head.old.length ≤ vec_len bytes.old }
    requires empty { IsTrue empty → vec_len bytes.old ≡ head.old.length }
    requires room { (if empty then 0 else vec_len bytes.old) + LINE_ROOM ≤ vec_capacity bytes.old }
    ensures items { bytes.new.items ≡ (if empty then [] else bytes.old.items) ++ line_head number session.0 }
    ensures kept { BeginsWith head.new bytes.new.items }
    ensures short { head.new.length ≤ 41 }
    ensures within { head.new.length ≤ vec_len bytes.new }
    ensures len { vec_len bytes.new ≤ (if empty then 0 else vec_len bytes.old) + 41 }
    ensures room { vec_capacity bytes.old ≤ vec_capacity bytes.new }
{
    if empty {
        keep_head(bytes, head, number, session);
    } else {
        append_head(bytes, number, session);
    }
}

/// Makes the bytes of an empty text the head of a line, which they may be.
#[tactic(auto, using(crate::proofs::Heads::heads))]
#[inline(always)]
fn keep_head(bytes: &mut Vec<u8>, head: &mut Head, number: u64, session: Session)
    requires kept { BeginsWith head.old bytes.old.items }
    requires short { head.old.length ≤ 41 }
    requires length { vec_len bytes.old ≡ head.old.length }
    requires room { LINE_ROOM ≤ vec_capacity bytes.old }
    ensures items { bytes.new.items ≡ line_head number session.0 }
    ensures kept { BeginsWith head.new bytes.new.items }
    ensures length { vec_len bytes.new ≡ head.new.length }
    ensures short { vec_len bytes.new ≤ 41 }
    ensures room { vec_capacity bytes.old ≤ vec_capacity bytes.new }
{
    if head.length == 0 || head.number != number || head.session.0 != session.0 {
        renew_head(bytes, head, number, session);
    }
}

/// Makes the bytes of an empty text the head of another line: mostly one of the next number, which is counted up in its place.
#[tactic(auto, using(crate::proofs::Heads::heads))]
fn renew_head(bytes: &mut Vec<u8>, head: &mut Head, number: u64, session: Session)
    requires kept { BeginsWith head.old bytes.old.items }
    requires short { head.old.length ≤ 41 }
    requires length { vec_len bytes.old ≡ head.old.length }
    requires room { LINE_ROOM ≤ vec_capacity bytes.old }
    ensures items { bytes.new.items ≡ line_head number session.0 }
    ensures kept { BeginsWith head.new bytes.new.items }
    ensures length { vec_len bytes.new ≡ head.new.length }
    ensures short { vec_len bytes.new ≤ 41 }
    ensures room { vec_capacity bytes.old ≤ vec_capacity bytes.new }
{
    if head.length > 0
        && head.session.0 == session.0
        && head.number < number
        && number - head.number == 1
        && count_up(bytes, head.number, session)
    {
        head.number = number;
    } else {
        bytes.clear();
        append_head(bytes, number, session);
        *head = Head {
            length: bytes.len(),
            number,
            session,
        };
    }
}

/// Makes a head of a line that of the next number, where the label has one digit and the number's last digit alone changes.
/// Otherwise nothing changes.
fn count_up(bytes: &mut Vec<u8>, number: u64, session: Session) -> bool
    requires head { bytes.old.items ≡ line_head number session.0 }
    requires next { number + 1 < 2 ^ 64 }
    ensures items { bytes.new.items ≡ line_head (if result then number + 1 else number) session.0 }
    ensures len { vec_len bytes.new ≡ vec_len bytes.old }
    ensures room { vec_capacity bytes.old ≤ vec_capacity bytes.new }
{
    if session.0 > 9 {
        return false;
    }
    let place = bytes.len() - 3;
    let digit = bytes[place];
    if digit == b'9' {
        return false;
    }
    bytes[place] = digit + 1;
    true
}

/// Puts what a line begins with at the end, of at most 41 bytes.
fn append_head(text: &mut Vec<u8>, number: u64, session: Session)
    requires { vec_len text.old + 41 ≤ vec_capacity text.old }
    ensures items { text.new.items ≡ text.old.items ++ line_head number session.0 }
    ensures len { vec_len text.new ≤ vec_len text.old + 41 }
    ensures room { vec_capacity text.old ≤ vec_capacity text.new }
{
    append_number(text, number);
    append_label(text, session.0);
}

/// Puts the names of a call and of a reply at the end, with a space before each.
#[tactic(auto, using(crate::proofs::JetNames::names_of_replies))]
#[inline(never)]
fn append_names(text: &mut Vec<u8>, request: &Request, jet: Jet)
    requires { vec_len text.old + 59 ≤ vec_capacity text.old }
    ensures items { text.new.items ≡ text.old.items ++ 32 ∷ call_name request.now ++ 32 ∷ jet_name jet }
    ensures len { vec_len text.new ≤ vec_len text.old + 59 }
    ensures room { vec_capacity text.old ≤ vec_capacity text.new }
{
    let line = line_of(request);
    append_front(text, &line.answer, line.name.len() + 2);
    append(text, name(jet).as_bytes());
}

/// Puts the rest of a line at the end. Mostly the call succeeds and shows nothing, and the rest is one piece.
#[tactic(auto, unfolding(crate::specs::TranscriptLine::answer_line, crate::specs::TranscriptLine::shown_text))]
fn append_answer(text: &mut Vec<u8>, request: &Request, reply: &Reply, bytes: &[u8])
    requires bytes { length bytes.now ≤ 1048576 }
    requires named { NamesNoMore reply.now (length bytes.now) }
    requires room { vec_len text.old + 2097367 ≤ vec_capacity text.old }
    ensures items { text.new.items ≡ text.old.items ++ answer_behind_head request.now (answered_by reply.now bytes.now) }
    ensures room { vec_capacity text.old ≤ vec_capacity text.new }
{
    if let Jet::Success = reply.jet {
        let line = line_of(request);
        if let Value::Nothing = reply.value {
            append_front(text, &line.answer, line.count);
            return;
        }
        append_front(text, &line.answer, line.count - 1);
    } else {
        append_names(text, request, reply.jet);
    }
    append_value(text, reply, bytes);
    append(text, b"\n");
}
