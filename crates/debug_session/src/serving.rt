//! A session over an input and a sink.
//! What a session read of its input and wrote to its sink, in this order, and nothing else. It takes no memory.
ghost use Rattle.std.specs.Prelude.{◌≡◌, ◌≤◌, length, ◌∷◌, ◌++◌, [], option_to_list, OnErr, OnOk, IfOk, IfSome, IfNone, true, false};
ghost use Rattle.sloth_base.specs.Limits.{task_limit};
ghost use Rattle.debug_session.specs.Reading.{fresh};
ghost use Rattle.debug_ways.specs.Cursor.{cursor_run};
ghost use Rattle.debug_session.specs.Serving.{HasEnded, IsHandedOn};
ghost use Rattle.sloth_io.specs.Sink.{output_with, GainsPart};
ghost use Rattle.debug_session.specs.Input.{Gives, Ends};
ghost use Rattle.debug_session.specs.Transcripts.{Read, Write};

use crate::Input;
use crate::input::InputFault;
use crate::notes::Notes;
use crate::session::{PacketReader, Session};
use debug_ways::{Cursor, Machine};
use sloth_base::{Name, NoMemory};
use sloth_io::{Sink, SinkFault};
use std::alloc::Global;

/// Why a session broke off.
#[derive(Clone, Copy)]
pub enum SessionFault {
    /// A byte could not be read, or there are too many of them.
    Read,
    /// A reply could not be written.
    Write,
    NoMemory,
}

// Answers what comes behind the bytes that were read: up to 2^64 - 1 further bytes, so that it ends.
fn serve_bytes<I: Input, S: Sink, M: Machine>(
    alloc: Global,
    input: &mut I,
    out: &mut S,
    transcript: &mut Transcript,
    cursor: &mut Cursor<M>,
    names: &[Name],
    reader: &mut PacketReader,
) -> Result<(), SessionFault>
    requires fresh { reader.old ≡ fresh }
    requires few { length names.now ≤ task_limit }
    ensures ended { HasEnded (cursor_run M.run cursor.old) names.now (I.coming input.old) (I.given input.old)
        (I.given input.new)
        transcript.old.notes.items transcript.new.notes.items (S.seen out.old) (S.seen out.new) result }
    ensures passed { IsHandedOn result (S.passed_on out.old) (S.passed_on out.new) }
    ensures run { cursor_run M.run cursor.new ≡ cursor_run M.run cursor.old }
{
    let mut session = Session::new(alloc);
    for _count in 0..u64::MAX {
        if session.is_over() {
            return Ok(());
        }
        let byte = match transcript.next(input) {
            Ok(Some(byte)) => byte,
            Ok(None) => return Ok(()),
            Err(_) => return Err(SessionFault::Read),
        };
        let event = reader.take(byte);
        let mut due = Vec::new(alloc);
        match session.answer(alloc, &mut due, cursor, names, event, reader.content()) {
            Ok(()) => {}
            Err(NoMemory) => return Err(SessionFault::NoMemory),
        }
        match transcript.deliver(out, due.as_slice()) {
            Ok(()) => {}
            Err(_) => return Err(SessionFault::Write),
        }
    }
    Err(SessionFault::Read)
}

/// Answers until the session is over or nothing more comes. Each reply is handed on before the next byte is asked for.
pub fn serve<I: Input, S: Sink, M: Machine>(
    alloc: Global,
    input: &mut I,
    out: &mut S,
    transcript: &mut Transcript,
    cursor: &mut Cursor<M>,
    names: &[Name],
) -> Result<(), SessionFault>
    requires few { length names.now ≤ task_limit }
    ensures ended { HasEnded (cursor_run M.run cursor.old) names.now (I.coming input.old) (I.given input.old)
        (I.given input.new)
        transcript.old.notes.items transcript.new.notes.items (S.seen out.old) (S.seen out.new) result }
    ensures passed { IsHandedOn result (S.passed_on out.old) (S.passed_on out.new) }
    ensures run { cursor_run M.run cursor.new ≡ cursor_run M.run cursor.old }
{
    match PacketReader::new(alloc) {
        Ok(reader) => {
            let mut reader = reader;
            serve_bytes(alloc, input, out, transcript, cursor, names, &mut reader)
        }
        Err(_) => Err(SessionFault::NoMemory),
    }
}

/// What was read and written so far. A clause reads it as `notes.items`.
#[derive(Drop)]
pub struct Transcript {
    notes: Notes,
}

impl Transcript {
    /// That of a session that has not begun.
    pub fn new() -> Transcript
        ensures { result.notes.items ≡ [] }
    {
        Transcript {
            notes: Notes::new(),
        }
    }

    /// The next byte of an input, or none at its end.
    pub fn next<I: Input>(&mut self, input: &mut I) -> Result<Option<u8>, InputFault>
        ensures byte { IfOk result (λ next. IfSome next (λ byte. Gives (I.coming input.old) (I.coming input.new) (byte
            ∷ []))) }
        ensures end { IfOk result (λ next. IfNone next (Ends (I.coming input.old) (I.coming input.new) false)) }
        ensures err { OnErr result (Ends (I.coming input.old) (I.coming input.new) true) }
        ensures given { IfOk result (λ next. I.given input.new ≡ I.given input.old ++ option_to_list next) }
        ensures kept_given { OnErr result (I.given input.new ≡ I.given input.old) }
        ensures noted { IfOk result (λ next. self.new.notes.items
            ≡ self.old.notes.items ++ Read (option_to_list next) ∷ []) }
        ensures noted_fault { OnErr result (self.new.notes.items ≡ self.old.notes.items ++ Read [] ∷ []) }
    {
        let next = input.next();
        match next {
            Ok(Some(byte)) => self.notes = self.notes.with_read(&[byte]),
            Ok(None) => self.notes = self.notes.with_read(b""),
            Err(_) => self.notes = self.notes.with_read(b""),
        }
        next
    }

    /// Puts what is due, and hands it on.
    pub fn deliver<S: Sink>(&mut self, out: &mut S, due: &[u8]) -> Result<(), SinkFault>
        ensures whole { OnOk result (S.seen out.new ≡ output_with (S.seen out.old) due.now) }
        ensures part { OnErr result (GainsPart (S.seen out.old) (S.seen out.new) due.now) }
        ensures passed { OnOk result (S.passed_on out.old → S.passed_on out.new) }
        ensures noted { OnOk result (self.new.notes.items ≡ self.old.notes.items ++ Write due.now ∷ []) }
        ensures kept { OnErr result (self.new.notes.items ≡ self.old.notes.items) }
    {
        if due.is_empty() {
            self.notes = self.notes.with_write(due);
            return Ok(());
        }
        out.put(due)?;
        out.flush()?;
        self.notes = self.notes.with_write(due);
        Ok(())
    }
}
