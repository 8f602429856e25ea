//! A writer behind a buffer. Bytes that are taken and not yet written.
ghost use Rattle.std.specs.Prelude.{◌≡◌, ◌++◌, [], OnErr, OnOk, ◌+◌, ◌≤◌, length};
ghost use Rattle.std.specs.Io.KnownBytes.{Appends};
ghost use Rattle.sloth_io.specs.Buffered.{PassesOn, BreaksOff};

use crate::SinkFault;
use crate::replaced_files::write_whole;
use std::io::Write;
use std::marker::Model;

/// A writer, and the bytes that were put and are not yet written to it. Behind a failure nothing is held back.
#[derive(Drop)]
pub struct Buffered<W> {
    to: W,
    backlog: Backlog,
}

fn write_all<W: Write>(to: &mut W, bytes: &[u8]) -> Result<(), SinkFault>
    ensures ok { OnOk result (Appends (W.contents to.old) (W.contents to.new) bytes.now) }
    ensures err { OnErr result (BreaksOff (W.contents to.old) (W.contents to.new) bytes.now) }
{
    if write_whole(to, bytes) == bytes.len() {
        Ok(())
    } else {
        Err(SinkFault::Failed)
    }
}

impl<W: Write> Buffered<W> {
    /// This writer, with nothing held back.
    pub fn new(to: W) -> Buffered<W>
        ensures writer { result.to ≡ to }
        ensures backlog { result.backlog ≡ [] }
    {
        Buffered {
            to,
            backlog: Backlog::new(),
        }
    }

    /// Writes what is held back.
    pub fn flush(&mut self) -> Result<(), SinkFault>
        ensures ok { OnOk result (Appends (W.contents self.old.to) (W.contents self.new.to) self.old.backlog) }
        ensures err { OnErr result (BreaksOff (W.contents self.old.to) (W.contents self.new.to) self.old.backlog) }
        ensures backlog { self.new.backlog ≡ [] }
    {
        let outcome = write_all(&mut self.to, self.backlog.bytes());
        self.backlog.clear();
        outcome
    }

    /// Puts bytes behind those that are held back, and writes where there is no room for them.
    pub fn put(&mut self, piece: &[u8]) -> Result<(), SinkFault>
        ensures ok { OnOk result (PassesOn (W.contents self.old.to) (W.contents self.new.to)
            (self.old.backlog ++ piece.now) self.new.backlog) }
        ensures err { OnErr result
            (BreaksOff (W.contents self.old.to) (W.contents self.new.to) (self.old.backlog ++ piece.now)) }
        ensures lost { OnErr result (self.new.backlog ≡ []) }
    {
        if piece.len() <= self.backlog.room() {
            self.backlog.push(piece);
            return Ok(());
        }
        self.flush()?;
        self.begin(piece)
    }

    fn begin(&mut self, piece: &[u8]) -> Result<(), SinkFault>
        requires { self.old.backlog ≡ [] }
        ensures ok { OnOk result
            (PassesOn (W.contents self.old.to) (W.contents self.new.to) piece.now self.new.backlog) }
        ensures err { OnErr result (BreaksOff (W.contents self.old.to) (W.contents self.new.to) piece.now) }
        ensures lost { OnErr result (self.new.backlog ≡ []) }
    {
        if piece.len() > MOST {
            return write_all(&mut self.to, piece);
        }
        self.backlog.push(piece);
        Ok(())
    }
}

/// The greatest number of bytes that are held back.
pub const MOST: usize = 8192;

/// At most 8,192 bytes. Contracts see them as a list. Calls on it take no memory.
#[derive(Drop)]
pub struct Backlog {
    bytes: [u8; MOST],
    count: usize,
}

impl Model for Backlog {
    ghost use Rattle.std.specs.Prelude.{List, ℕ, take, ◌≤◌};

    ghost Value = { List ℕ };

    ghost view = { λ backlog. take backlog.count backlog.bytes };

    ghost invariant = { λ backlog. backlog.count ≤ 8192 };
}

impl Backlog {
    /// No bytes.
    pub fn new() -> Backlog
        ensures { result ≡ [] }
    {
        Backlog {
            bytes: [0; MOST],
            count: 0,
        }
    }

    /// The bytes.
    pub fn bytes(&self) -> &[u8]
        ensures { result.now ≡ self.now }
    {
        &self.bytes[..self.count]
    }

    /// How many bytes more it can have.
    pub fn room(&self) -> usize
        ensures { result + length self.now ≡ 8192 }
    {
        MOST - self.count
    }

    /// Appends bytes.
    pub fn push(&mut self, piece: &[u8])
        requires { length self.old + length piece.now ≤ 8192 }
        ensures { self.new ≡ self.old ++ piece.now }
    {
        let end = self.count + piece.len();
        self.bytes[self.count..end].copy_from_slice(piece);
        self.count = end;
    }

    /// Has no bytes any more.
    pub fn clear(&mut self)
        ensures { self.new ≡ [] }
    {
        self.count = 0;
    }
}
