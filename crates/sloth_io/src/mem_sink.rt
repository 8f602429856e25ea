//! A sink in memory.
ghost use Rattle.std.specs.Prelude.{◌≡◌, ◌≤◌, ◌++◌, [], ◌∷◌, IfOk, OnErr, OnOk, is_ok, is_err};
ghost use Rattle.sloth_io.specs.Counts.{count_after_call};
ghost use Rattle.sloth_io.specs.MemSink.{IsSinkCalled, IsFreshSink, limit_of, shown_output, taken_by, put_pieces};
ghost use Rattle.sloth_io.specs.MemSink.{bytes_after_call, is_next_piece_taken};
ghost use Rattle.sloth_io.specs.Sink.{output_with, GainsPart};

use crate::buffer::Buffer;
use crate::history::History;
use crate::{Sink, SinkFault};
use sloth_base::Result;
use std::alloc::Global;

/// A buffer whose space is reserved as it is made, and the calls that are to fail: each by its number, counted from 1,
/// with the bytes that it takes before it fails. It tells the bytes taken, and the pieces that were put.
#[derive(Drop)]
pub struct MemSink {
    buffer: Buffer,
    fails: Vec<(u32, u32)>,
    calls: u32,
    faults: u64,
    pieces: History,
}

fn call_limit(fails: &[(u32, u32)], call: u32) -> Option<u32>
    ensures { result ≡ limit_of call fails.now }
{
    for (number, limit) in fails {
        if *number == call {
            return Some(*limit);
        }
    }
    None
}

impl MemSink {
    /// An empty sink with space for so many bytes.
    pub fn new(alloc: Global, space: u32, fails: &[(u32, u32)]) -> Result<MemSink>
        ensures { IfOk result (IsFreshSink space fails.now) }
    {
        let buffer = Buffer::new(alloc, space)?;
        let fails = Vec::from_slice(alloc, fails)?;
        Ok(MemSink {
            buffer,
            fails,
            calls: 0,
            faults: 0,
            pieces: History::new(),
        })
    }

    /// The bytes taken.
    pub fn taken(&self) -> &[u8]
        ensures { result.now ≡ taken_by self.now }
    {
        self.buffer.bytes()
    }
}

impl Sink for MemSink {
    ghost seen = { λ sink. shown_output sink };

    // It holds nothing back.
    ghost passed_on = { λ _. Unit {0} };

    ghost pieces = { λ sink. put_pieces sink };

    fn put(&mut self, piece: &[u8]) -> Result<(), SinkFault>
        ensures ok { OnOk result (shown_output self.new ≡ output_with (shown_output self.old) piece.now) }
        ensures err { OnErr result (GainsPart (shown_output self.old) (shown_output self.new) piece.now) }
        ensures never_falls { self.old.faults ≤ self.new.faults }
        ensures pieces { put_pieces self.new ≡ put_pieces self.old ++ piece.now ∷ [] }

        // It fails exactly at the calls that are to fail, and where there is no space for the piece.
        ensures done { is_ok result ≡ is_next_piece_taken self.old piece.now }
        ensures taken { taken_by self.new ≡ bytes_after_call self.old piece.now }
        ensures faults { self.new.faults ≡ count_after_call (is_err result) self.old.faults }
        ensures called { IsSinkCalled self.old self.new }
    {
        self.pieces = self.pieces.and(b"", piece);
        self.calls = self.calls.saturating_add(1);
        let limit = call_limit(self.fails.as_slice(), self.calls);
        let part = match limit {
            Some(limit) => &piece[..piece.len().min(limit as usize)],
            None => piece,
        };
        if self.buffer.append(part) && limit.is_none() {
            return Ok(());
        }
        self.faults = self.faults.saturating_add(1);
        Err(SinkFault::Failed)
    }

    fn flush(&mut self) -> Result<(), SinkFault> {
        Ok(())
    }
}
