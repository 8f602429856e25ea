//! Standard output.
ghost use Rattle.std.specs.Prelude.{◌≡◌, ◌≤◌, ◌++◌, [], ◌∷◌, Some, false, OnErr, OnOk};
ghost use Rattle.sloth_io.specs.Buffered.{bytes_in, IsPrefix, IsGivenBut, IsLostBehind};

use crate::buffered::Buffered;
use crate::history::History;
use crate::{Sink, SinkFault};
use std::io::{self, Write};

/// Standard output, behind a buffer. It tells the bytes that were put and those that were given to the system, and
/// counts its faults. Behind a failure each call fails.
#[derive(Drop)]
pub struct OutSink<'a, P> {
    to: Buffered<Printer<'a, P>>,
    faults: u64,
    broken: bool,
    accepted: History,
    pub ghost front: { IsPrefix (bytes_in to.to.given.items) (bytes_in accepted.items) },
    pub ghost but: { IsGivenBut broken (bytes_in accepted.items) (bytes_in to.to.given.items) to.backlog },
    pub ghost lost: { IsLostBehind broken to.backlog },
}

impl<'a, P: Print> OutSink<'a, P> {
    ghost use Rattle.sloth_io.specs.OutSink.{shown_output, accepted_bytes, given_bytes, held_back_bytes};

    /// What this handle prints to, with no fault counted, nothing put and nothing held back.
    pub fn new(to: &'a P) -> OutSink<'a, P>
        ensures faults { (shown_output result).faults ≡ 0 }
        ensures accepted { accepted_bytes result ≡ [] }
        ensures given { given_bytes result ≡ [] }
        ensures backlog { held_back_bytes result ≡ [] }
    {
        OutSink {
            to: Buffered::new(Printer {
                to,
                given: History::new(),
            }),
            faults: 0,
            broken: false,
            accepted: History::new(),
        }
    }
}

// What a handle prints to, as a writer, with the bytes that the system took.
#[derive(Drop)]
struct Printer<'a, P> {
    to: &'a P,
    given: History,
}

impl<'a, P: Print> Write for Printer<'a, P> {
    ghost contents = { λ printer. Some (bytes_in printer.given.items) };

    fn write(&mut self, bytes: &[u8]) -> io::Result<usize> {
        let count = self.to.write_some(bytes)?;
        self.given = self.given.and(b"", &bytes[..count]);
        Ok(count)
    }

    fn flush(&mut self) -> io::Result<()> {
        Ok(())
    }
}

impl<'a, P: Print> Sink for OutSink<'a, P> {
    ghost use Rattle.sloth_io.specs.Sink.{output_with, GainsPart, FailsToPassOn};
    ghost use Rattle.sloth_io.specs.OutSink.{shown_output, put_pieces, held_back_bytes, EndsWith, IsPassedOn};

    ghost seen = { λ sink. shown_output sink };

    ghost passed_on = { λ sink. IsPassedOn sink };

    ghost pieces = { λ sink. put_pieces sink };

    fn put(&mut self, piece: &[u8]) -> Result<(), SinkFault>
        ensures ok { OnOk result (shown_output self.new ≡ output_with (shown_output self.old) piece.now) }
        ensures err { OnErr result (GainsPart (shown_output self.old) (shown_output self.new) piece.now) }
        ensures never_falls { (shown_output self.old).faults ≤ (shown_output self.new).faults }
        ensures pieces { put_pieces self.new ≡ put_pieces self.old ++ piece.now ∷ [] }

        // What is not written of the bytes taken is held back.
        ensures kept { OnOk result (EndsWith (held_back_bytes self.old ++ piece.now) (held_back_bytes self.new)) }
    {
        let outcome = if self.broken {
            Err(SinkFault::Failed)
        } else {
            self.to.put(piece)
        };
        self.accepted = self.accepted.and(b"", piece);
        if outcome.is_err() {
            self.broken = true;
            self.faults = self.faults.saturating_add(1);
        }
        outcome
    }

    fn flush(&mut self) -> Result<(), SinkFault>
        ensures ok { OnOk result (shown_output self.new ≡ shown_output self.old) }
        ensures passed { OnOk result (IsPassedOn self.new) }
        ensures err { OnErr result (FailsToPassOn (shown_output self.old) (shown_output self.new)) }
        ensures never_falls { (shown_output self.old).faults ≤ (shown_output self.new).faults }
        ensures pieces { put_pieces self.new ≡ put_pieces self.old }
        ensures backlog { held_back_bytes self.new ≡ [] }
    {
        let outcome = if self.broken {
            Err(SinkFault::Failed)
        } else {
            self.to.flush()
        };
        if outcome.is_err() {
            self.broken = true;
            self.faults = self.faults.saturating_add(1);
        }
        outcome
    }
}
