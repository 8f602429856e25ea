//! Where lines are printed. Texts that are put line by line.
ghost use Rattle.std.specs.Prelude.{◌≡◌, ◌≤◌, ◌++◌, ℕ, List, [], ◌∷◌, OnErr, OnOk, ◌<◌, length};
ghost use Rattle.sloth_io.specs.Sink.{Output, output_with, GainsPart, FailsToPassOn};
ghost use Rattle.sloth_io.specs.Lines.{lines_in, line_size, BreaksOffInLine};

use thiserror::Error;

/// Why a sink refused a piece.
#[derive(Clone, Copy, Debug, Error)]
pub enum SinkFault {
    #[error("the bytes could not be written")]
    Failed,
}

/// Where bytes go. A sink tells the pieces put, may tell what it took, counts faults; `flush` hands on what it holds.
pub trait Sink {
    /// What the sink took and how much more it takes, where it tells that, and its count.
    ghost seen: { Self → Output };

    /// What was taken was handed on.
    ghost passed_on: { Self → Type 0 };

    /// The pieces that were put, in their order, those of calls that failed too.
    ghost pieces: { Self → List (List ℕ) };

    /// Takes a piece; on a failure, some first part of it. A failed call alone is counted.
    fn put(&mut self, piece: &[u8]) -> Result<(), SinkFault>
        ensures ok { OnOk result (seen self.new ≡ output_with (seen self.old) piece.now) }
        ensures err { OnErr result (GainsPart (seen self.old) (seen self.new) piece.now) }
        ensures never_falls { (seen self.old).faults ≤ (seen self.new).faults }
        ensures pieces { pieces self.new ≡ pieces self.old ++ piece.now ∷ [] };

    /// Hands on what was taken and is held back. Nothing that is taken changes. A failed call alone is counted; a sink
    /// that tells its space has none.
    fn flush(&mut self) -> Result<(), SinkFault>
        ensures ok { OnOk result (seen self.new ≡ seen self.old) }
        ensures passed { OnOk result (passed_on self.new) }
        ensures err { OnErr result (FailsToPassOn (seen self.old) (seen self.new)) }
        ensures never_falls { (seen self.old).faults ≤ (seen self.new).faults }
        ensures pieces { pieces self.new ≡ pieces self.old };
}

fn line_length(text: &[u8]) -> usize
    ensures size { result ≡ line_size text.now }
    ensures within { result ≤ length text.now }
    ensures some { 0 < length text.now → 0 < result }
{
    for (place, byte) in text.iter().enumerate() {
        if *byte == b'\n' {
            return place + 1;
        }
    }
    text.len()
}

/// Puts a text, a line at a time.
pub fn put_lines<S: Sink>(out: &mut S, text: &[u8]) -> Result<(), SinkFault>
    ensures ok { OnOk result (S.seen out.new ≡ output_with (S.seen out.old) text.now) }
    ensures err { OnErr result (GainsPart (S.seen out.old) (S.seen out.new) text.now) }
    ensures pieces { OnOk result (S.pieces out.new ≡ S.pieces out.old ++ lines_in text.now) }
    ensures broken { OnErr result
        (BreaksOffInLine (S.seen out.old) (S.seen out.new) (S.pieces out.old) (S.pieces out.new) text.now) }
{
    let mut rest = text;
    while !rest.is_empty() {
        let (line, behind) = rest.split_at(line_length(rest));
        out.put(line)?;
        rest = behind;
    }
    Ok(())
}
