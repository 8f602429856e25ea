//! Puts summaries.
ghost use Rattle.std.specs.Prelude.{◌≡◌, ◌<◌, OnOk, OnErr};
ghost use Rattle.sloth_io.specs.Sink.{output_with, GainsPart};
ghost use Rattle.trace_text.specs.Summary.{kind_line, summary_text};

use sloth_io::{Sink, SinkFault};
use trace_text::{KINDS, kind_line};

fn put_kind<S: Sink>(counts: &[u32; KINDS], kind: usize, out: &mut S) -> Result<(), SinkFault>
    requires { kind < 10 }
    ensures ok { OnOk result (S.seen out.new ≡ output_with (S.seen out.old) (kind_line counts.now kind)) }
    ensures err { OnErr result (GainsPart (S.seen out.old) (S.seen out.new) (kind_line counts.now kind)) }
{
    out.put(kind_line(counts, kind).bytes())
}

/// Puts the summary of these numbers of events, a line at a time.
pub fn put_summary<S: Sink>(counts: &[u32; KINDS], out: &mut S) -> Result<(), SinkFault>
    ensures ok { OnOk result (S.seen out.new ≡ output_with (S.seen out.old) (summary_text counts.now)) }
    ensures err { OnErr result (GainsPart (S.seen out.old) (S.seen out.new) (summary_text counts.now)) }
{
    for kind in 0..KINDS {
        put_kind(counts, kind, out)?;
    }
    Ok(())
}
