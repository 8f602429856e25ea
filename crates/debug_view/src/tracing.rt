//! The text of a run's events, as `exec` prints it.
ghost use Rattle.std.specs.Prelude.{◌≡◌, ◌≤◌, ◌++◌, IfOk, OnOk};
ghost use Rattle.sloth_base.specs.Arrivals.{AreArrivals};
ghost use Rattle.sloth_base.specs.ImageRange.{InFormat};
ghost use Rattle.sloth_base.specs.Limits.{count_limit};
ghost use Rattle.sloth_base.specs.Owners.{owners_named};
ghost use Rattle.sloth_io.specs.MemSink.{taken_by};
ghost use Rattle.sloth_runner.specs.Runner.{run_text};
ghost use Rattle.trace_text.specs.declared.events.Form.TheVariants as form;

use sloth_base::{Arrival, Image, NoMemory, Result};
use sloth_io::MemSink;
use sloth_runner::Runner;
use std::alloc::Global;
use trace_text::Form;

/// The most bytes of the text. A run of 1,000,000 instructions has an event for each at most.
const TEXT_BYTES: u32 = 256 * 1024 * 1024;

fn run_sink<'a>(alloc: Global, image: &'a Image, arrivals: &'a [Arrival], n: u32) -> Result<MemSink>
    requires format { InFormat image.now }
    requires arrivals { AreArrivals (owners_named image.now) arrivals.now }
    requires few { n ≤ count_limit }
    ensures { IfOk result (λ sink. taken_by sink ≡ run_text image.now arrivals.now form.Counted n) }
{
    let mut sink = MemSink::new(alloc, TEXT_BYTES, &[])?;
    let mut runner = Runner::new(alloc, image, arrivals)?;
    match runner.run(n, Form::Counted, &mut sink) {
        Ok(_) => Ok(sink),
        Err(_) => Err(NoMemory),
    }
}

/// Puts the line of each event that so many instructions of a run bring, with its count.
pub fn put_run_text<'a>(
    alloc: Global,
    out: &mut Vec<u8>,
    image: &'a Image,
    arrivals: &'a [Arrival],
    counts: u32,
) -> Result<()>
    requires format { InFormat image.now }
    requires arrivals { AreArrivals (owners_named image.now) arrivals.now }
    requires few { counts ≤ count_limit }
    ensures { OnOk result (out.new.items ≡ out.old.items ++ run_text image.now arrivals.now form.Counted counts) }
{
    let sink = run_sink(alloc, image, arrivals, counts)?;
    out.extend_from_slice(sink.taken())?;
    Ok(())
}
