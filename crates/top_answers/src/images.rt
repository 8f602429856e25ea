//! Public calls on the image file.
ghost use Rattle.sloth_base.specs.ImageRange.{InFormat};

use crate::events::{list_events, list_steps};
use crate::machine::{list_machine, list_pairs, list_word};
use crate::rows::Piece::{Bytes, Flag, Number};
use crate::rows::{Rows, Told, shown};
use crate::texts::{Texts, short};
use image_file::{read_image, write_image};
use sloth_base::{BuildError, Image};
use sloth_cli::{RunEnd, Runner};
use sloth_io::MemSink;
use trace_text::{Form, listing_line, read_arrivals};

// What an observer tells of the steps before, what a `run` puts, or how many of its events are entries.
fn list_runs(rows: &mut Rows, asked: &str, image: &Image, texts: &Texts) -> Told
    requires { InFormat image.now }
{
    let (arr, tasks) = (short(&texts.arr)?, image.tasks.items());
    let arrivals = read_arrivals(rows.alloc, arr, tasks, image.counters.items())?;
    if asked == "steps" {
        return list_steps(rows, image, arrivals.as_slice(), shown(&texts.lines));
    }
    let mut runner = Runner::new(rows.alloc, image, arrivals.as_slice())?;
    if asked == "entries" {
        rows.numbers("entries", &[runner.tally(400).counts[2]]);
        return Ok(());
    }
    let mut out = MemSink::new(rows.alloc, 100_000, &[])?;
    let whole = matches!(runner.run(400, Form::Counted, &mut out), Ok(RunEnd::Whole));
    form!(rows; "run % %\n"; Flag(whole); out.taken().len());
    Ok(())
}

// The image as lines (`listing`), as memory, as it runs, or as a `file`: its length, and whether its memory is read back.
fn list_asked(rows: &mut Rows, asked: &str, image: &Image, texts: &Texts) -> Told
    requires { InFormat image.now }
{
    match asked {
        "file" => {
            let file = write_image(rows.alloc, image)?;
            let again = match read_image(rows.alloc, &file) {
                Ok(read) => read.memory.items() == image.memory.items(),
                Err(_) => false,
            };
            form!(rows; "file % read back %\n"; Number(file.len() as i64), Flag(again))
        }
        "listing" => form!(rows; "listing %\n"; Bytes(listing_line(image, 0).bytes())),
        "word" => return list_word(rows, image),
        "stops" => return list_pairs(rows, true, image, shown(&texts.lines)),
        "touched" => return list_pairs(rows, false, image, shown(&texts.lines)),
        "events" => list_events(rows, image),
        "steps" | "run" | "entries" => return list_runs(rows, asked, image, texts),
        _ => return list_machine(rows, asked, image),
    }
    Ok(())
}

/// Answers what public calls give of the image file.
pub fn list_image_file(rows: &mut Rows, asked: &str, texts: &Texts) -> Told {
    let image = read_image(rows.alloc, &texts.img).map_err(|_| BuildError::Memory)?;
    list_asked(rows, asked, &image, texts)
}
