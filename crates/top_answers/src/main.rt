//! Runs commands of the program on files in memory, and prints what they print and how they end. A text ends before a
//! line `=== oil`, `=== src`, `=== arr` or `=== img`, which says what it is; it stays until the next one of its kind. A
//! line `%repeat N TEXT` in it stands for copies (`Texts::add_line`). Other lines after `=== `:
//! - `image HEX` makes the image file of these bytes, `change AT HEX` writes bytes over those from a place on (`-AT`
//!   counts from the end) and behind its end; `drop 2` takes out line 2, `shorten` the last byte;
//! - `text` prints the image file as a text, `checksum` how many bytes it has and a checksum of them;
//! - `cut` and a command, such as `exec img arr 10`: run with the image file cut to each length; each new answer is
//!   printed. `lengthened`, a number and a command: with 0 to so many line feeds more after each text, likewise;
//! - `keep` and a command: what it prints takes the place of the image file;
//! - `both` and two commands with ` / ` between them: run one after the other, and whether they answer alike;
//! - `failing`, and calls of the store, calls of the sink and a command with ` / ` between them, such as `3 4 / 2:1 /
//!   build oil src img`: calls 3 and 4 of the store fail, and call 2 of the sink once it has taken a byte; after the
//!   answer stands whether the image file is as before, the image that is left where no call fails, or another. The
//!   image file is then put back;
//! - `summed` and a command: how it ends, how many lines it prints and a checksum of them;
//! - `sweep`, and words such as `1 400 High / run oil src arr img 3000 / once enter High / each run High High 0 /
//!   last`: the command is run with one arrival of the task at each of the moments, and what the questions ask of the
//!   lines of all runs is printed;
//! - a command, such as `order oil src arr img 5000`, or nothing, for one without words. The image file that it leaves
//!   is kept; one that reads the image file writes to `out`, which takes its place. On the input of `debug img arr`
//!   comes the OIL text.
//!
//! What the readers alone make of a text is asked by `read` and a word after it: `tokens`, `tree` and `config` of an
//! OIL text, `counts`, `listing`, `sizes` and `stacks` of task source, `load` of a load, beside the last OIL text, or
//! `generated 7 2` of the application of the seed 7 with 2 tasks. These texts have no line feed after their last line.
//! `instructions` asks for the instruction of each word that stands before it on a line, in hexadecimal; `words boot`
//! and the like for the code of a kernel of the last OIL text (`kernel`); `source sizes` and the like for what public
//! calls give of both texts that no command shows (`sources`), `calls file` and the like of the image file (`images`):
//! `stops` and `touched` of a machine that executes the two words in front of each line before, `steps` of an observer
//! that is fed the steps before (`events`). `region`, `instruction`, `controller` and `summary` need no file.
//!
//! The lines before `=== system` say what is done with files of the system (`system`): the folder `data` has those of
//! commands, and the picture of a run that the README shows is drawn anew and compared with the file `door.svg`. At
//! last the program does as `sloth` does with its own words, and ends with the status 2 of refused texts.
#![tactic(auto)]

// Appends a text to rows, in which a piece stands for each `%`, or behind the pieces a number.
macro_rules! form {
    ($rows:expr; $text:expr; $($piece:expr),*) => { $rows.form($text, &[$($piece),*]) };
    ($rows:expr; $text:expr; $($piece:expr),*; $($number:expr),*) => {
        $rows.form($text, &[$($piece,)* $($crate::rows::Piece::Number(($number) as i64)),*])
    };
}

// Appends the text behind the pattern of a value, with the pieces and numbers of its fields.
macro_rules! form_value {
    ($rows:expr, $value:expr; $($shape:pat => $text:literal [$($piece:expr),*] $($number:expr),*;)*) => {
        match $value { $($shape => form!($rows; $text; $($piece),*; $($number),*),)* }
    };
}

mod commands;
mod configuration;
mod events;
mod images;
mod instructions;
mod kernel;
mod machine;
mod readers;
mod rows;
mod sources;
mod sweeps;
mod system;
mod task_code;
mod texts;

use crate::commands::{checksum, run, run_both, run_failing, run_series};
use crate::events::list_summary;
use crate::images::list_image_file;
use crate::instructions::{list_instruction, list_instructions};
use crate::machine::{list_controller, list_region};
use crate::readers::{answer_read, list_error};
use crate::rows::Piece::{Address, Number};
use crate::rows::{Rows, Told, shown};
use crate::sources::list_sources;
use crate::sweeps::run_sweep;
use crate::system::list_system;
use crate::texts::Texts;
use sloth_cli::run_program;
use std::io::{Input, Read};
use std::process::ExitCode;
use std::rt::Files;

// Answers a question, whose first word and further words these are.
fn answer(rows: &mut Rows, asked: &str, word: &str, rest: &str, texts: &mut Texts) -> Told {
    match word {
        "text" => rows.text(shown(&texts.img)),
        "checksum" => {
            let sum = checksum(&texts.img);
            form!(rows; "% bytes %\n"; Number(texts.img.len() as i64), Address(sum))
        }
        "both" => run_both(rows, rest, texts),
        "cut" | "lengthened" => run_series(rows, word, rest, texts),
        "failing" => run_failing(rows, rest, texts),
        "sweep" => run_sweep(rows, rest, texts),
        "keep" | "summed" => run(rows, word, rest, texts),
        "source" => return list_sources(rows, rest, texts),
        "calls" => return list_image_file(rows, rest, texts),
        "instructions" => list_instructions(rows, shown(&texts.lines)),
        "instruction" => list_instruction(rows),
        "region" => list_region(rows, rest, shown(&texts.lines)),
        "controller" => list_controller(rows),
        "summary" => list_summary(rows),
        "words" => return answer_read(rows, asked, texts),
        "read" => {
            let told = answer_read(rows, rest, texts);
            list_error(rows, told);
            rows.text("===\n");
        }
        _ => run(rows, "", asked, texts),
    }
    Ok(())
}

// Reads a line, and after `=== ` does what it asks for with the lines before it.
fn answer_line(
    rt: &(impl Files + Print + Input + AllocGlobal),
    rows: &mut Rows,
    line: &[u8],
    texts: &mut Texts,
) {
    match line.strip_prefix(b"=== ") {
        Some(asked) => {
            let asked = shown(asked);
            let (word, rest) = asked.split_once(' ').unwrap_or((asked, ""));
            if word == "system" {
                list_system(rt, rows, shown(&texts.lines));
            } else if !texts.alter(rows.alloc, word, rest) {
                let told = answer(rows, asked, word, rest, texts);
                list_error(rows, told);
            }
            texts.lines.clear();
        }
        None => texts.add_line(rows.alloc, line),
    }
}

// Answers what is asked on standard input.
fn list_answers(rt: &(impl Files + Print + Input + AllocGlobal)) {
    let mut rows = Rows::new(rt.alloc());
    let mut texts = Texts::new(rt.alloc());
    let mut input = Vec::new(rt.alloc());
    if rt.reader().read_to_end(&mut input).is_err() {
        rows.leave_out();
    }
    for line in input.split(|byte| *byte == b'\n') {
        answer_line(rt, &mut rows, line, &mut texts);
    }
    rows.print(rt);
}

fn main(rt: HostRuntime) -> ExitCode {
    list_answers(&rt);
    run_program(&rt)
}
