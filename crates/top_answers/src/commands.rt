//! Commands on files in memory.
ghost use Rattle.std.specs.Prelude.{◌≡◌, ◌≤◌, IfOk, length};

use crate::rows::Piece::{Address, Number, Text};
use crate::rows::{Rows, shown};
use crate::texts::{LONGEST, Texts, add, append, number_before, push, refill};
use debug_command::{debug, debug_words};
use debug_session::{MemInput, Transcript};
use sloth_base::{List, Name, NoMemory, Result};
use sloth_cli::{Status, sloth_top};
use sloth_io::{MemFile, MemSink, MemStore};
use std::alloc::Global;

/// The bytes that an image file may have, and those that a command may print.
const SPACE: u32 = 2_200_000;

// A file with this space, or with that for its own bytes where they are more; none of more than 16,000,000 bytes.
fn file(alloc: Global, name: &[u8], bytes: &[u8], space: u32) -> Result<MemFile>
    ensures name { IfOk result (λ file. file.name ≡ name.now) }
    ensures within { IfOk result (λ file. length file.bytes ≤ file.space) }
{
    if bytes.len() > LONGEST {
        return Err(NoMemory);
    }
    let size = bytes.len() as u32;
    Ok(MemFile {
        name: Name::new(alloc, name)?,
        bytes: List::from_vec(Vec::from_slice(alloc, bytes)?),
        space: size.max(space),
    })
}

// The texts, this image file, and a file `out`, which holds nothing. These calls fail.
fn store(alloc: Global, texts: &Texts, img: &[u8], fails: &[u32]) -> Result<MemStore> {
    let oil = file(alloc, b"oil", &texts.oil, 0)?;
    let src = file(alloc, b"src", &texts.src, 0)?;
    let arr = file(alloc, b"arr", &texts.arr, 0)?;
    let img = file(alloc, b"img", img, SPACE)?;
    let out = file(alloc, b"out", b"", SPACE)?;
    MemStore::new(alloc, &[arr, img, oil, out, src], fails)
}

/// The words of a line; an empty line has none.
pub fn words(alloc: Global, line: &str) -> Vec<String> {
    let mut words = Vec::new(alloc);
    if line.is_empty() {
        return words;
    }
    for word in line.split(' ') {
        if let Ok(text) = String::from_str(alloc, word) {
            add(&mut words, text);
        }
    }
    words
}

/// What a command prints with how it ends, how many bytes it prints, and the image file after it, which is the file
/// `out` where that was written. The text is empty where memory was wanting.
#[derive(Drop)]
pub struct Outcome {
    pub text: String,
    printed: usize,
    img: Vec<u8>,
}

// Does what the words say. On the input of a session comes the OIL text.
fn top(alloc: Global, words: &[String], files: &mut MemStore, out: &mut MemSink) -> Status {
    let Some(asked) = debug_words(words) else {
        return sloth_top(alloc, words, files, out);
    };
    let mut bytes = Vec::new(alloc);
    append(&mut bytes, files.file("oil").unwrap_or(b""));
    let mut input = MemInput::new(bytes.as_slice(), false);
    let mut transcript = Transcript::new();
    debug(alloc, files, &mut input, out, &mut transcript, &asked)
}

/// Calls that are to fail: those of the store by their numbers from 1, and those of the sink, each with the bytes that
/// it takes before.
#[derive(Drop)]
pub struct Faults {
    store: Vec<u32>,
    sink: Vec<(u32, u32)>,
}

impl Faults {
    /// No calls.
    pub fn new(alloc: Global) -> Faults {
        Faults {
            store: Vec::new(alloc),
            sink: Vec::new(alloc),
        }
    }

    // Adds the calls that words name, of the store as `3`, of the sink as `2:1`.
    fn read(&mut self, words: &str) {
        for word in words.split(' ') {
            let (call, bytes) = word.split_once(':').unwrap_or((word, ""));
            match (call.parse::<u32>(), bytes.parse::<u32>()) {
                (Ok(call), Ok(bytes)) => add(&mut self.sink, (call, bytes)),
                (Ok(call), Err(_)) => add(&mut self.store, call),
                _ => {}
            }
        }
    }
}

/// What the command of a line makes of these files, where these calls fail.
pub fn command_outcome(
    alloc: Global,
    line: &str,
    texts: &Texts,
    img: &[u8],
    faults: &Faults,
) -> Outcome {
    let words = words(alloc, line);
    let mut outcome = Outcome {
        text: String::new(alloc),
        printed: 0,
        img: Vec::new(alloc),
    };
    if let Ok(files) = store(alloc, texts, img, &faults.store) {
        if let Ok(out) = MemSink::new(alloc, SPACE, &faults.sink) {
            let (mut files, mut out) = (files, out);
            let status = top(alloc, words.as_slice(), &mut files, &mut out);
            push(&mut outcome.text, shown(out.taken()));
            outcome.printed = out.taken().len();
            if let Ok(ended) = format!(in alloc; "=== {status:?}\n") {
                push(&mut outcome.text, &ended);
            }
            append(&mut outcome.img, files.file("out").unwrap_or(b""));
            if outcome.img.is_empty() {
                append(&mut outcome.img, files.file("img").unwrap_or(b""));
            }
        }
    }
    outcome
}

/// Runs the command of a line, and prints what it prints and how it ends, or, `summed`, how many lines it prints, their
/// CRC-32 and how it ends. The image file that it leaves is kept; or, `keep`, nothing is printed, and what it prints
/// takes the place of the image file.
pub fn run(rows: &mut Rows, word: &str, line: &str, texts: &mut Texts) {
    let none = Faults::new(rows.alloc);
    let outcome = command_outcome(rows.alloc, line, texts, &texts.img, &none);
    let text = outcome.text.as_str();
    let printed = text.as_bytes().get(..outcome.printed).unwrap_or(b"");
    match word {
        "keep" => return refill(&mut texts.img, printed),
        "summed" => {
            let (sum, ended) = (checksum(text.as_bytes()), text.lines().last().unwrap_or(""));
            let lines = text.lines().count();
            form!(rows; "% lines % %\n"; Number(lines as i64), Address(sum), Text(ended))
        }
        _ => rows.text(text),
    }
    refill(&mut texts.img, &outcome.img);
}

/// Runs two commands, which ` / ` divides, in turn, and prints how many bytes both answer, or that the answers differ.
pub fn run_both(rows: &mut Rows, lines: &str, texts: &mut Texts) {
    let (one, other) = lines.split_once(" / ").unwrap_or((lines, ""));
    let none = Faults::new(rows.alloc);
    let first = command_outcome(rows.alloc, one, texts, &texts.img, &none);
    let second = command_outcome(rows.alloc, other, texts, &first.img, &none);
    if first.text == second.text {
        form!(rows; "both % bytes\n"; ; first.text.len());
    } else {
        rows.text("they differ\n");
    }
    refill(&mut texts.img, &second.img);
}

// What the command of a line makes of these files, with the image file cut to this length.
fn cut_outcome(alloc: Global, line: &str, texts: &Texts, size: usize) -> Outcome {
    let img = texts.img.get(..size).unwrap_or(b"");
    let none = Faults::new(alloc);
    command_outcome(alloc, line, texts, img, &none)
}

/// Runs a command on different files, and prints each answer that is another one than that before, with its number.
/// `cut`, and a command: with the image file cut to each length. `lengthened`, and a number and a command: with so many
/// line feeds after each text, from 0.
pub fn run_series(rows: &mut Rows, word: &str, asked: &str, texts: &mut Texts) {
    let (whole, cut) = (texts.img.len(), word == "cut");
    let most = u32::try_from(whole).unwrap_or(0);
    let text = if cut { "% bytes\n%" } else { "% more\n%" };
    let (number, line) = number_before(asked).unwrap_or((most, asked));
    let mut last = String::new(rows.alloc);
    for more in 0..=number {
        let size = if cut { more as usize } else { whole };
        let outcome = cut_outcome(rows.alloc, line, texts, size);
        if outcome.text != last {
            form!(rows; text; Number(more as i64), Text(&outcome.text));
            last = outcome.text;
        }
        if !cut {
            append(&mut texts.oil, b"\n");
            append(&mut texts.src, b"\n");
            append(&mut texts.arr, b"\n");
        }
    }
}

/// The CRC-32 of IEEE 802.3.
pub fn checksum(bytes: &[u8]) -> u32 {
    let mut sum: u32 = 0xffff_ffff;
    for byte in bytes {
        sum ^= u32::from(*byte);
        for _ in 0..8 {
            sum = (sum >> 1) ^ (0_u32.wrapping_sub(sum & 1) & 0xedb8_8320);
        }
    }
    !sum
}

/// Runs a command with failing calls: of the store, ` / `, of the sink, ` / `, the command; and where no call fails.
/// Prints the first answer, and what the image file is beside the one before and the one that the second leaves.
pub fn run_failing(rows: &mut Rows, asked: &str, texts: &Texts) {
    let (calls, rest) = asked.split_once("/ ").unwrap_or(("", asked));
    let (puts, line) = rest.split_once("/ ").unwrap_or(("", rest));
    let mut faults = Faults::new(rows.alloc);
    let whole = command_outcome(rows.alloc, line, texts, &texts.img, &faults);
    faults.read(calls);
    faults.read(puts);
    let answer = command_outcome(rows.alloc, line, texts, &texts.img, &faults);
    rows.text(&answer.text);
    rows.text(match (answer.img == texts.img, answer.img == whole.img) {
        (true, _) => "IMG as before\n",
        (false, true) => "IMG the image\n",
        (false, false) => "IMG another\n",
    });
}
