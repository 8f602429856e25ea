//! Files that commands are run on, and changes of them. What memory is wanting for is missing where output is compared.
ghost use Rattle.std.specs.Prelude.{◌≤◌, IfOk, length};

use crate::rows::shown;
use sloth_base::{NoMemory, Result};
use std::alloc::Global;

/// The greatest length of a file.
pub const LONGEST: usize = 16_000_000;

/// The files, and the lines before the next question.
#[derive(Drop)]
pub struct Texts {
    pub oil: Vec<u8>,
    pub src: Vec<u8>,
    pub arr: Vec<u8>,
    pub img: Vec<u8>,
    pub lines: Vec<u8>,
}

/// A text that readers take, of at most 16,000,000 bytes.
pub fn short(text: &[u8]) -> Result<&[u8]>
    ensures { IfOk result (λ text. length text.now ≤ 16000000) }
{
    if text.len() > LONGEST {
        Err(NoMemory)
    } else {
        Ok(text)
    }
}

/// Appends bytes.
pub fn append(text: &mut Vec<u8>, bytes: &[u8]) {
    let _ = text.extend_from_slice(bytes);
}

/// Appends a text.
pub fn push(text: &mut String, more: &str) {
    let _ = text.push_str(more);
}

/// Adds a thing to a list.
pub fn add<T: Drop>(list: &mut Vec<T>, thing: T) {
    let _ = list.push(thing);
}

/// Puts bytes in the place of those of a text.
pub fn refill(text: &mut Vec<u8>, bytes: &[u8]) {
    text.clear();
    append(text, bytes);
}

/// The number in front of words, and what stands behind one space.
pub fn number_before(words: &str) -> Option<(u32, &str)> {
    let (digits, rest) = words.split_once(' ')?;
    let number = digits.parse::<u32>().ok()?;
    Some((number, rest))
}

// One copy more, of this number.
fn add_copy(alloc: Global, lines: &mut Vec<u8>, number: u32, text: &[u8]) {
    for byte in text {
        match byte {
            b'%' => {
                if let Ok(digits) = format!(in alloc; "{number}") {
                    append(lines, digits.as_bytes());
                }
            }
            b'|' => append(lines, b"\n"),
            _ => append(lines, &[*byte]),
        }
    }
    append(lines, b"\n");
}

impl Texts {
    /// Empty files.
    pub fn new(alloc: Global) -> Texts {
        Texts {
            oil: Vec::new(alloc),
            src: Vec::new(alloc),
            arr: Vec::new(alloc),
            img: Vec::new(alloc),
            lines: Vec::new(alloc),
        }
    }

    /// Appends a line, or the copies that it stands for: `%repeat 65 func f%|ret|end` stands for so many copies of what
    /// stands behind the number, where each `%` is the number of the copy, from 0, and each `|` ends a line.
    pub fn add_line(&mut self, alloc: Global, line: &[u8]) {
        if let Some(rest) = line.strip_prefix(b"%repeat ") {
            if let Some((count, text)) = number_before(shown(rest)) {
                for number in 0..count {
                    add_copy(alloc, &mut self.lines, number, text.as_bytes());
                }
                return;
            }
        }
        append(&mut self.lines, line);
        append(&mut self.lines, b"\n");
    }

    // Writes bytes over those of the image file from a place on, and appends those that come behind its end: `AT HEX`;
    // behind `-` the place counts back from the end.
    fn change(&mut self, alloc: Global, words: &str) -> Option<()> {
        let (place, digits) = words.split_once(' ')?;
        let at = match place.strip_prefix("-") {
            None => place.parse::<usize>().ok()?,
            Some(back) => self.img.len().checked_sub(back.parse::<usize>().ok()?)?,
        };
        let bytes = hex::decode(alloc, digits).ok()?;
        for (i, byte) in bytes.iter().enumerate() {
            if at < self.img.len() && i < self.img.len() - at {
                self.img[at + i] = *byte;
            } else {
                add(&mut self.img, *byte);
            }
        }
        Some(())
    }

    // Takes a line out of the image file, by its number from 1.
    fn drop_line(&mut self, alloc: Global, number: usize) {
        let mut kept = Vec::new(alloc);
        for (i, line) in self.img.split(|byte| *byte == b'\n').enumerate() {
            if Some(i) != number.checked_sub(1) {
                append(&mut kept, line);
                append(&mut kept, b"\n");
            }
        }
        kept.pop();
        self.img = kept;
    }

    /// Puts the lines in the place of the file of this name, or changes the image file, if this word asks for that.
    pub fn alter(&mut self, alloc: Global, word: &str, rest: &str) -> bool {
        match word {
            "oil" => refill(&mut self.oil, &self.lines),
            "src" => refill(&mut self.src, &self.lines),
            "arr" => refill(&mut self.arr, &self.lines),
            "img" => refill(&mut self.img, &self.lines),
            "image" => self.img = hex::decode(alloc, rest).unwrap_or(Vec::new(alloc)),
            "change" => {
                let _ = self.change(alloc, rest);
            }
            "drop" => self.drop_line(alloc, rest.parse::<usize>().unwrap_or(0)),
            "shorten" => {
                self.img.pop();
            }
            _ => return false,
        }
        true
    }
}
