//! A command that is run once for each moment of an arrival.
use crate::commands::{Faults, command_outcome};
use crate::rows::Piece::Text;
use crate::rows::Rows;
use crate::texts::{Texts, number_before, push, refill};

// A line behind its two counts. A status has none.
fn event_text(line: &str) -> Option<&str> {
    let (_, rest) = line.split_once(' ')?;
    let (_, event) = rest.split_once(' ')?;
    Some(event)
}

// Prints a line that was not seen before.
fn note(rows: &mut Rows, seen: &mut String, before: &str, line: &str) {
    for earlier in seen.lines() {
        if earlier == line {
            return;
        }
    }
    push(seen, line);
    push(seen, "\n");
    form!(rows; "%%\n"; Text(before), Text(line));
}

// Prints the different last events of the runs (`last`), or the different lines of events that begin so (`each`), and
// `once` as well how many runs there are, and how many of them have exactly one such line.
fn answer(rows: &mut Rows, word: &str, prefix: &str, text: &str) {
    let mut seen = String::new(rows.alloc);
    let (mut runs, mut once, mut found, mut last) = (0_u32, 0_u32, 0_u32, "");
    for line in text.lines() {
        match event_text(line) {
            Some(event) => {
                last = event;
                if word != "last" && event.starts_with(prefix) {
                    found = found.saturating_add(1);
                    note(rows, &mut seen, "", event);
                }
            }
            None => {
                if word == "last" && !last.is_empty() {
                    note(rows, &mut seen, "last ", last);
                }
                runs = runs.saturating_add(1);
                once = once.saturating_add(u32::from(found == 1));
                found = 0;
                last = "";
            }
        }
    }
    if word == "once" {
        form!(rows; "once in % of % runs\n"; ; once, runs);
    }
}

// Appends what a command prints with one arrival of a task at each of the moments that words such as `1 400 High` name.
fn run_each(rows: &mut Rows, words: &str, command: &str, texts: &mut Texts, text: &mut String) {
    let (first, rest) = number_before(words).unwrap_or((1, ""));
    let (last, task) = number_before(rest).unwrap_or((0, ""));
    let none = Faults::new(rows.alloc);
    for moment in first..=last {
        if let Ok(line) = format!(in rows.alloc; "{moment} {task}\n") {
            refill(&mut texts.arr, line.as_bytes());
        }
        let run = command_outcome(rows.alloc, command, texts, &texts.img, &none);
        push(text, &run.text);
    }
}

/// Runs a command once for each moment, with one arrival of a task then, and prints what was asked of the lines: behind
/// words such as `1 400 High` stand the command and the questions, with ` / ` between them. A question is `once` or
/// `each` and how lines begin, or `last`.
pub fn run_sweep(rows: &mut Rows, asked: &str, texts: &mut Texts) {
    let (words, rest) = asked.split_once(" / ").unwrap_or((asked, ""));
    let (command, questions) = rest.split_once(" / ").unwrap_or((rest, ""));
    let mut text = String::new(rows.alloc);
    run_each(rows, words, command, texts, &mut text);
    for question in questions.split(" / ") {
        let (word, prefix) = question.split_once(' ').unwrap_or((question, ""));
        answer(rows, word, prefix, &text);
    }
}
