//! The lines that are printed of a command as a whole.
ghost use Rattle.std.specs.Prelude.{◌≡◌, ◌≤◌, length};
ghost use Rattle.command_line.specs.LastLine.{part_text, code_text, refusal_line, built_line, fault_text};
ghost use Rattle.command_line.specs.LastLine.{no_image_line};

use image_file::ImageFault;
use itoa::Buffer;
use sloth_base::{Code, Part, Refusal};
use trace_text::LineText;

// The letters of a variant.
macro_rules! letters {
    ($value:expr; $kind:ident; $($name:ident $text:literal),+) => {
        match $value { $($kind::$name => $text),+ }
    };
}

fn part_text(part: Part) -> &'static [u8]
    ensures is { result.now ≡ part_text part }
    ensures short { length result.now ≤ 4 }
{
    letters!(part; Part; Oil b"oil", Src b"src", Arr b"arr", Load b"load")
}

/// The letters of a refusal's code.
#[tactic(auto, unfolding(crate::specs::LastLine::code_text))]
pub fn code_text(code: Code) -> &'static [u8]
    ensures is { result.now ≡ code_text code }
    ensures short { length result.now ≤ 3 }
{
    letters!(code; Code; O1 b"O1", O2 b"O2", O3 b"O3", O4 b"O4", O5 b"O5", O6 b"O6", O7 b"O7", O8 b"O8",
        O9 b"O9", O10 b"O10", O11 b"O11", O12 b"O12", O13 b"O13", O14 b"O14", O15 b"O15", A1 b"A1", A2 b"A2",
        A3 b"A3", A4 b"A4", A5 b"A5", A6 b"A6", A7 b"A7", V1 b"V1", V2 b"V2", V3 b"V3", V4 b"V4", V5 b"V5",
        V6 b"V6", V7 b"V7", V8 b"V8", V9 b"V9", V10 b"V10", V11 b"V11", V12 b"V12", T1 b"T1", T2 b"T2",
        T3 b"T3", T4 b"T4", L1 b"L1", L2 b"L2", L3 b"L3", L4 b"L4")
}

/// The line of a refusal: the text that is at fault, the line and the rule.
pub fn refusal_line(refusal: Refusal) -> LineText
    ensures { result ≡ refusal_line refusal }
{
    let mut line = LineText::new();
    line.push(b"refused ");
    line.push(part_text(refusal.part));
    line.push(b" ");
    line.push_number(refusal.line);
    line.push(b" ");
    line.push(code_text(refusal.code));
    line.push(b"\n");
    line
}

/// The line of an image that was built: the length of its file, in bytes.
pub fn built_line(length: usize) -> LineText
    ensures { result ≡ built_line length }
{
    let mut buffer = Buffer::new();
    let mut line = LineText::new();
    line.push(b"built ");
    line.push(buffer.format(length).as_bytes());
    line.push(b"\n");
    line
}

fn fault_text(fault: ImageFault) -> &'static [u8]
    ensures is { result.now ≡ fault_text fault }
    ensures short { length result.now ≤ 2 }
{
    letters!(fault; ImageFault; I1 b"I1", I2 b"I2", I3 b"I3", I4 b"I4", I5 b"I5")
}

/// The line of a file that is no image's: its first fault.
pub fn no_image_line(fault: ImageFault) -> LineText
    ensures { result ≡ no_image_line fault }
{
    let mut line = LineText::new();
    line.push(b"not an image ");
    line.push(fault_text(fault));
    line.push(b"\n");
    line
}
