//! The commands `elf`, `unelf` and `symbols`.
ghost use Rattle.std.specs.Prelude.{◌≡◌, IfOk, length, ◌≤◌};
ghost use Rattle.tool_commands.specs.Lines.{written_line};
ghost use Rattle.tool_commands.specs.ElfAnswers.{IsElfAnswer, IsUnelfAnswer};
ghost use Rattle.sloth_base.specs.Limits.{file_limit};
ghost use Rattle.tool_commands.specs.SymbolsAnswers.{IsSymbolsAnswer};

use crate::judging::written_line;
use command_line::{Outcome, ToolAnswer};
use elf_image::{read_elf, write_elf};
use image_file::{ElfError, ImageError, read_image, write_image};
use sloth_base::{BuildError, Image, List, NoMemory, Result};
use std::alloc::Global;
use symbol_build::symbols_file;

/// The outcome of a tool that writes a file.
pub fn written(alloc: Global, file: Vec<u8>) -> Result<Outcome>
    ensures file { IfOk result (λ outcome. outcome.file ≡ file.items) }
    ensures text { IfOk result (λ outcome. outcome.text ≡ written_line (length file.items)) }
{
    let text = Vec::from_slice(alloc, written_line(file.len()).bytes())?;
    Ok(Outcome {
        file: List::from_vec(file),
        text: List::from_vec(text),
    })
}

/// The ELF file of an image file, or the image file's first fault.
pub fn elf(alloc: Global, bytes: &[u8]) -> Result<ToolAnswer>
    ensures { IfOk result (λ answer. IsElfAnswer bytes.now answer) }
{
    match read_image(alloc, bytes) {
        Ok(image) => {
            let file = write_elf(alloc, &image)?;
            Ok(ToolAnswer::Done(written(alloc, file)?))
        }
        Err(ImageError::Fault(fault)) => Ok(ToolAnswer::NotAnImage(fault)),
        Err(ImageError::Memory) => Err(NoMemory),
    }
}

/// The image file of an ELF file, or the ELF file's first fault.
pub fn unelf(alloc: Global, bytes: &[u8]) -> Result<ToolAnswer>
    ensures { IfOk result (λ answer. IsUnelfAnswer bytes.now answer) }
{
    match read_elf(alloc, bytes) {
        Ok(image) => {
            let file = write_image(alloc, &image)?;
            Ok(ToolAnswer::Done(written(alloc, file)?))
        }
        Err(ElfError::Fault(fault)) => Ok(ToolAnswer::NotAnElf(fault)),
        Err(ElfError::Memory) => Err(NoMemory),
    }
}

/// The file that debuggers read of the image of these texts, the second of which has this name; or the first refusal.
pub fn symbols(alloc: Global, oil: &[u8], src: &[u8], name: &[u8]) -> Result<ToolAnswer>
    requires oil { length oil.now ≤ file_limit }
    requires src { length src.now ≤ file_limit }
    ensures { IfOk result (λ answer. IsSymbolsAnswer oil.now src.now name.now answer) }
{
    answer!(symbols_file(alloc, oil, src, name), file => Ok(ToolAnswer::Done(written(alloc, file)?)))
}
