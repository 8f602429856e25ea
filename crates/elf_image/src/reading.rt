//! The headers of an ELF file, read and written, and writing the whole.
ghost use Rattle.std.specs.Prelude.{◌≡◌, ◌≤◌, IfOk, IfErr, OnOk, Decides, ◌++◌, length};
ghost use Rattle.sloth_base.specs.MemoryMap.{memory_bytes};
ghost use Rattle.elf_image.specs.ElfText.{load_header, note_header, elf_header, ElfText, description_bytes, file_bytes};
ghost use Rattle.elf_image.specs.Faults.{IsElfErrorOf, HasElfHeader, HasLoadHeader, HasNoteHeader, IsMemorySize, IsNoteSize};
ghost use Rattle.std.specs.List.{flat_map};
ghost use Rattle.image_file.specs.Fields.{four_bytes};
ghost use Rattle.sloth_base.specs.ImageRange.{InFormat};

use crate::read::{note_size, put_note};
use image_file::{ElfError, ElfFault, put_marks, put_names, put_u32, read_u32};
use sloth_base::{Image, MEMORY_BASE, MEMORY_BYTES, Result};
use std::alloc::Global;

/// The ELF header is that of an image.
pub fn judge_header(bytes: &[u8]) -> Result<(), ElfError>
    ensures right { OnOk result (HasElfHeader bytes.now) }
    ensures failed { IfErr result (λ failure. IsElfErrorOf failure bytes.now) }
{
    if !bytes.starts_with(b"\x7fELF") {
        return Err(ElfFault::E1.into());
    }
    if bytes.len() < HEADERS {
        return Err(ElfFault::E2.into());
    }
    if !bytes.starts_with(&elf_header()) {
        return Err(ElfFault::E3.into());
    }
    Ok(())
}

fn is_memory_size(size: u32) -> bool
    ensures { Decides result (IsMemorySize size) }
{
    size <= MEMORY_BYTES as u32 && size % 4 == 0
}

fn is_note_size(size: u32) -> bool
    ensures { Decides result (IsNoteSize size) }
{
    size >= 36 && size % 4 == 0
}

fn is_load_header(alloc: Global, bytes: &[u8], size: u32) -> Result<bool>
    ensures { IfOk result (λ is. Decides is (bytes.now ≡ load_header size)) }
{
    let mut header = Vec::new(alloc);
    put_load_header(&mut header, size)?;
    Ok(*bytes == *header.as_slice())
}

fn is_note_header(alloc: Global, bytes: &[u8], size: u32, note: u32) -> Result<bool>
    requires { size ≤ memory_bytes }
    ensures { IfOk result (λ is. Decides is (bytes.now ≡ note_header size note)) }
{
    let mut header = Vec::new(alloc);
    put_note_header(&mut header, size, note)?;
    Ok(*bytes == *header.as_slice())
}

/// How many bytes of memory the first program header says.
pub fn read_load_header(alloc: Global, bytes: &[u8]) -> Result<u32, ElfError>
    requires { HasElfHeader bytes.now }
    ensures read { IfOk result (λ size. HasLoadHeader bytes.now size) }
    ensures failed { IfErr result (λ failure. IsElfErrorOf failure bytes.now) }
{
    let size = read_u32(bytes, ELF_HEADER + 16);
    let header = &bytes[ELF_HEADER..ELF_HEADER + PROGRAM_HEADER];
    let is_header = is_load_header(alloc, header, size)?;
    if !is_header {
        return Err(ElfFault::E4.into());
    }
    if !is_memory_size(size) {
        return Err(ElfFault::E4.into());
    }
    Ok(size)
}

/// How many bytes of a note the second program header says.
pub fn read_note_header(alloc: Global, bytes: &[u8], size: u32) -> Result<u32, ElfError>
    requires { HasLoadHeader bytes.now size }
    ensures read { IfOk result (λ note. HasNoteHeader bytes.now size note) }
    ensures failed { IfErr result (λ failure. IsElfErrorOf failure bytes.now) }
{
    let note = read_u32(bytes, ELF_HEADER + PROGRAM_HEADER + 16);
    let header = &bytes[ELF_HEADER + PROGRAM_HEADER..HEADERS];
    let is_header = is_note_header(alloc, header, size, note)?;
    if !is_header {
        return Err(ElfFault::E5.into());
    }
    if !is_note_size(note) {
        return Err(ElfFault::E5.into());
    }
    Ok(note)
}

/// The length of the ELF header, in bytes.
pub const ELF_HEADER: usize = 52;

/// The length of a program header.
pub const PROGRAM_HEADER: usize = 32;

/// The length of all headers, behind which the memory stands.
pub const HEADERS: usize = 116;

/// The bytes that memory has in the machine.
const MEMORY: u32 = MEMORY_BYTES as u32;

/// The ELF header: an executable of 32 bits, low byte first, for RISC-V, with two program headers.
#[tactic(auto, unfolding(crate::specs::ElfText::elf_header, image_file::specs::Fields::four_bytes, image_file::specs::Fields::two_bytes))]
pub fn elf_header() -> [u8; 52]
    ensures { result ≡ elf_header }
{
    [
        127, 69, 76, 70, 1, 1, 1, 0, 0, 0, 0, 0, 0, 0, 0, 0, // 7f ELF, class, data, version
        2, 0, 243, 0, 1, 0, 0, 0, // executable, RISC-V, version
        128, 4, 0, 128, 52, 0, 0, 0, 0, 0, 0, 0, 0, 0, 0, 0, // entry, program headers, section headers, flags
        52, 0, 32, 0, 2, 0, 0, 0, 0, 0, 0, 0, // sizes and numbers of headers
    ]
}

/// Appends numbers, each in four bytes.
pub fn put_words(file: &mut Vec<u8>, words: &[u32]) -> Result<()>
    ensures { OnOk result (file.new.items ≡ file.old.items ++ flat_map four_bytes words.now) }
{
    for word in words {
        put_u32(file, *word)?;
    }
    Ok(())
}

/// Appends the program header of the memory, which has so many bytes.
pub fn put_load_header(file: &mut Vec<u8>, size: u32) -> Result<()>
    ensures { OnOk result (file.new.items ≡ file.old.items ++ load_header size) }
{
    put_words(
        file,
        &[1, 116, MEMORY_BASE, MEMORY_BASE, size, MEMORY, 7, 4],
    )
}

/// Appends the program header of the note, which has so many bytes and stands behind the memory.
pub fn put_note_header(file: &mut Vec<u8>, size: u32, note: u32) -> Result<()>
    requires { size ≤ memory_bytes }
    ensures { OnOk result (file.new.items ≡ file.old.items ++ note_header size note) }
{
    put_words(file, &[4, 116 + size, 0, 0, note, note, 4, 4])
}

/// The bytes of an image's ELF file.
pub fn write_elf(alloc: Global, image: &Image) -> Result<Vec<u8>>
    requires { InFormat image.now }
    ensures { IfOk result (λ file. ElfText file.items image.now) }
{
    let description = describe(alloc, image)?;
    let memory = image.memory.items();
    assemble(alloc, memory, description.as_slice())
}

fn assemble(alloc: Global, memory: &[u8], description: &[u8]) -> Result<Vec<u8>>
    requires { (length memory.now ≤ memory_bytes) × (length description.now ≤ 300000) }
    ensures { IfOk result (λ file. file.items ≡ file_bytes memory.now description.now) }
{
    let size = memory.len() as u32;
    let mut file = Vec::new(alloc);
    file.extend_from_slice(&elf_header())?;
    put_load_header(&mut file, size)?;
    put_note_header(&mut file, size, note_size(description))?;
    file.extend_from_slice(memory)?;
    put_note(&mut file, description)?;
    Ok(file)
}

fn describe(alloc: Global, image: &Image) -> Result<Vec<u8>>
    requires { InFormat image.now }
    ensures { IfOk result (λ description. description.items ≡ description_bytes image.now) }
{
    let tasks = image.tasks.items();
    let funcs = image.funcs.items();
    let counters = image.counters.items();
    let marks = image.marks.items();
    let mut description = Vec::new(alloc);
    let (t, f) = (tasks.len() as u32, funcs.len() as u32);
    let (c, m) = (counters.len() as u32, marks.len() as u32);
    put_words(&mut description, &[t, f, c, m])?;
    put_names(&mut description, tasks)?;
    put_names(&mut description, funcs)?;
    put_names(&mut description, counters)?;
    put_marks(&mut description, marks)?;
    Ok(description)
}
