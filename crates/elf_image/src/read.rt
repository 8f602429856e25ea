//! Reading an ELF file, and its note.
ghost use Rattle.std.specs.Prelude.{◌⊎◌, ◌≡◌, ◌<◌, ◌≤◌, ◌+◌, IfOk, IfErr, IfSome, IfNone, Decides, drop, length, take, ◌++◌, OnOk};
ghost use Rattle.image_file.specs.declared.header.Sizes.{Sizes as AnySizes};
ghost use Rattle.sloth_base.specs.declared.image.Image.{Image as ImageOf};
ghost use Rattle.sloth_base.specs.MemoryMap.{memory_bytes};
ghost use Rattle.elf_image.specs.ElfText.{ElfText, note_bytes, padding};
ghost use Rattle.elf_image.specs.Faults.{IsElfErrorOf, IsFirstElfFault};
ghost use Rattle.elf_image.specs.Reading.{IsFramedAt, IsNote, IsNoteError, HasDescriptionSizes, IsDescription, IsDescriptionError, AreNamesAndMarks, AreRightMarks, IsContentsError};
ghost use Rattle.image_file.specs.declared.read.ElfFault.{ElfFault as FaultOf};
ghost use Rattle.image_file.specs.declared.read.FileError.TheVariants as failed_by;
ghost use Rattle.image_file.specs.Parts.{AreRightNames};

use crate::put_words;
use crate::reading::{HEADERS, judge_header, read_load_header, read_note_header};
use image_file::{
    ElfError, ElfFault, ImageError, Outline, Sizes, are_ascending, are_right_names, read_marks,
    read_parts, read_u32, service_limit,
};
use sloth_base::{Image, List, Mark, Result};
use std::alloc::Global;

// The length of the numbers of a description, in bytes.
const NUMBERS: usize = 16;

/// The image of an ELF file, or the file's first fault.
pub fn read_elf(alloc: Global, bytes: &[u8]) -> Result<Image, ElfError>
    ensures read { IfOk result (λ image. ElfText bytes.now image) }
    ensures failed { IfErr result (λ failure. IsElfErrorOf failure bytes.now) }
    ensures refuses_no_image { IfErr result (λ failure. (image : ImageOf) → ElfText bytes.now image → failure
        ≡ failed_by.Memory) }
    ensures tells_the_fault { IfErr result (λ failure. (fault : FaultOf) → IsFirstElfFault fault bytes.now →
        (failure ≡ failed_by.Fault fault) ⊎ (failure ≡ failed_by.Memory)) }
    ensures reads_no_fault { IfOk result (λ image. (fault : FaultOf) → ¬ (IsFirstElfFault fault bytes.now)) }
    ensures reads_back { IfOk result (λ image. (written : ImageOf) → ElfText bytes.now written → image ≡ written) }
{
    read_whole(alloc, bytes)
}

fn read_whole(alloc: Global, bytes: &[u8]) -> Result<Image, ElfError>
    ensures read { IfOk result (λ image. ElfText bytes.now image) }
    ensures failed { IfErr result (λ failure. IsElfErrorOf failure bytes.now) }
{
    let size = read_frame(alloc, bytes)?;
    let note = behind(bytes, HEADERS + size);
    let length = read_note(alloc, note)?;
    let description = part(note, NOTE_HEAD, length);
    let outline = read_description(alloc, description)?;
    let memory = part(bytes, HEADERS, size);
    read_contents(alloc, description, outline, memory)
}

fn behind(bytes: &[u8], at: usize) -> &[u8]
    requires { at ≤ length bytes.now }
    ensures { result.now ≡ drop at bytes.now }
{
    &bytes[at..]
}

fn part(bytes: &[u8], at: usize, size: usize) -> &[u8]
    requires { at + size ≤ length bytes.now }
    ensures { result.now ≡ take size (drop at bytes.now) }
{
    &bytes[at..at + size]
}

fn is_note(alloc: Global, bytes: &[u8], description: &[u8]) -> Result<bool>
    requires { length description.now < 4294967296 }
    ensures { IfOk result (λ is. Decides is (bytes.now ≡ note_bytes description.now)) }
{
    let mut note = Vec::new(alloc);
    put_note(&mut note, description)?;
    Ok(*bytes == *note.as_slice())
}

// How many bytes of memory the file has, where its headers are those of an image and it ends with the note.
fn read_frame(alloc: Global, bytes: &[u8]) -> Result<usize, ElfError>
    ensures read { IfOk result (λ size. IsFramedAt bytes.now size) }
    ensures failed { IfErr result (λ failure. IsElfErrorOf failure bytes.now) }
{
    judge_header(bytes)?;
    let size = read_load_header(alloc, bytes)?;
    let note = read_note_header(alloc, bytes, size)?;
    if bytes.len() != HEADERS + size as usize + note as usize {
        return Err(ElfFault::E6.into());
    }
    Ok(size as usize)
}

fn read_note(alloc: Global, note: &[u8]) -> Result<usize, ElfError>
    requires { 36 ≤ length note.now }
    ensures read { IfOk result (λ size. IsNote note.now size) }
    ensures failed { IfErr result (λ failure. IsNoteError failure note.now) }
{
    let size = read_u32(note, 4) as usize;
    if note.len() != NOTE_HEAD + size + padding_size(size) {
        return Err(ElfFault::E7.into());
    }
    let is_note = is_note(alloc, note, &note[NOTE_HEAD..NOTE_HEAD + size])?;
    if !is_note {
        return Err(ElfFault::E7.into());
    }
    Ok(size)
}

fn read_numbers(description: &[u8]) -> Option<Sizes>
    ensures read { IfSome result (λ sizes. HasDescriptionSizes description.now sizes) }
    ensures none { IfNone result ((sizes : AnySizes) → ¬ (HasDescriptionSizes description.now sizes)) }
{
    if description.len() < NUMBERS {
        return None;
    }
    let sizes = Sizes {
        tasks: read_u32(description, 0) as usize,
        funcs: read_u32(description, 4) as usize,
        counters: read_u32(description, 8) as usize,
        memory: 0,
        marks: read_u32(description, 12) as usize,
    };
    sizes.are_within().then_some(sizes)
}

fn last_marks(alloc: Global, file: &[u8], all: &Outline, size: usize) -> Result<Vec<Mark>, ElfError>
    requires parts { IsDescription file.now all.now.tasks.items all.now.funcs.items all.now.counters.items
        all.now.memory all.now.count }
    requires fits { size ≤ memory_bytes }
    ensures read { IfOk result (λ marks.
        AreRightMarks file.now all.now.tasks.items all.now.funcs.items all.now.counters.items all.now.memory
        all.now.count size marks.items) }
    ensures failed { IfErr result (λ failure.
        IsContentsError failure file.now all.now.tasks.items all.now.funcs.items all.now.counters.items all.now.memory
        all.now.count size) }
{
    if !has_right_names(all) {
        return Err(ElfFault::E8.into());
    }
    let (services, funcs) = (service_limit(all.counters.len()), all.funcs.len());
    let marks = match read_marks(alloc, file, all.memory, all.count, services, funcs, size) {
        Ok(marks) => marks,
        Err(ImageError::Fault(_)) => return Err(ElfError::Fault(ElfFault::E8)),
        Err(ImageError::Memory) => return Err(ElfError::Memory),
    };
    if !are_ascending(&marks) {
        return Err(ElfFault::E8.into());
    }
    Ok(marks)
}

// The names of a description, and where its marks stand, with which it ends.
fn read_description(alloc: Global, description: &[u8]) -> Result<Outline, ElfError>
    ensures read { IfOk result (λ outline.
        IsDescription description.now outline.tasks.items outline.funcs.items outline.counters.items outline.memory
        outline.count) }
    ensures failed { IfErr result (λ failure. IsDescriptionError failure description.now) }
{
    let Some(sizes) = read_numbers(description) else {
        return Err(ElfFault::E7.into());
    };
    let outline = match read_parts(alloc, description, NUMBERS, &sizes) {
        Ok(outline) => outline,
        Err(ImageError::Fault(_)) => return Err(ElfError::Fault(ElfFault::E7)),
        Err(ImageError::Memory) => return Err(ElfError::Memory),
    };
    if outline.memory + outline.count * 12 != description.len() {
        return Err(ElfFault::E7.into());
    }
    Ok(outline)
}

fn read_contents(alloc: Global, file: &[u8], all: Outline, memory: &[u8]) -> Result<Image, ElfError>
    requires parts { IsDescription file.now all.tasks.items all.funcs.items all.counters.items all.memory all.count }
    requires fits { length memory.now ≤ memory_bytes }
    ensures read { IfOk result (λ image.
        AreNamesAndMarks file.now all.tasks.items all.funcs.items all.counters.items all.memory all.count
        (length memory.now) image) }
    ensures memory { IfOk result (λ image. image.memory ≡ memory.now) }
    ensures failed { IfErr result (λ failure.
        IsContentsError failure file.now all.tasks.items all.funcs.items all.counters.items all.memory all.count
        (length memory.now)) }
{
    let marks = last_marks(alloc, file, &all, memory.len())?;
    let memory = Vec::from_slice(alloc, memory)?;
    Ok(Image {
        tasks: List::from_vec(all.tasks),
        funcs: List::from_vec(all.funcs),
        counters: List::from_vec(all.counters),
        memory: List::from_vec(memory),
        marks: List::from_vec(marks),
    })
}

/// Whether the names of tasks, of functions and of counters are right.
pub fn has_right_names(outline: &Outline) -> bool
    ensures { Decides result (AreRightNames outline.now.tasks.items outline.now.funcs.items
        outline.now.counters.items) }
{
    are_right_names(&outline.tasks, &outline.funcs, &outline.counters)
}

/// The length of a note before its description.
pub const NOTE_HEAD: usize = 20;

/// How many bytes the note of a description has.
pub fn note_size(description: &[u8]) -> u32
    requires { length description.now ≤ 300000 }
    ensures { result ≡ length (note_bytes description.now) }
{
    (NOTE_HEAD + description.len() + padding_size(description.len())) as u32
}

/// Appends the note of a description.
pub fn put_note(file: &mut Vec<u8>, description: &[u8]) -> Result<()>
    requires { length description.now < 4294967296 }
    ensures { OnOk result (file.new.items ≡ file.old.items ++ note_bytes description.now) }
{
    put_words(file, &[6, description.len() as u32, 1])?;
    file.extend_from_slice(b"SLOTH\0\0\0")?;
    file.extend_from_slice(description)?;
    file.extend_from_slice(&[0; 3][..padding_size(description.len())])?;
    Ok(())
}

/// How many zeros follow a description of so many bytes.
pub fn padding_size(description: usize) -> usize
    ensures short { result ≤ 3 }
    ensures is { length (padding description) ≡ result }
{
    (4 - description % 4) % 4
}
