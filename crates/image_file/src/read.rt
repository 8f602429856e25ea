//! Reading an image, and its names: a length byte each, and that many bytes. What may be wrong with an image file and
//! with an ELF file.
ghost use Rattle.std.specs.Prelude.{◌⊎◌, ◌≡◌, ◌≤◌, IfOk, IfErr, length, ◌<◌, true, false, ◌≢◌, ◌++◌, ◌↔◌, ℕ, List as Sequence, IfSome, IfNone, IsTrue, Decides, Contains, drop};
ghost use Rattle.image_file.specs.ImageText.{ImageText, name_bytes};
ghost use Rattle.image_file.specs.Faults.{IsImageErrorOf, IsFirstImageFault};
ghost use Rattle.image_file.specs.Limits.{SizesFit};
ghost use Rattle.image_file.specs.Reading.{AreLastMarks, HasOutline, NamedPartsStand, IsPartsError, NamesStand, IsNamesError, NameEnds};
ghost use Rattle.sloth_base.specs.declared.image.Image.{Image as ImageOf};
ghost use Rattle.image_file.specs.declared.read.ImageFault.{ImageFault as FaultOf};
ghost use Rattle.image_file.specs.declared.read.FileError.TheVariants as failed_by;
ghost use Rattle.sloth_base.specs.ImageRange.{service_limit, AreNames, AreNamesApart};
ghost use Rattle.image_file.specs.Parts.{AreRightNames};
ghost use Rattle.image_file.specs.declared.read.FileError.TheVariants.{Fault, Memory};

use crate::header::{has_magic, read_sizes};
use crate::{Sizes, are_ascending, read_marks};
use sloth_base::{Image, List, Mark, Name, NoMemory, is_name};
use std::alloc::{AllocError, AllocFailed, Global};

/// The image of a file, or the file's first fault.
pub fn read_image(alloc: Global, bytes: &[u8]) -> Result<Image, ImageError>
    ensures read { IfOk result (λ image. ImageText bytes.now image) }
    ensures failed { IfErr result (λ failure. IsImageErrorOf failure bytes.now) }
    ensures refuses_no_image { IfErr result (λ failure. (image : ImageOf) → ImageText bytes.now image → failure
        ≡ failed_by.Memory) }
    ensures tells_the_fault { IfErr result (λ failure. (fault : FaultOf) → IsFirstImageFault fault bytes.now →
        (failure ≡ failed_by.Fault fault) ⊎ (failure ≡ failed_by.Memory)) }
    ensures reads_no_fault { IfOk result (λ image. (fault : FaultOf) → ¬ (IsFirstImageFault fault bytes.now)) }
{
    let outline = read_outline(alloc, bytes)?;
    read_contents(alloc, bytes, outline)
}

/// The names of a file, and where the memory begins, which the marks follow.
#[derive(Drop)]
pub struct Outline {
    pub tasks: Vec<Name>,
    pub funcs: Vec<Name>,
    pub counters: Vec<Name>,
    pub memory: usize,
    pub size: usize,
    pub count: usize,
}

fn read_outline(alloc: Global, bytes: &[u8]) -> Result<Outline, ImageError>
    ensures read { IfOk result (λ outline.
        HasOutline bytes.now outline.tasks.items outline.funcs.items outline.counters.items outline.memory
        outline.size outline.count) }
    ensures failed { IfErr result (λ failure. IsImageErrorOf failure bytes.now) }
{
    if !has_magic(bytes) {
        return Err(ImageFault::I1.into());
    }
    let sizes = read_sizes(bytes).ok_or(ImageFault::I2)?;
    read_parts(alloc, bytes, sizes.header(), &sizes)
}

/// Names, memory and marks of these numbers, from `at` on.
pub fn read_parts(
    alloc: Global,
    bytes: &[u8],
    at: usize,
    sizes: &Sizes,
) -> Result<Outline, ImageError>
    requires within { at ≤ length bytes.now }
    requires fit { SizesFit sizes.now }
    ensures read { IfOk result (λ outline.
        NamedPartsStand bytes.now at sizes.now outline.tasks.items outline.funcs.items outline.counters.items
        outline.memory) }
    ensures size { IfOk result (λ outline. outline.size ≡ sizes.now.memory) }
    ensures count { IfOk result (λ outline. outline.count ≡ sizes.now.marks) }
    ensures failed { IfErr result (λ failure. IsPartsError failure bytes.now at sizes.now) }
{
    let tasks = read_names(alloc, bytes, at, sizes.tasks)?;
    let funcs = read_names(alloc, bytes, tasks.end, sizes.funcs)?;
    let counters = read_names(alloc, bytes, funcs.end, sizes.counters)?;
    let memory = counters.end;
    if bytes.len() - memory < sizes.memory + sizes.marks * 12 {
        return Err(ImageFault::I2.into());
    }
    Ok(Outline {
        tasks: tasks.names,
        funcs: funcs.names,
        counters: counters.names,
        memory,
        size: sizes.memory,
        count: sizes.marks,
    })
}

// The marks of these parts, with which the file ends, or what is wrong with names and marks.
fn last_marks(alloc: Global, bytes: &[u8], outline: &Outline) -> Result<Vec<Mark>, ImageError>
    requires { HasOutline bytes.now outline.now.tasks.items outline.now.funcs.items outline.now.counters.items
        outline.now.memory outline.now.size outline.now.count }
    ensures read { IfOk result (λ marks.
        AreLastMarks bytes.now outline.now.tasks.items outline.now.funcs.items outline.now.counters.items
        outline.now.memory outline.now.size outline.now.count marks.items) }
    ensures failed { IfErr result (λ failure. IsImageErrorOf failure bytes.now) }
{
    if !are_right_names(&outline.tasks, &outline.funcs, &outline.counters) {
        return Err(ImageFault::I3.into());
    }
    let (count, size) = (outline.count, outline.size);
    let place = outline.memory + size;
    let services = service_limit(outline.counters.len());
    let funcs = outline.funcs.len();
    let marks = read_marks(alloc, bytes, place, count, services, funcs, size)?;
    if !are_ascending(&marks) {
        return Err(ImageFault::I4.into());
    }
    if is_followed(bytes, place + count * 12) {
        return Err(ImageFault::I5.into());
    }
    Ok(marks)
}

fn read_contents(alloc: Global, bytes: &[u8], outline: Outline) -> Result<Image, ImageError>
    requires { HasOutline bytes.now outline.tasks.items outline.funcs.items outline.counters.items outline.memory
        outline.size outline.count }
    ensures read { IfOk result (λ image. ImageText bytes.now image) }
    ensures failed { IfErr result (λ failure. IsImageErrorOf failure bytes.now) }
{
    let marks = last_marks(alloc, bytes, &outline)?;
    let place = outline.memory + outline.size;
    let memory = Vec::from_slice(alloc, &bytes[outline.memory..place])?;
    Ok(Image {
        tasks: List::from_vec(outline.tasks),
        funcs: List::from_vec(outline.funcs),
        counters: List::from_vec(outline.counters),
        memory: List::from_vec(memory),
        marks: List::from_vec(marks),
    })
}

/// Whether bytes follow the first `end`.
pub fn is_followed(bytes: &[u8], end: usize) -> bool
    ensures follows { result ≡ true → end < length bytes.now }
    ensures ends { result ≡ false → length bytes.now ≤ end }
{
    bytes.len() > end
}

/// How many services the marks of an image with so many counters may name: those on alarms need a counter.
pub fn service_limit(counters: usize) -> u8
    ensures { result ≡ service_limit counters }
{
    if counters == 0 { 12 } else { 16 }
}

/// Names, and where they end.
#[derive(Drop)]
pub struct Names {
    pub names: Vec<Name>,
    pub end: usize,
}

/// So many names from `at` on, of any bytes.
pub fn read_names(alloc: Global, bytes: &[u8], at: usize, count: usize) -> Result<Names, ImageError>
    requires { at ≤ length bytes.now }
    ensures read { IfOk result (λ read. NamesStand bytes.now at read.end read.names.items) }
    ensures counted { IfOk result (λ read. length read.names.items ≡ count) }
    ensures failed { IfErr result (λ failure. IsNamesError failure bytes.now at count) }
{
    let mut names = Vec::new(alloc);
    let mut end = at;
    for _ in 0..count {
        let next = name_end(bytes, end).ok_or(ImageFault::I2)?;
        names.push(Name::new(alloc, &bytes[end + 1..next])?)?;
        end = next;
    }
    Ok(Names { names, end })
}

fn name_end(bytes: &[u8], at: usize) -> Option<usize>
    requires { at ≤ length bytes.now }
    ensures some { IfSome result (λ end. NameEnds bytes.now at end) }
    ensures none { IfNone result ((name rest : Sequence ℕ) → drop at bytes.now ≢ name_bytes name ++ rest) }
{
    if at >= bytes.len() {
        return None;
    }
    let size = bytes[at] as usize;
    if bytes.len() - at - 1 < size {
        return None;
    }
    Some(at + 1 + size)
}

fn are_names(names: &[Name]) -> bool
    ensures { Decides result (AreNames names.now) }
{
    for i in 0..names.len() {
        let name = names[i].bytes();
        if !is_name(name) || is_among(name, &names[..i]) {
            return false;
        }
    }
    true
}

fn is_among(bytes: &[u8], names: &[Name]) -> bool
    ensures { IsTrue result ↔ Contains names.now bytes.now }
{
    names.iter().any(|name| *name.bytes() == *bytes)
}

fn are_apart(names: &[Name], others: &[Name]) -> bool
    ensures { Decides result (AreNamesApart names.now others.now) }
{
    names.iter().all(|name| !is_among(name.bytes(), others))
}

/// Whether those of tasks, of functions and of counters are right.
pub fn are_right_names(tasks: &[Name], funcs: &[Name], counters: &[Name]) -> bool
    ensures { Decides result (AreRightNames tasks.now funcs.now counters.now) }
{
    are_names(tasks) && are_names(funcs) && are_names(counters) && are_apart(counters, tasks)
}

/// A fault of a file, by its code. The first in this order is told.
#[derive(Clone, Copy)]
pub enum ImageFault {
    /// The first eight bytes are not those of a format.
    I1,
    /// The file ends inside a part, or a number of the header is out of its limits.
    I2,
    /// A name is no word of 1 to 64 bytes, two tasks, two functions, two counters, or a counter and a task have one
    /// name, or a mark is out of range.
    I3,
    /// The marks' addresses do not rise.
    I4,
    /// Bytes follow the last mark.
    I5,
}

/// Why no image was read: for one of these faults of the file, or for want of memory.
#[derive(Clone, Copy)]
pub enum FileError<F> {
    Fault(F),
    Memory,
}

/// Why no image was read from an image file.
pub type ImageError = FileError<ImageFault>;

impl From<ImageFault> for ImageError {
    ghost from_gives = { λ fault e. e ≡ Fault fault };

    fn from(fault: ImageFault) -> ImageError {
        ImageError::Fault(fault)
    }
}

impl<F> From<NoMemory> for FileError<F> {
    ghost from_gives = { λ _ e. e ≡ Memory };

    fn from(_: NoMemory) -> FileError<F> {
        FileError::Memory
    }
}

impl<F> From<AllocError> for FileError<F> {
    ghost from_gives = { λ _ e. e ≡ Memory };

    fn from(_: AllocError) -> FileError<F> {
        FileError::Memory
    }
}

impl<T: Drop, F> From<AllocFailed<T>> for FileError<F> {
    ghost from_gives = { λ _ e. e ≡ Memory };

    fn from(_: AllocFailed<T>) -> FileError<F> {
        FileError::Memory
    }
}

/// A fault of a file, by its code. The first in this order is told.
#[derive(Clone, Copy)]
pub enum ElfFault {
    /// The first four bytes are not those of an ELF file.
    E1,
    /// The file has fewer than 116 bytes.
    E2,
    /// The ELF header is not that of an image.
    E3,
    /// The first program header is not that of an image's memory.
    E4,
    /// The second program header is not that of an image's note.
    E5,
    /// The file does not end where the note does.
    E6,
    /// The note is not an image's, ends inside a part, or has a number that is out of its limits.
    E7,
    /// A name is no word of 1 to 64 bytes, two tasks, two functions, two counters, or a counter and a task have one
    /// name, a mark is out of range, or the marks' addresses do not rise.
    E8,
}

/// Why no image was read from an ELF file.
pub type ElfError = FileError<ElfFault>;

impl From<ElfFault> for ElfError {
    ghost from_gives = { λ fault e. e ≡ Fault fault };

    fn from(fault: ElfFault) -> ElfError {
        FileError::Fault(fault)
    }
}
