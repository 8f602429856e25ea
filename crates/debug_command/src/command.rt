//! The command, over a store of files, an input and a sink.
//! The words of the command. A session of the program: over the system's files and standard output.
//! What the command reads.
ghost use Rattle.std.specs.Prelude.{◌≡◌, ◌≢◌, ◌≤◌, length, IfSome, IfNone, codes, true, [], ◌∷◌, IfOk, IfErr};
ghost use Rattle.sloth_base.specs.Arrivals.{AreArrivals};
ghost use Rattle.sloth_base.specs.ImageRange.{InFormat};
ghost use Rattle.sloth_base.specs.Limits.{file_limit, task_limit, count_limit};
ghost use Rattle.sloth_base.specs.Owners.{owners_named};
ghost use Rattle.sloth_io.specs.Store.{KeepsFiles, AreDelivered};
ghost use Rattle.debug_view.specs.ShownRun.{run_of};
ghost use Rattle.debug_session.specs.Serving.{HasEnded, IsHandedOn};
ghost use Rattle.debug_command.specs.DebugAnswers.{IsCloseAnswer, IsLineAnswer, IsSaid, IsSessionEnd, IsTextsAnswer, IsDebugAnswer, heard};
ghost use Rattle.debug_command.specs.Words.{debugging_of, Debugging as AnyDebugging, IsDebugging};
ghost use Rattle.command_line.specs.Command.{words_of};
ghost use Rattle.sloth_io.specs.FileStore.{shown_files, untold_files};
ghost use Rattle.sloth_io.specs.OutSink.{shown_output, accepted_bytes, given_bytes};
ghost use Rattle.debug_command.specs.DebugRun.{IsDebugRun};
ghost use Rattle.debug_command.specs.Inputs.{IsFile, AreRead, AreFirstRead, IsUnreadFile, AreUnread, AreMeant, AreNotMeant, unread_cause, image_cause, arrivals_cause};

use command_line::{Status, no_image_line, refusal_line};
use debug_session::{Input, SessionFault, Transcript, serve};
use debug_view::Place;
use debug_ways::{Cursor, Machine};
use image_file::{ImageError, ImageFault, read_image};
use sloth_base::{Arrival, BuildError, FILE_LIMIT, Image, Name, NoMemory, Refusal};
use sloth_io::{FileStore, OutSink, Sink, Store, StoreFault};
use std::alloc::Global;
use std::rt::Files;
use trace_text::read_arrivals;

// Hands on what the sink holds back. Where it can't be, the status is WriteFault.
fn close<S: Sink>(out: &mut S, status: Status) -> Status
    ensures ends { IsCloseAnswer status result (S.seen out.old) (S.seen out.new) }
    ensures passed { result ≢ Status.WriteFault → S.passed_on out.new }
{
    match out.flush() {
        Ok(()) => status,
        Err(_) => Status::WriteFault,
    }
}

// Puts a last line, and hands it on. Where it can't be, the status is WriteFault.
fn say<S: Sink>(out: &mut S, line: &[u8], status: Status) -> Status
    ensures ends { IsLineAnswer status result (S.seen out.old) (S.seen out.new) line.now }
    ensures passed { result ≢ Status.WriteFault → S.passed_on out.new }
{
    match out.put(line) {
        Ok(()) => close(out, status),
        Err(_) => Status::WriteFault,
    }
}

fn tell<S: Sink>(out: &mut S, cause: Cause) -> Status
    ensures said { IsSaid cause result (S.seen out.old) (S.seen out.new) }
    ensures passed { result ≢ Status.WriteFault → S.passed_on out.new }
{
    match cause {
        Cause::ReadFault => say(out, b"read fault\n", Status::ReadFault),
        Cause::TooLong => say(out, b"too long\n", Status::TooLong),
        Cause::NotAnImage(fault) => say(out, no_image_line(fault).bytes(), Status::NotAnImage),
        Cause::Refused(refusal) => say(out, refusal_line(refusal).bytes(), Status::Refused),
        Cause::NoMemory => say(out, b"no memory\n", Status::NoMemory),
    }
}

fn serve_machine<I: Input, S: Sink, M: Machine>(
    alloc: Global,
    input: &mut I,
    out: &mut S,
    transcript: &mut Transcript,
    machine: M,
    names: &[Name],
) -> Result<(), SessionFault>
    requires start { M.count machine ≡ 0 }
    requires short { (M.run machine).end ≤ count_limit }
    requires few { length names.now ≤ task_limit }
    ensures ended { HasEnded (M.run machine) names.now (I.coming input.old) (I.given input.old) (I.given input.new)
        transcript.old.notes.items transcript.new.notes.items (S.seen out.old) (S.seen out.new) result }
    ensures passed { IsHandedOn result (S.passed_on out.old) (S.passed_on out.new) }
{
    match Cursor::new(alloc, machine) {
        Ok(cursor) => {
            let mut cursor = cursor;
            serve(alloc, input, out, transcript, &mut cursor, names)
        }
        Err(NoMemory) => Err(SessionFault::NoMemory),
    }
}

fn session<I: Input, S: Sink>(
    alloc: Global,
    input: &mut I,
    out: &mut S,
    transcript: &mut Transcript,
    image: &Image,
    arrivals: &[Arrival],
) -> Result<(), SessionFault>
    requires format { InFormat image.now }
    requires arrivals { AreArrivals (owners_named image.now) arrivals.now }
    ensures ended { HasEnded (run_of image.now arrivals.now) image.now.tasks (I.coming input.old) (I.given input.old)
        (I.given input.new)
        transcript.old.notes.items transcript.new.notes.items (S.seen out.old) (S.seen out.new) result }
    ensures passed { IsHandedOn result (S.passed_on out.old) (S.passed_on out.new) }
{
    match Place::new(alloc, image, arrivals) {
        Ok(place) => serve_machine(alloc, input, out, transcript, place, image.tasks.items()),
        Err(NoMemory) => Err(SessionFault::NoMemory),
    }
}

// The same, once what is held back was handed on.
fn flushed_session<I: Input, S: Sink>(
    alloc: Global,
    input: &mut I,
    out: &mut S,
    transcript: &mut Transcript,
    image: &Image,
    arrivals: &[Arrival],
) -> Result<(), SessionFault>
    requires format { InFormat image.now }
    requires arrivals { AreArrivals (owners_named image.now) arrivals.now }
    ensures ended { HasEnded (run_of image.now arrivals.now) image.now.tasks (I.coming input.old) (I.given input.old)
        (I.given input.new)
        transcript.old.notes.items transcript.new.notes.items (S.seen out.old) (S.seen out.new) result }
    ensures passed { IsHandedOn result (Unit {0}) (S.passed_on out.new) }
{
    match out.flush() {
        Ok(()) => session(alloc, input, out, transcript, image, arrivals),
        Err(_) => Err(SessionFault::Write),
    }
}

fn served<I: Input, S: Sink>(
    alloc: Global,
    input: &mut I,
    out: &mut S,
    transcript: &mut Transcript,
    run: &Meaning,
) -> Status
    requires format { InFormat run.now.image }
    requires arrivals { AreArrivals (owners_named run.now.image) run.now.arrivals.items }
    ensures ended { IsSessionEnd (run_of run.now.image run.now.arrivals.items) run.now.image.tasks
        (heard (I.coming input.old) (I.given input.old) (I.given input.new) transcript.old.notes.items
        transcript.new.notes.items) (S.seen out.old) (S.seen out.new) result }
    ensures passed { result ≢ Status.WriteFault → S.passed_on out.new }
{
    let arrivals = run.arrivals.as_slice();
    match flushed_session(alloc, input, out, transcript, &run.image, arrivals) {
        Ok(()) => Status::Done,
        Err(SessionFault::Read) => Status::ReadFault,
        Err(SessionFault::Write) => Status::WriteFault,
        Err(SessionFault::NoMemory) => Status::NoMemory,
    }
}

fn judge<I: Input, S: Sink>(
    alloc: Global,
    input: &mut I,
    out: &mut S,
    transcript: &mut Transcript,
    img: &[u8],
    arr: &[u8],
) -> Status
    requires { length arr.now ≤ file_limit }
    ensures { IsTextsAnswer img.now arr.now
        (heard (I.coming input.old) (I.given input.old) (I.given input.new) transcript.old.notes.items
        transcript.new.notes.items)
        (S.seen out.old) (S.seen out.new) (S.passed_on out.new) result }
{
    match read_meaning(alloc, img, arr) {
        Ok(run) => served(alloc, input, out, transcript, &run),
        Err(cause) => tell(out, cause),
    }
}

/// Serves a session over the run of an image file and arrivals of these names, until it is over or nothing more comes.
pub fn debug<F: Store, I: Input, S: Sink>(
    alloc: Global,
    files: &mut F,
    input: &mut I,
    out: &mut S,
    transcript: &mut Transcript,
    words: &DebugWords,
) -> Status
    ensures answer { IsDebugAnswer (debugging_of words.now) (F.seen files.old) (F.seen files.new)
        (heard (I.coming input.old) (I.given input.old) (I.given input.new) transcript.old.notes.items
        transcript.new.notes.items)
        (S.seen out.old) (S.seen out.new) (S.passed_on out.new) result }
    ensures keeps { KeepsFiles (F.seen files.old) (F.seen files.new) }
{
    match read_texts(alloc, files, words) {
        Ok(texts) => {
            let img = texts.img.as_slice();
            let arr = texts.arr.as_slice();
            judge(alloc, input, out, transcript, img, arr)
        }
        Err(cause) => tell(out, cause),
    }
}

/// The names of the two files.
#[derive(Clone, Copy)]
pub struct DebugWords<'a> {
    pub img: &'a str,
    pub arr: &'a str,
}

fn is_debug(word: &str) -> bool
    ensures yes { result ≡ true → word.now ≡ codes "debug" }
    ensures no { word.now ≡ codes "debug" → result ≡ true }
{
    word == "debug"
}

/// The words `debug IMG ARR`, if they are such.
pub fn debug_words(words: &[String]) -> Option<DebugWords<'_>>
    ensures some { IfSome result (λ asked. IsDebugging (words_of words.now) (debugging_of asked)) }
    ensures none { IfNone result ((d : AnyDebugging) → IsDebugging (words_of words.now) d → ⊥) }
{
    if words.len() != 3 {
        return None;
    }
    if !is_debug(words[0].as_str()) {
        return None;
    }
    Some(DebugWords {
        img: words[1].as_str(),
        arr: words[2].as_str(),
    })
}

/// Serves a session over any input, and over files and standard output to which nothing was done yet. The transcript
/// tells in what order the input was asked and replies were handed on.
pub fn debug_over<R: Files, I: Input, P: Print>(
    alloc: Global,
    files: &mut FileStore<'_, R>,
    input: &mut I,
    out: &mut OutSink<'_, P>,
    transcript: &mut Transcript,
    words: &DebugWords,
) -> Status
    requires files { shown_files files.old ≡ untold_files 0 0 0 [] [] [] }
    requires out { accepted_bytes out.old ≡ [] }
    requires faults { (shown_output out.old).faults ≡ 0 }
    ensures { IsDebugRun (debugging_of words.now)
        (heard (I.coming input.old) (I.given input.old) (I.given input.new) transcript.old.notes.items
        transcript.new.notes.items)
        (shown_files files.new) (given_bytes out.new) (shown_output out.new).faults result }
{
    debug(alloc, files, input, out, transcript, words)
}

/// Why there is no session.
#[derive(Clone, Copy)]
pub enum Cause {
    ReadFault,
    TooLong,
    NotAnImage(ImageFault),
    Refused(Refusal),
    NoMemory,
}

impl From<StoreFault> for Cause {
    ghost from_gives = { λ fault cause. cause ≡ unread_cause fault };

    fn from(fault: StoreFault) -> Cause {
        match fault {
            StoreFault::Failed => Cause::ReadFault,
            StoreFault::TooLong => Cause::TooLong,
            StoreFault::Memory => Cause::NoMemory,
        }
    }
}

impl From<ImageError> for Cause {
    ghost from_gives = { λ error cause. cause ≡ image_cause error };

    fn from(error: ImageError) -> Cause {
        match error {
            ImageError::Fault(fault) => Cause::NotAnImage(fault),
            ImageError::Memory => Cause::NoMemory,
        }
    }
}

// Of an error that the reading of the arrivals ends with.
impl From<BuildError> for Cause {
    ghost from_gives = { λ error cause. cause ≡ arrivals_cause error };

    fn from(error: BuildError) -> Cause {
        match error {
            BuildError::Refused(refusal) => Cause::Refused(refusal),
            BuildError::Memory => Cause::NoMemory,
        }
    }
}

fn fetch<F: Store>(alloc: Global, files: &mut F, name: &str) -> Result<Vec<u8>, Cause>
    ensures ok { IfOk result (λ bytes. IsFile (F.seen files.old) name.now bytes.items) }
    ensures err { IfErr result (λ cause. IsUnreadFile cause (F.seen files.old) (F.seen files.new) name.now) }
    ensures keeps { KeepsFiles (F.seen files.old) (F.seen files.new) }
    ensures nothing { IfErr result (λ _. (F.seen files.new).reads ≡ (F.seen files.old).reads) }
    ensures delivered { IfOk result
        (λ bytes. AreDelivered (F.seen files.old) (F.seen files.new) ((name.now, bytes.items) ∷ [])) }
{
    let mut bytes = Vec::new(alloc);
    files.read(name, FILE_LIMIT, &mut bytes)?;
    Ok(bytes)
}

/// The bytes of both files.
#[derive(Drop)]
pub struct Texts {
    pub img: Vec<u8>,
    pub arr: Vec<u8>,
}

/// Reads both files, the image file first.
pub fn read_texts<F: Store>(
    alloc: Global,
    files: &mut F,
    words: &DebugWords,
) -> Result<Texts, Cause>
    ensures ok { IfOk result
        (λ texts. AreRead (F.seen files.old) (F.seen files.new) (debugging_of words.now) texts.img.items
        texts.arr.items) }
    ensures err { IfErr result
        (λ cause. AreUnread cause (F.seen files.old) (F.seen files.new) (debugging_of words.now)) }
    ensures keeps { KeepsFiles (F.seen files.old) (F.seen files.new) }
    ensures front { IfErr result (λ _. AreFirstRead (F.seen files.old) (F.seen files.new) (debugging_of words.now)) }
{
    let img = fetch(alloc, files, words.img)?;
    let arr = fetch(alloc, files, words.arr)?;
    Ok(Texts { img, arr })
}

/// An image, and the arrivals of its run.
#[derive(Drop)]
pub struct Meaning {
    pub image: Image,
    pub arrivals: Vec<Arrival>,
}

/// Reads an image of the first file, and arrivals by its names of the second.
pub fn read_meaning(alloc: Global, img: &[u8], arr: &[u8]) -> Result<Meaning, Cause>
    requires { length arr.now ≤ file_limit }
    ensures meant { IfOk result (λ run. AreMeant img.now arr.now run.image run.arrivals.items) }
    ensures format { IfOk result (λ run. InFormat run.image) }
    ensures in_range { IfOk result (λ run. AreArrivals (owners_named run.image) run.arrivals.items) }
    ensures err { IfErr result (λ cause. AreNotMeant cause img.now arr.now) }
{
    let image = read_image(alloc, img)?;
    let arrivals = read_arrivals(alloc, arr, image.tasks.items(), image.counters.items())?;
    Ok(Meaning { image, arrivals })
}
