//! Why a command was not done.
//! How a command ends: its last line, and what the sink holds back. If no call of the sink failed, all is handed on.
ghost use Rattle.std.specs.Prelude.{◌≡◌, ◌≢◌, ◌++◌, [], ◌∷◌};
ghost use Rattle.core_commands.specs.Failures.{read_failure, judge_failure, image_failure, IsFailureEnd, last_lines};
ghost use Rattle.core_commands.specs.declared.failure.Failure.TheVariants.{NoMemory as OutOfMemory, Put as PutFailed};
ghost use Rattle.sloth_io.specs.Counts.{Stays};
ghost use Rattle.core_commands.specs.Top.{IsPutAnswer, IsCloseAnswer};

use command_line::{Status, no_image_line, refusal_line};
use image_file::{ImageError, ImageFault};
use sloth_base::{BuildError, NoMemory, Refusal};
use sloth_io::{Sink, SinkFault, StoreFault};
use std::alloc::AllocFailed;

/// Why a command was not done.
#[derive(Clone, Copy)]
pub enum Failure {
    Refused(Refusal),
    ReadFault,
    TooLong,
    /// The file of an image is none, for this fault.
    NotAnImage(ImageFault),
    NoMemory,
    /// The file that the command writes could not be written.
    WriteFile,
    /// A line could not be put.
    Put,
}

impl From<NoMemory> for Failure {
    ghost from_gives = { λ _ failure. failure ≡ OutOfMemory };

    fn from(_: NoMemory) -> Failure {
        Failure::NoMemory
    }
}

impl<T: Drop> From<AllocFailed<T>> for Failure {
    ghost from_gives = { λ _ failure. failure ≡ OutOfMemory };

    fn from(_: AllocFailed<T>) -> Failure {
        Failure::NoMemory
    }
}

// Of a fault that a read ends with.
impl From<StoreFault> for Failure {
    ghost from_gives = { λ fault failure. failure ≡ read_failure fault };

    fn from(fault: StoreFault) -> Failure {
        match fault {
            StoreFault::Failed => Failure::ReadFault,
            StoreFault::TooLong => Failure::TooLong,
            StoreFault::Memory => Failure::NoMemory,
        }
    }
}

impl From<BuildError> for Failure {
    ghost from_gives = { λ error failure. failure ≡ judge_failure error };

    fn from(error: BuildError) -> Failure {
        match error {
            BuildError::Refused(refusal) => Failure::Refused(refusal),
            BuildError::Memory => Failure::NoMemory,
        }
    }
}

impl From<SinkFault> for Failure {
    ghost from_gives = { λ _ failure. failure ≡ PutFailed };

    fn from(_: SinkFault) -> Failure {
        Failure::Put
    }
}

// Of an error that the reading of an image ends with.
impl From<ImageError> for Failure {
    ghost from_gives = { λ error failure. failure ≡ image_failure error };

    fn from(error: ImageError) -> Failure {
        match error {
            ImageError::Fault(fault) => Failure::NotAnImage(fault),
            ImageError::Memory => Failure::NoMemory,
        }
    }
}

/// Hands on what the sink holds back. Where it can't be, the status is WriteFault.
pub fn close<S: Sink>(out: &mut S, status: Status) -> Status
    ensures ends { IsCloseAnswer status result (S.seen out.old) (S.seen out.new) }
    ensures passed { result ≢ Status.WriteFault → S.passed_on out.new }
    ensures handed { Stays (S.seen out.old).faults (S.seen out.new).faults → S.passed_on out.new }
    ensures pieces { S.pieces out.new ≡ S.pieces out.old }
{
    match out.flush() {
        Ok(()) => status,
        Err(_) => Status::WriteFault,
    }
}

/// Puts a last line. Where it can't be put or handed on, the status is WriteFault.
pub fn say<S: Sink>(out: &mut S, line: &[u8], status: Status) -> Status
    ensures ends { IsPutAnswer status result (S.seen out.old) (S.seen out.new) line.now }
    ensures passed { result ≢ Status.WriteFault → S.passed_on out.new }
    ensures handed { Stays (S.seen out.old).faults (S.seen out.new).faults → S.passed_on out.new }
    ensures pieces { S.pieces out.new ≡ S.pieces out.old ++ line.now ∷ [] }
{
    match out.put(line) {
        Ok(()) => close(out, status),
        Err(_) => Status::WriteFault,
    }
}

/// Puts the last line of a failure.
pub fn finish<S: Sink>(out: &mut S, failure: Failure) -> Status
    ensures ends { IsFailureEnd failure result (S.seen out.old) (S.seen out.new) }
    ensures passed { result ≢ Status.WriteFault → S.passed_on out.new }
    ensures handed { failure ≢ Failure.Put → Stays (S.seen out.old).faults (S.seen out.new).faults → S.passed_on
        out.new }
    ensures pieces { S.pieces out.new ≡ S.pieces out.old ++ last_lines failure }
{
    match failure {
        Failure::Refused(refusal) => say(out, refusal_line(refusal).bytes(), Status::Refused),
        Failure::ReadFault => say(out, b"read fault\n", Status::ReadFault),
        Failure::TooLong => say(out, b"too long\n", Status::TooLong),
        Failure::NotAnImage(fault) => say(out, no_image_line(fault).bytes(), Status::NotAnImage),
        Failure::NoMemory => say(out, b"no memory\n", Status::NoMemory),
        Failure::WriteFile => say(out, b"write fault\n", Status::WriteFault),
        Failure::Put => Status::WriteFault,
    }
}
