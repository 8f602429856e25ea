//! The system's files.
ghost use Rattle.std.specs.Prelude.{◌≡◌, ◌≢◌, ◌<◌, ◌+◌, ℕ, List, [], ◌∷◌, Option, Some, IsTrue, true, OnErr, OnOk};
ghost use Rattle.std.specs.Prelude.{length, take};
ghost use Rattle.std.specs.Io.{appended_bytes};
ghost use Rattle.sloth_io.specs.Store.{IsAppended, IsMissing, IsTooLong, IsUnwritten, IsFileWritten, MayBeOneFile};
ghost use Rattle.sloth_io.specs.Store.{KeepsOthers, KeepsFiles, KeepsReads, said_same};
ghost use Rattle.sloth_io.specs.FileStore.{IsGivenTo, IsWholeRest, HasPrefix, HasPrefixBeyond, HasPrefixWithin};
ghost use Rattle.sloth_io.specs.FileStore.{is_one_plain_file, shown_files, taken_bytes, untold_files, files_after_read};
ghost use Rattle.sloth_io.specs.declared.replaced_files.Found.{Found};
ghost use Rattle.sloth_io.specs.System.{Opened, Followed, added};
ghost use Rattle.sloth_io.specs.Replaced.{IsReplaced, IsUnreplaced};

use crate::history::History;
use crate::replaced_files::{read_whole, replace_file};
use crate::{Found, Host, Outcome, Store, StoreFault, System};
use std::alloc::Global;
use std::rt::Files;

/// Files of the system. It tells nothing of what they hold, but the bytes that its reads delivered and its writes gave,
/// counts each refusal, and keeps how many bytes the last call took from a file or was to write to it.
#[derive(Drop)]
pub struct SystemFiles<S> {
    system: S,
    alloc: Global,
    failed_reads: u64,
    overlong_reads: u64,
    failed_writes: u64,
    taken: usize,
    reads: History,
    writes: History,
    same: History,
}

/// The system's own files.
pub type FileStore<'a, R> = SystemFiles<Host<'a, R>>;

impl<'a, R: Files> SystemFiles<Host<'a, R>> {
    /// The files that this handle reaches, with no refusal counted, and nothing read or written.
    pub fn new(rt: &'a R, alloc: Global) -> SystemFiles<Host<'a, R>>
        ensures { shown_files result ≡ untold_files 0 0 0 [] [] [] }
    {
        SystemFiles {
            system: Host::new(rt),
            alloc,
            failed_reads: 0,
            overlong_reads: 0,
            failed_writes: 0,
            taken: 0,
            reads: History::new(),
            writes: History::new(),
            same: History::new(),
        }
    }
}

impl<S: System> SystemFiles<S> {
    /// How many reads have failed.
    pub fn failed_reads(&self) -> u64
        ensures { result ≡ (shown_files self.now).failed_reads }
    {
        self.failed_reads
    }

    fn tell_read(&mut self, outcome: Outcome, name: &str, bytes: &[u8])
        ensures told { shown_files self.new ≡ files_after_read outcome name.now bytes.now (shown_files self.old) }
        ensures keeps { KeepsFiles (shown_files self.old) (shown_files self.new) }
        ensures taken { taken_bytes self.new ≡ taken_bytes self.old }
        ensures system { self.new.system ≡ self.old.system }
    {
        match outcome {
            Ok(()) => self.reads = self.reads.and(name.as_bytes(), bytes),
            Err(StoreFault::Failed) => self.failed_reads = self.failed_reads.saturating_add(1),
            Err(StoreFault::TooLong) => {
                self.overlong_reads = self.overlong_reads.saturating_add(1);
            }
            Err(StoreFault::Memory) => {}
        }
    }
}

fn read_file<S: System>(system: &mut S, name: &str, limit: usize, into: &mut Vec<u8>) -> Outcome
    ensures ok { OnOk result (HasPrefixWithin limit into.old.items into.new.items) }
    ensures too_long { result ≡ Err StoreFault.TooLong → HasPrefixBeyond limit into.old.items into.new.items }
    ensures front { HasPrefix into.old.items into.new.items }
    ensures whole { OnOk result ((from to : S.File) × IsWholeRest (S.File.remaining from) (S.File.remaining to)
        (appended_bytes into.old.items into.new.items)
        × (S.calls system.new ≡ added (S.calls system.old) (Opened name.now (Some (S.File.remaining from)) ∷ []))) }
    ensures asked { (from : Option (Option (List ℕ)))
        × (S.calls system.new ≡ added (S.calls system.old) (Opened name.now from ∷ [])) }
{
    let Some(mut file) = system.open_file(name) else {
        return Err(StoreFault::Failed);
    };
    read_whole(&mut file, limit, into)
}

fn take_back(outcome: Outcome, before: usize, into: &mut Vec<u8>)
    ensures ok { OnOk outcome (into.new.items ≡ into.old.items) }
    ensures err { OnErr outcome (into.new.items ≡ take before into.old.items) }
{
    match outcome {
        Ok(()) => {}
        Err(_) => into.truncate(before),
    }
}

// Both are one plain file: it has one device and one number there.
fn is_one_file(one: Option<Found>, other: Option<Found>) -> bool
    ensures { result ≡ is_one_plain_file one other }
{
    match (one, other) {
        (Some(one), Some(other)) => {
            one.plain && one.number != 0 && one.number == other.number && one.device == other.device
        }
        _ => false,
    }
}

impl<S: System> Store for SystemFiles<S> {
    ghost seen = { λ store. shown_files store };

    fn read(&mut self, name: &str, limit: usize, into: &mut Vec<u8>) -> Outcome
        ensures ok { OnOk result
            (IsAppended (shown_files self.old) (shown_files self.new) name.now limit into.old.items into.new.items) }
        ensures err { OnErr result (into.new.items ≡ into.old.items) }
        ensures nothing { OnErr result ((shown_files self.new).reads ≡ (shown_files self.old).reads) }
        ensures failed { result ≡ Err StoreFault.Failed → IsMissing (shown_files self.old) (shown_files self.new)
            name.now }
        ensures too_long { result ≡ Err StoreFault.TooLong → IsTooLong (shown_files self.old) (shown_files self.new)
            name.now limit }
        ensures keeps { KeepsFiles (shown_files self.old) (shown_files self.new) }
        ensures failed_reads { result ≢ Err StoreFault.Failed → (shown_files self.new).failed_reads
            ≡ (shown_files self.old).failed_reads }
        ensures overlong_reads { result ≢ Err StoreFault.TooLong → (shown_files self.new).overlong_reads
            ≡ (shown_files self.old).overlong_reads }

        // A read is too long only where more bytes than the limit were taken from the file.
        ensures taken { OnOk result (length into.new.items ≡ length into.old.items + taken_bytes self.new) }
        ensures taken_beyond { result ≡ Err StoreFault.TooLong → limit < taken_bytes self.new }

        // What a read delivers is all left of an open file, if it tells that; only this name's file was opened.
        ensures whole { OnOk result ((from to : S.File) × IsWholeRest (S.File.remaining from) (S.File.remaining to)
            (appended_bytes into.old.items into.new.items) × (S.calls self.new.system ≡ added (S.calls self.old.system)
            (Opened name.now (Some (S.File.remaining from)) ∷ []))) }
        ensures asked { (from : Option (Option (List ℕ)))
            × (S.calls self.new.system ≡ added (S.calls self.old.system) (Opened name.now from ∷ [])) }
    {
        let before = into.len();
        let outcome = read_file(&mut self.system, name, limit, into);
        self.taken = into.len() - before;
        self.tell_read(outcome, name, &into[before..]);
        take_back(outcome, before, into);
        outcome
    }

    fn write(&mut self, name: &str, bytes: &[u8]) -> Outcome
        ensures ok { OnOk result (IsFileWritten (shown_files self.old) (shown_files self.new) name.now bytes.now) }
        ensures failed { OnErr result
            (IsUnwritten (shown_files self.old) (shown_files self.new) name.now (length bytes.now)) }
        ensures only_failed { OnErr result (result ≡ Err StoreFault.Failed) }
        ensures others { KeepsOthers (shown_files self.old) (shown_files self.new) name.now }
        ensures keeps { KeepsReads (shown_files self.old) (shown_files self.new) }
        ensures failed_writes { OnOk result
            ((shown_files self.new).failed_writes ≡ (shown_files self.old).failed_writes) }

        // A write is done only where the file took all bytes.
        ensures taken { OnOk result (taken_bytes self.new ≡ length bytes.now) }

        // Some open file, if it tells its bytes, took all of these. It had them and no others as it was closed and took
        // its name; where anything failed, a plain file of that name is as it was.
        ensures given { OnOk result (IsGivenTo S.File.contents bytes.now) }
        ensures replaced { OnOk result
            (IsReplaced (S.calls self.old.system) (S.calls self.new.system) name.now bytes.now) }
        ensures unreplaced { OnErr result (IsUnreplaced (S.calls self.old.system) (S.calls self.new.system) name.now) }
    {
        self.taken = bytes.len();
        if replace_file(&mut self.system, self.alloc, name, bytes) {
            self.writes = self.writes.and(name.as_bytes(), bytes);
            return Ok(());
        }
        self.failed_writes = self.failed_writes.saturating_add(1);
        Err(StoreFault::Failed)
    }

    fn is_same(&mut self, one: &str, other: &str) -> bool
        ensures yes { result ≡ true → MayBeOneFile (shown_files self.old) one.now other.now }
        ensures no { IsTrue (shown_files self.old).tells → one.now ≡ other.now → result ≡ true }
        ensures said { shown_files self.new ≡ said_same result one.now other.now (shown_files self.old) }

        // It looks at both, behind links, and says what they are.
        ensures looked { (first second : Option Found) × (result ≡ is_one_plain_file first second)
            × (S.calls self.new.system ≡ added (S.calls self.old.system)
            (Followed one.now first ∷ Followed other.now second ∷ [])) }
    {
        let first = self.system.follow(one);
        let second = self.system.follow(other);
        let is = is_one_file(first, second);
        if is {
            self.same = self.same.and(one.as_bytes(), other.as_bytes());
        }
        is
    }
}
