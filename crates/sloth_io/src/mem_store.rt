//! A store in memory. Files in memory, each in a space of its own.
ghost use Rattle.std.specs.Prelude.{◌≡◌, ◌≢◌, ◌≤◌, ◌<◌, None, Some, length, All, OnErr, OnOk, IfOk, IfSome, IfNone, IsOkUnless, MatchOption, is_ok, is_err, if◌then◌else◌, map};
ghost use Rattle.std.specs.List.{AllPairs};
ghost use Rattle.sloth_io.specs.Counts.{count_after_call, next_call};
ghost use Rattle.sloth_io.specs.Slots.{bytes_named, files_with, IsFilePlace, file_named, file_of, has_space};
ghost use Rattle.sloth_io.specs.MemStore.{IsFreshStore, is_next_call_failed, files_of, IsStoreCalled, is_too_long, read_fault, shown_files, is_next_write_done, IsDelivered, fault_by, is_overlong, reads_after};
ghost use Rattle.sloth_io.specs.Store.{IsAppended, IsMissing, IsTooLong, IsUnwritten, IsFileWritten, KeepsOthers, KeepsFiles, KeepsReads};

use crate::buffer::Buffer;
use crate::history::History;
use crate::{Outcome, Store, StoreFault};
use sloth_base::{List, Name, NoMemory, Result};
use std::alloc::Global;

/// Files in memory, and the numbers of the calls that are to fail, counted from 1 over reads and writes.
/// It tells what its files hold.
#[derive(Drop)]
pub struct MemStore {
    slots: Vec<Slot>,
    fails: Vec<u32>,
    calls: u32,
    failed_reads: u64,
    overlong_reads: u64,
    failed_writes: u64,
    reads: History,
    writes: History,
    same: History,
}

impl MemStore {
    /// A store of these files.
    pub fn new(alloc: Global, files: &[MemFile], fails: &[u32]) -> Result<MemStore>
        requires distinct { AllPairs (λ one other. one.name ≢ other.name) files.now }
        requires within { All (λ file. length file.bytes ≤ file.space) files.now }
        ensures { IfOk result (IsFreshStore files.now fails.now) }
    {
        let fails = Vec::from_slice(alloc, fails)?;
        let slots = made_slots(alloc, files)?;
        Ok(MemStore {
            slots,
            fails,
            calls: 0,
            failed_reads: 0,
            overlong_reads: 0,
            failed_writes: 0,
            reads: History::new(),
            writes: History::new(),
            same: History::new(),
        })
    }

    /// The bytes of the file of this name, if there is one.
    pub fn file(&self, name: &str) -> Option<&[u8]>
        ensures found { IfSome result (λ bytes. bytes_named name.now (files_of self.now) ≡ Some bytes.now) }
        ensures none { IfNone result (bytes_named name.now (files_of self.now) ≡ None) }
    {
        named_bytes(self.slots.as_slice(), name.as_bytes())
    }

    fn call(&mut self) -> bool
        ensures fails { result ≡ is_next_call_failed self.old }
        ensures rest { self.new ≡ record self.old { calls = next_call self.old.calls } }
    {
        self.calls = self.calls.saturating_add(1);
        self.fails.contains(&self.calls)
    }

    // Counts a call that reads, and says whether it is to fail, which is counted too.
    fn begin_read(&mut self) -> bool
        ensures fails { result ≡ is_next_call_failed self.old }
        ensures rest { self.new ≡ record self.old {
          calls = next_call self.old.calls;
          failed_reads = count_after_call result self.old.failed_reads;
        } }
        ensures rising { self.old.failed_reads ≤ self.new.failed_reads }
    {
        let fails = self.call();
        if fails {
            self.failed_reads = self.failed_reads.saturating_add(1);
        }
        fails
    }

    fn deliver(&self, fails: bool, name: &str, limit: usize, into: &mut Vec<u8>) -> Outcome
        ensures refused { MatchOption (fault_by fails (bytes_named name.now (files_of self.now)) limit)
            (IsOkUnless result StoreFault.Memory) (λ fault. result ≡ Err fault) }
        ensures ok { OnOk result
            (IsDelivered (bytes_named name.now (files_of self.now)) limit into.old.items into.new.items) }
        ensures err { OnErr result (into.new.items ≡ into.old.items) }
    {
        if fails {
            return Err(StoreFault::Failed);
        }
        let Some(bytes) = self.file(name) else {
            return Err(StoreFault::Failed);
        };
        if bytes.len() > limit {
            return Err(StoreFault::TooLong);
        }
        if into.extend_from_slice(bytes).is_err() {
            return Err(StoreFault::Memory);
        }
        Ok(())
    }

    fn tell_read(&mut self, outcome: Outcome, name: &str, bytes: &[u8])
        ensures slots { self.new.slots ≡ self.old.slots }
        ensures failing { self.new.fails ≡ self.old.fails }
        ensures calls { self.new.calls ≡ self.old.calls }
        ensures failed_reads { self.new.failed_reads ≡ self.old.failed_reads }
        ensures overlong_reads { self.new.overlong_reads ≡ count_after_call (is_overlong outcome)
            self.old.overlong_reads }
        ensures rising { self.old.overlong_reads ≤ self.new.overlong_reads }
        ensures failed_writes { self.new.failed_writes ≡ self.old.failed_writes }
        ensures reads { self.new.reads.items ≡ reads_after outcome name.now bytes.now self.old.reads.items }
        ensures writes { self.new.writes.items ≡ self.old.writes.items }
        ensures same { self.new.same.items ≡ self.old.same.items }
    {
        match outcome {
            Ok(()) => self.reads = self.reads.and(name.as_bytes(), bytes),
            Err(StoreFault::TooLong) => {
                self.overlong_reads = self.overlong_reads.saturating_add(1);
            }
            Err(_) => {}
        }
    }
}

impl Store for MemStore {
    ghost seen = { λ store. shown_files store };

    fn read(&mut self, name: &str, limit: usize, into: &mut Vec<u8>) -> Outcome
        ensures ok { OnOk result
            (IsAppended (shown_files self.old) (shown_files self.new) name.now limit into.old.items into.new.items) }
        ensures err { OnErr result (into.new.items ≡ into.old.items) }
        ensures nothing { OnErr result ((shown_files self.new).reads ≡ (shown_files self.old).reads) }
        ensures failed { result ≡ Err StoreFault.Failed → IsMissing (shown_files self.old) (shown_files self.new)
            name.now }
        ensures too_long { result ≡ Err StoreFault.TooLong →
            IsTooLong (shown_files self.old) (shown_files self.new) name.now limit }
        ensures keeps { KeepsFiles (shown_files self.old) (shown_files self.new) }
        ensures failed_reads { result ≢ Err StoreFault.Failed → self.new.failed_reads ≡ self.old.failed_reads }
        ensures overlong_reads { result ≢ Err StoreFault.TooLong → self.new.overlong_reads ≡ self.old.overlong_reads }

        // It refuses exactly the calls that are to fail, files that are not there and files that are too long.
        ensures refused { MatchOption (read_fault self.old name.now limit)
            (IsOkUnless result StoreFault.Memory) (λ fault. result ≡ Err fault) }
        ensures counted_failed { self.new.failed_reads ≡ count_after_call (is_next_call_failed self.old)
            self.old.failed_reads }
        ensures counted_overlong { self.new.overlong_reads ≡
            count_after_call (is_too_long (read_fault self.old name.now limit)) self.old.overlong_reads }
        ensures called { IsStoreCalled self.old self.new }
        ensures files { files_of self.new ≡ files_of self.old }
    {
        let fails = self.begin_read();
        let before = into.len();
        let outcome = self.deliver(fails, name, limit, into);
        self.tell_read(outcome, name, &into[before..]);
        outcome
    }

    fn write(&mut self, name: &str, bytes: &[u8]) -> Outcome
        ensures ok { OnOk result (IsFileWritten (shown_files self.old) (shown_files self.new) name.now bytes.now) }
        ensures failed { OnErr result
            (IsUnwritten (shown_files self.old) (shown_files self.new) name.now (length bytes.now)) }
        ensures only_failed { OnErr result (result ≡ Err StoreFault.Failed) }
        ensures others { KeepsOthers (shown_files self.old) (shown_files self.new) name.now }
        ensures keeps { KeepsReads (shown_files self.old) (shown_files self.new) }
        ensures failed_writes { OnOk result (self.new.failed_writes ≡ self.old.failed_writes) }

        // It fails exactly at the calls that are to fail, and where there is no file with space for the bytes.
        ensures done { is_ok result ≡ is_next_write_done self.old name.now (length bytes.now) }
        ensures counted_failed { self.new.failed_writes ≡ count_after_call (is_err result) self.old.failed_writes }
        ensures called { IsStoreCalled self.old self.new }
        ensures files { files_of self.new ≡
            (if is_ok result then files_with name.now bytes.now (files_of self.old) else files_of self.old) }
    {
        if !self.call() && replace(&mut self.slots, name.as_bytes(), bytes) {
            self.writes = self.writes.and(name.as_bytes(), bytes);
            return Ok(());
        }
        self.failed_writes = self.failed_writes.saturating_add(1);
        Err(StoreFault::Failed)
    }

    fn is_same(&mut self, one: &str, other: &str) -> bool {
        let is = one == other;
        if is {
            self.same = self.same.and(one.as_bytes(), other.as_bytes());
        }
        is
    }
}

/// A file that a store is made with: its name, its bytes, and the greatest number of bytes that it may hold.
#[derive(Drop)]
pub struct MemFile {
    pub name: Name,
    pub bytes: List<u8>,
    pub space: u32,
}

/// A file, with its space reserved.
#[derive(Drop)]
pub struct Slot {
    pub name: Name,
    pub buffer: Buffer,
}

impl Slot {
    fn new(alloc: Global, file: &MemFile) -> Result<Slot>
        requires { length file.now.bytes ≤ file.now.space }
        ensures { IfOk result (λ slot. file_of slot ≡ file.now) }
    {
        let name = Name::new(alloc, file.name.bytes())?;
        let mut buffer = Buffer::new(alloc, file.space)?;
        let whole = buffer.append(file.bytes.items());
        prove!(whole);
        Ok(Slot { name, buffer })
    }
}

/// A slot for each of these files.
pub fn made_slots(alloc: Global, files: &[MemFile]) -> Result<Vec<Slot>>
    requires { All (λ file. length file.bytes ≤ file.space) files.now }
    ensures { IfOk result (λ slots. map file_of slots.items ≡ files.now) }
{
    let mut slots = Vec::new(alloc);
    for file in files {
        let slot = Slot::new(alloc, file)?;
        slots.push(slot).map_err(|_| NoMemory)?;
    }
    Ok(slots)
}

/// The bytes of the file of a name.
pub fn named_bytes<'a>(slots: &'a [Slot], name: &[u8]) -> Option<&'a [u8]>
    ensures found { IfSome result (λ bytes. bytes_named name.now (map file_of slots.now) ≡ Some bytes.now) }
    ensures none { IfNone result (bytes_named name.now (map file_of slots.now) ≡ None) }
{
    for slot in slots {
        if slot.name.bytes() == name {
            return Some(slot.buffer.bytes());
        }
    }
    None
}

fn named_place(slots: &[Slot], name: &[u8]) -> Option<usize>
    ensures found { IfSome result (IsFilePlace name.now (map file_of slots.now)) }
    ensures within { IfSome result (λ place. place < length slots.now) }
    ensures none { IfNone result (file_named name.now (map file_of slots.now) ≡ None) }
{
    for (place, slot) in slots.iter().enumerate() {
        if slot.name.bytes() == name {
            return Some(place);
        }
    }
    None
}

/// Makes the file of a name hold these bytes, where there is space for them.
pub fn replace(slots: &mut Vec<Slot>, name: &[u8], bytes: &[u8]) -> bool
    ensures done { result ≡ has_space name.now (length bytes.now) (map file_of slots.old.items) }
    ensures files { map file_of slots.new.items ≡
        (if result then files_with name.now bytes.now (map file_of slots.old.items) else map file_of slots.old.items) }
{
    let Some(place) = named_place(slots.as_slice(), name) else {
        return false;
    };
    slots[place].buffer.replace(bytes)
}
