//! Files that are written anew: until all is written, and where anything fails, what stood there stands there.
//! What the system tells of a file. Whole transfers of bytes, in as many calls as they take.
ghost use Rattle.std.specs.Prelude.{◌≡◌, ◌≢◌, ◌++◌, [], ◌∷◌, Option, List, ℕ, IfOk, Some, None, false, true, codes};
ghost use Rattle.std.specs.Prelude.{string_bytes, ◌≤◌, OnOk, length, take};
ghost use Rattle.std.specs.Io.KnownBytes.{Appends, Consumes, IsAtEnd};
ghost use Rattle.sloth_io.specs.declared.replaced_files.Found.{Found};
ghost use Rattle.sloth_io.specs.FileStore.{IsGivenTo, HasPrefix, HasPrefixBeyond, HasPrefixWithin};
ghost use Rattle.sloth_io.specs.System.{Call, Synced, added, LeavesFile, LeavesFiles};
ghost use Rattle.sloth_io.specs.Replaced.{is_written_there, may_follow, owner_calls};
ghost use Rattle.sloth_io.specs.Replaced.{tried_calls, first_mode, mode_calls, filling_calls, calls_in_place};
ghost use Rattle.sloth_io.specs.Replaced.{calls_beside, calls_there, IsReplaced, IsUnreplaced};
ghost use Rattle.std.specs.Io.{appended_bytes};

use crate::{Outcome, StoreFault, System};
use sloth_base::Result;
use std::alloc::Global;
use std::io::{Read, Write};

// Something stands there that is no plain file, as a terminal or a link, or a plain file that has another name too.
fn stays_there(found: Option<Found>) -> bool
    ensures { result ≡ is_written_there found }
{
    matches!(found, Some(found) if !found.plain || found.names > 1)
}

// A link is followed that belongs to root or to the user of this process.
fn is_followed<S: System>(system: &mut S, found: Option<Found>) -> bool
    ensures { (own : Option Found) × (S.calls system.new ≡ added (S.calls system.old) (owner_calls found own))
        × (result ≡ may_follow found own) }
{
    let Some(found) = found else {
        return true;
    };
    if !found.link || found.owner == 0 {
        return true;
    }
    matches!(system.follow("/proc/self"), Some(own) if own.owner == found.owner)
}

fn mode_before(found: Option<Found>) -> u32
    ensures { result ≡ first_mode found }
{
    match found {
        Some(_) => 0o600,
        None => 0o666,
    }
}

fn takes_mode<S: System>(system: &mut S, file: &S::File, found: Option<Found>) -> bool
    ensures { S.calls system.new ≡ added (S.calls system.old) (mode_calls found result) }
{
    match found {
        Some(found) => system.set_mode(file, found.mode & 0o777),
        None => true,
    }
}

// Writes an open file. When done, the file took all bytes, has the permissions of the one replaced, and is on its disk.
fn write_open<S: System>(host: &mut S, file: &mut S::File, was: Option<Found>, bytes: &[u8]) -> bool
    ensures given { result ≡ true → Appends (S.File.contents file.old) (S.File.contents file.new) bytes.now }
    ensures done { result ≡ true → S.calls host.new ≡ added (S.calls host.old)
        (mode_calls was true ++ Synced true ∷ []) }
    ensures failed { LeavesFiles (S.calls host.old) (S.calls host.new) }
{
    if write_whole(file, bytes) < bytes.len() {
        return false;
    }
    if !takes_mode(host, file, was) {
        return false;
    }
    host.sync(file)
}

fn fill<S: System>(system: &mut S, file: S::File, found: Option<Found>, bytes: &[u8]) -> bool
    ensures given { result ≡ true → IsGivenTo S.File.contents bytes.now }
    ensures done { result ≡ true → (to : Option (List ℕ)) × Appends (S.File.contents file) to bytes.now
        × (S.calls system.new ≡ added (S.calls system.old) (filling_calls found to)) }
    ensures failed { LeavesFiles (S.calls system.old) (S.calls system.new) }
{
    let mut file = file;
    let done = write_open(system, &mut file, found, bytes);
    system.close(file);
    done
}

fn put_in_place<S: System>(
    system: &mut S,
    name: &str,
    beside: &str,
    file: S::File,
    found: Option<Found>,
    bytes: &[u8],
) -> bool
    ensures given { result ≡ true → IsGivenTo S.File.contents bytes.now }
    ensures done { result ≡ true → (to : Option (List ℕ)) × Appends (S.File.contents file) to bytes.now
        × (S.calls system.new ≡ added (S.calls system.old) (calls_in_place found name.now beside.now to)) }
    ensures failed { result ≡ false → LeavesFile name.now (S.calls system.old) (S.calls system.new) }
{
    if !fill(system, file, found, bytes) {
        return false;
    }
    if !system.rename(beside, name) {
        return false;
    }
    system.sync_folder(name);
    true
}

// Writes a new file beside the one of a name, and gives it that name. Where anything fails, the old one stays, and the
// new one is removed; one that stood there before is left as it is.
fn write_beside<S: System>(
    system: &mut S,
    name: &str,
    beside: &str,
    found: Option<Found>,
    bytes: &[u8],
) -> bool
    ensures given { result ≡ true → IsGivenTo S.File.contents bytes.now }
    ensures done { result ≡ true → (from to : Option (List ℕ)) × Appends from to bytes.now
        × (S.calls system.new ≡ added (S.calls system.old) (calls_beside found name.now beside.now from to)) }
    ensures failed { result ≡ false → beside.now ≢ name.now → LeavesFile name.now (S.calls system.old)
        (S.calls system.new) }
{
    let Some(file) = system.make_file(beside, mode_before(found)) else {
        return false;
    };
    if put_in_place(system, name, beside, file, found, bytes) {
        return true;
    }
    system.remove(beside);
    false
}

// Writes what is no plain file where it is; a link only where root or the user of this process made it.
fn replace_there<S: System>(system: &mut S, found: Option<Found>, name: &str, bytes: &[u8]) -> bool
    ensures given { result ≡ true → IsGivenTo S.File.contents bytes.now }
    ensures done { result ≡ true → (own : Option Found) × (from to : Option (List ℕ)) × Appends from to bytes.now
        × (may_follow found own ≡ true)
        × (S.calls system.new ≡ added (S.calls system.old) (owner_calls found own ++ calls_there name.now from to)) }
    ensures failed { (further : List Call) × (S.calls system.new ≡ added (S.calls system.old) further) }
{
    if !is_followed(system, found) {
        return false;
    }
    let Some(file) = system.empty_file(name) else {
        return false;
    };
    fill(system, file, None, bytes)
}

fn is_writable<S: System>(system: &mut S, name: &str, found: Option<Found>) -> bool
    ensures done { result ≡ true → S.calls system.new ≡ added (S.calls system.old) (tried_calls name.now found) }
    ensures failed { LeavesFiles (S.calls system.old) (S.calls system.new) }
{
    match found {
        Some(_) => system.may_write(name),
        None => true,
    }
}

fn beside_name(alloc: Global, name: &str) -> Result<String>
    ensures { IfOk result (λ text. string_bytes text ≡ name.now ++ codes ".new") }
{
    let mut text = String::from_str(alloc, name)?;
    text.push_str(".new")?;
    Ok(text)
}

/// Makes a file hold these bytes, and says whether it was done: by a new file beside it, of its name with `.new` behind
/// it, which gets its permissions and takes its name when all is written and closed. What is no plain file, or has
/// another name too, is written where it is; a link only where root or the user of this process made it.
pub fn replace_file<S: System>(system: &mut S, alloc: Global, name: &str, bytes: &[u8]) -> bool
    ensures given { result ≡ true → IsGivenTo S.File.contents bytes.now }
    ensures done { result ≡ true → IsReplaced (S.calls system.old) (S.calls system.new) name.now bytes.now }
    ensures failed { result ≡ false → IsUnreplaced (S.calls system.old) (S.calls system.new) name.now }
{
    let found = system.look(name);
    if stays_there(found) {
        return replace_there(system, found, name, bytes);
    }
    if !is_writable(system, name, found) {
        return false;
    }
    let Ok(beside) = beside_name(alloc, name) else {
        return false;
    };
    write_beside(system, name, beside.as_str(), found, bytes)
}

/// What stands under a name.
#[derive(Clone, Copy)]
pub struct Found {
    /// It is a plain file: no folder, link or terminal.
    pub plain: bool,
    /// It is a link.
    pub link: bool,
    /// How many names it has.
    pub names: u64,
    /// Who may do what with it, in the nine lowest bits.
    pub mode: u32,
    /// The number of the user to whom it belongs.
    pub owner: u32,
    /// The disk, and the file's number there.
    pub device: u64,
    pub number: u64,
}

/// Reads to the end of a file, or until more bytes than the limit were taken. A read of nothing is the end.
pub fn read_whole<F: Read>(from: &mut F, limit: usize, into: &mut Vec<u8>) -> Outcome
    ensures ok { OnOk result (HasPrefixWithin limit into.old.items into.new.items) }
    ensures too_long { result ≡ Err StoreFault.TooLong → HasPrefixBeyond limit into.old.items into.new.items }
    ensures front { HasPrefix into.old.items into.new.items }
    ensures end { OnOk result (IsAtEnd (F.remaining from.new)) }
    ensures taken { result ≢ Err StoreFault.Memory →
        Consumes (F.remaining from.old) (F.remaining from.new) (appended_bytes into.old.items into.new.items) }
{
    let mut buffer = [0u8; 4096];
    let mut left = limit;
    loop {
        let Ok(count) = from.read(&mut buffer) else {
            return Err(StoreFault::Failed);
        };
        if count == 0 {
            return Ok(());
        }
        if into.extend_from_slice(&buffer[..count]).is_err() {
            return Err(StoreFault::Memory);
        }
        if count > left {
            return Err(StoreFault::TooLong);
        }
        left -= count;
    }
}

/// Writes until all is written, and says how many bytes were taken. A write of nothing is a fault, and ends it.
pub fn write_whole<W: Write>(to: &mut W, bytes: &[u8]) -> usize
    ensures most { result ≤ length bytes.now }
    ensures taken { Appends (W.contents to.old) (W.contents to.new) (take result bytes.now) }
{
    let mut taken = 0;
    while taken < bytes.len() {
        match to.write(&bytes[taken..]) {
            Ok(0) | Err(_) => return taken,
            Ok(count) => taken += count,
        }
    }
    taken
}
