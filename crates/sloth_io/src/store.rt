//! Named files.
ghost use Rattle.std.specs.Prelude.{◌≡◌, ◌≢◌, IsTrue, true, OnErr, OnOk, length};
ghost use Rattle.sloth_io.specs.Store.{Files, IsAppended, IsMissing, IsTooLong, IsUnwritten, IsFileWritten};
ghost use Rattle.sloth_io.specs.Store.{MayBeOneFile, KeepsOthers, KeepsFiles, KeepsReads, said_same};

use thiserror::Error;

/// Why a store refused a call.
#[derive(Clone, Copy, Debug, Error)]
pub enum StoreFault {
    #[error("the file could not be read or written")]
    Failed,
    #[error("the file is too long")]
    TooLong,
    #[error("no memory")]
    Memory,
}

/// What a call on a file was, or why it was refused.
pub type Outcome = Result<(), StoreFault>;

/// Named files. A store may tell what they hold, counts its failed reads, overlong reads and failed writes, and tells
/// what was read and written, and of which names it said that they are of one file.
pub trait Store {
    /// What the files hold, where the store tells that, its counts, and what was read and written.
    ghost seen: { Self → Files };

    /// Appends the bytes of a file of at most `limit` bytes. Want of memory may come at any call.
    fn read(&mut self, name: &str, limit: usize, into: &mut Vec<u8>) -> Outcome
        ensures ok { OnOk result
            (IsAppended (seen self.old) (seen self.new) name.now limit into.old.items into.new.items) }
        ensures err { OnErr result (into.new.items ≡ into.old.items) }
        ensures nothing { OnErr result ((seen self.new).reads ≡ (seen self.old).reads) }
        ensures failed { result ≡ Err StoreFault.Failed → IsMissing (seen self.old) (seen self.new) name.now }
        ensures too_long { result ≡ Err StoreFault.TooLong → IsTooLong (seen self.old) (seen self.new) name.now limit }
        ensures keeps { KeepsFiles (seen self.old) (seen self.new) }

        // Only a failed read may be counted as failed, and only one that is too long as overlong.
        ensures failed_reads { result ≢ Err StoreFault.Failed → (seen self.new).failed_reads
            ≡ (seen self.old).failed_reads }
        ensures overlong_reads { result ≢ Err StoreFault.TooLong → (seen self.new).overlong_reads
            ≡ (seen self.old).overlong_reads };

    /// Makes a file hold exactly these bytes. After a failure that file may hold anything.
    fn write(&mut self, name: &str, bytes: &[u8]) -> Outcome
        ensures ok { OnOk result (IsFileWritten (seen self.old) (seen self.new) name.now bytes.now) }
        ensures failed { OnErr result (IsUnwritten (seen self.old) (seen self.new) name.now (length bytes.now)) }
        ensures only_failed { OnErr result (result ≡ Err StoreFault.Failed) }
        ensures others { KeepsOthers (seen self.old) (seen self.new) name.now }
        ensures keeps { KeepsReads (seen self.old) (seen self.new) }

        // Only a failed write is counted.
        ensures failed_writes { OnOk result ((seen self.new).failed_writes ≡ (seen self.old).failed_writes) };

    /// Whether two names are of one plain file, which a write by the one would take from the other.
    fn is_same(&mut self, one: &str, other: &str) -> bool
        ensures yes { result ≡ true → MayBeOneFile (seen self.old) one.now other.now }
        ensures no { IsTrue (seen self.old).tells → one.now ≡ other.now → result ≡ true }
        ensures said { seen self.new ≡ said_same result one.now other.now (seen self.old) };
}
