//! Calls of the system on files.
//! The system's files: each method makes the one call its trait names, which is read by eye: no contract tells of it.
ghost use Rattle.std.specs.Prelude.{◌≡◌, [], ◌∷◌, Option, List, None};
ghost use Rattle.std.specs.Option.{option_map};
ghost use Rattle.sloth_io.specs.System.{Call, Looked, Followed, Opened, Tried, Made, Emptied, Moded, Synced, Closed};
ghost use Rattle.sloth_io.specs.System.{Renamed, Removed, FolderSynced, added};

use crate::Found;
use std::fs::{File, Metadata, OpenFile, OpenOptions, Permissions};
use std::io::{ErrorKind, Read, Write};
use std::os::unix::fs::{MetadataExt, OpenOptionsExt, PermissionsExt};
use std::rt::Files;
use std::{fs, io};

/// Calls of the system, one each. It may tell those that were made. Nothing else can be done to a file.
pub trait System {
    /// An open file. It may tell its bytes.
    type File: Read + Write + Drop;

    /// The calls that were made, where the system tells them.
    ghost calls: { Self → Option (List Call) };

    /// What stands under a name; of a link, the link.
    fn look(&mut self, name: &str) -> Option<Found>
        ensures { calls self.new ≡ added (calls self.old) (Looked name.now result ∷ []) };

    /// What a name leads to, behind links.
    fn follow(&mut self, name: &str) -> Option<Found>
        ensures { calls self.new ≡ added (calls self.old) (Followed name.now result ∷ []) };

    /// Opens a file to read it.
    fn open_file(&mut self, name: &str) -> Option<Self::File>
        ensures { calls self.new ≡ added (calls self.old)
            (Opened name.now (option_map Self.File.remaining result) ∷ []) };

    /// Whether a file can be opened to write it.
    fn may_write(&mut self, name: &str) -> bool
        ensures { calls self.new ≡ added (calls self.old) (Tried name.now result ∷ []) };

    /// Makes a file of this mode where nothing has its name.
    fn make_file(&mut self, name: &str, mode: u32) -> Option<Self::File>
        ensures { calls self.new ≡ added (calls self.old)
            (Made name.now mode (option_map Self.File.contents result) ∷ []) };

    /// Opens a file to write it anew, or makes it.
    fn empty_file(&mut self, name: &str) -> Option<Self::File>
        ensures { calls self.new ≡ added (calls self.old)
            (Emptied name.now (option_map Self.File.contents result) ∷ []) };

    /// Gives an open file this mode.
    fn set_mode(&mut self, file: &Self::File, mode: u32) -> bool
        ensures { calls self.new ≡ added (calls self.old) (Moded mode result ∷ []) };

    /// Whether the bytes of an open file are on its disk, if it has one.
    fn sync(&mut self, file: &Self::File) -> bool
        ensures { calls self.new ≡ added (calls self.old) (Synced result ∷ []) };

    /// Closes a file.
    fn close(&mut self, file: Self::File)
        ensures { calls self.new ≡ added (calls self.old) (Closed (Self.File.contents file) ∷ []) };

    /// Gives a file another name, in the place of a file that has it.
    fn rename(&mut self, from: &str, to: &str) -> bool
        ensures { calls self.new ≡ added (calls self.old) (Renamed from.now to.now result ∷ []) };

    /// Takes a file's name away.
    fn remove(&mut self, name: &str) -> bool
        ensures { calls self.new ≡ added (calls self.old) (Removed name.now result ∷ []) };

    /// Has the folder of a file put its names on its disk, if it can be opened and has one.
    fn sync_folder(&mut self, name: &str)
        ensures { calls self.new ≡ added (calls self.old) (FolderSynced name.now ∷ []) };
}

/// The files that a handle reaches. It does not tell its calls.
#[derive(Drop)]
pub struct Host<'a, R> {
    rt: &'a R,
}

impl<'a, R: Files> Host<'a, R> {
    /// The files that this handle reaches.
    pub fn new(rt: &'a R) -> Host<'a, R> {
        Host { rt }
    }
}

fn found(told: io::Result<Metadata>) -> Option<Found> {
    let told = told.ok()?;
    Some(Found {
        plain: told.is_file(),
        link: told.is_symlink(),
        names: told.nlink(),
        mode: told.mode(),
        owner: told.uid(),
        device: told.dev(),
        number: told.ino(),
    })
}

impl<'a, R: Files> System for Host<'a, R> {
    type File = R::File;

    ghost calls = { λ _. None };

    fn look(&mut self, name: &str) -> Option<Found> {
        found(fs::symlink_metadata(self.rt, name))
    }

    fn follow(&mut self, name: &str) -> Option<Found> {
        found(fs::metadata(self.rt, name))
    }

    fn open_file(&mut self, name: &str) -> Option<R::File> {
        File::open(self.rt, name).ok()
    }

    fn may_write(&mut self, name: &str) -> bool {
        OpenOptions::new().write(true).open(self.rt, name).is_ok()
    }

    fn make_file(&mut self, name: &str, mode: u32) -> Option<R::File> {
        let mut how = OpenOptions::new();
        how.write(true).create_new(true).mode(mode);
        how.open(self.rt, name).ok()
    }

    fn empty_file(&mut self, name: &str) -> Option<R::File> {
        File::create(self.rt, name).ok()
    }

    fn set_mode(&mut self, file: &R::File, mode: u32) -> bool {
        file.set_permissions(Permissions::from_mode(mode)).is_ok()
    }

    // What has no disk, as a terminal, says that it cannot be synced.
    fn sync(&mut self, file: &R::File) -> bool {
        match file.sync_all() {
            Ok(()) => true,
            Err(fault) => fault.kind() == ErrorKind::InvalidInput,
        }
    }

    fn close(&mut self, _file: R::File) {}

    fn rename(&mut self, from: &str, to: &str) -> bool {
        fs::rename(self.rt, from, to).is_ok()
    }

    fn remove(&mut self, name: &str) -> bool {
        fs::remove_file(self.rt, name).is_ok()
    }

    fn sync_folder(&mut self, name: &str) {
        let folder = match name.rsplit_once('/') {
            Some(("", _)) => "/",
            Some((folder, _)) => folder,
            None => ".",
        };
        if let Ok(folder) = File::open(self.rt, folder) {
            let _ = folder.sync_all();
        }
    }
}
