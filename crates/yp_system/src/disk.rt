//! A file of the system as a disk.

ghost use Rattle.std.specs.Prelude.{None};

use crate::locked::{FileLock, LockedFile, MapFile};
use std::alloc::{AllocError, Global};
use std::fs::{DirBuilder, File, OpenFile, OpenOptions};
use std::io::ErrorKind;
use std::os::unix::fs::{DirBuilderExt, OpenOptionsExt};
use std::rt::Files;
use std::time::Clock;
use std::{fs, io};
use yp_io::{Disk, Failed, count_fault};

/// The folder of all maps, in the folder that the program was started in.
const ROOT: &str = "ypdata";

/// The permissions of a file that is made: a map may hold password fields, so its owner alone reads it.
const FILE_MODE: u32 = 0o600;

/// The permissions of a folder that is made.
const FOLDER_MODE: u32 = 0o700;

/// When a program keeps the map for itself, so that nobody else writes it. It does so by a file beside the map's, whose
/// name no map has, so also where the map has no file yet.
#[derive(Clone, Copy, PartialEq, Eq)]
pub enum Locking {
    /// Before it is read, also where there is no folder for it yet.
    FromStart,

    /// Before it is read, or at the first write where there is no folder for it yet.
    FromReading,

    /// At the first write. Until then others that may write, too, can read it, and nobody writes it.
    FromWriting,

    /// Never, since it is only read. Who writes it waits only while it is read.
    Never,
}

/// The file of a map as a disk, which tells nothing of its bytes. It is opened at its first call. A file that isn't
/// there is an empty one, and is made at the first write, with its folders.
///
/// Whoever may write the map keeps other writers away until it ends. The file itself is locked for a reader until that
/// releases it, and for a writer from a write to the sync behind it. So a reader never meets a version half written.
#[derive(Drop)]
pub struct FileDisk<R: Files + Clock + Drop> {
    place: Place<R>,
    faults: u64,
}

impl<R: Files + Clock + Drop> FileDisk<R> {
    /// The file of the map of this name, of which what isn't text stands as one replacement character. Nothing is
    /// opened yet.
    pub fn new(
        alloc: Global,
        system: R,
        domain: &[u8],
        map: &[u8],
        locking: Locking,
    ) -> Result<FileDisk<R>, AllocError> {
        let (domain, map) = (text_of(domain), text_of(map));
        let place = Place {
            system,
            folder: format!(in alloc; "{ROOT}/{domain}")?,
            path: format!(in alloc; "{ROOT}/{domain}/{map}")?,
            claim_path: format!(in alloc; "{ROOT}/{domain}/.{map}.lock")?,
            locking,
            claim: Claim::NotYet,
            opened: Opened::NotYet,
            synced: Synced::NotYet,
        };
        Ok(FileDisk { place, faults: 0 })
    }

    /// How often it has failed.
    pub fn faults(&self) -> u64 {
        self.faults
    }
}

// The text of a name. The names of the command line are text.
fn text_of(name: &[u8]) -> &str {
    str::from_utf8(name).unwrap_or("\u{fffd}")
}

// What was found at the path.
#[derive(Drop)]
enum Opened<F> {
    NotYet,
    Nothing,
    Found(LockedFile<F>),
}

// What keeps other writers away.
#[derive(Drop)]
enum Claim<F> {
    NotYet,

    // The map may only be read.
    Refused,

    Made(FileLock<F>),
}

// How the syncs went since the file was opened.
#[derive(Clone, Copy, PartialEq, Eq)]
enum Synced {
    NotYet,

    // The folders, too.
    Whole,

    // A system reports a write that it lost once, and may then call the file clean. So no later sync is believed.
    Lost,
}

// Where a file is, and the file once it was opened.
#[derive(Drop)]
struct Place<R: Files + Clock + Drop> {
    system: R,
    folder: String,
    path: String,
    claim_path: String,
    locking: Locking,
    claim: Claim<R::File>,
    opened: Opened<R::File>,
    synced: Synced,
}

impl<R: Files + Clock + Drop> Place<R>
where
    R::File: MapFile,
{
    // Makes what keeps other writers away, with its folders, unless that is done or the map may only be read.
    fn make_claim(&mut self) -> io::Result<()> {
        if let Claim::NotYet = self.claim {
            self.claim = match make(&self.system, &self.folder, &self.claim_path, false) {
                Ok(file) => Claim::Made(FileLock::new(file)),
                Err(error) if is_for_reading_alone(error.kind()) => Claim::Refused,
                Err(error) => return Err(error),
            };
        }
        Ok(())
    }

    // Keeps those away who have the map for themselves, and, if it is to be alone, all who may write. It answers
    // whether the map may be written.
    fn claim(&mut self, is_alone: bool) -> io::Result<bool> {
        self.make_claim()?;
        let Claim::Made(lock) = &mut self.claim else {
            return Ok(false);
        };
        if is_alone {
            lock.take(&self.system)?;
        } else {
            lock.share(&self.system)?;
        }
        Ok(true)
    }

    // Whether the folder of the map is there.
    fn has_folder(&self) -> bool {
        match fs::metadata(&self.system, &self.folder) {
            Ok(found) => found.is_dir(),
            Err(_) => false,
        }
    }

    // Whether nobody else may write.
    fn is_alone(&self) -> bool {
        match &self.claim {
            Claim::Made(lock) => lock.is_only(),
            _ => false,
        }
    }

    // Looks for the file, where that wasn't done yet.
    fn open(&mut self) -> io::Result<()> {
        if let Opened::NotYet = self.opened {
            self.opened = match open(&self.system, &self.path, self.locking)? {
                Some(file) => Opened::Found(LockedFile::new(file)),
                None => Opened::Nothing,
            };
        }
        Ok(())
    }

    // The file, where there is one, while nobody writes it.
    fn file(&mut self) -> io::Result<Option<&mut LockedFile<R::File>>> {
        let mut is_kept = match self.locking {
            Locking::FromStart => self.claim(true)?,
            Locking::FromReading => self.has_folder() && self.claim(true)?,
            _ => false,
        };
        self.open()?;
        if let Opened::Found(_) = self.opened
            && self.locking == Locking::FromWriting
        {
            is_kept = self.claim(false)?;
        }
        match &mut self.opened {
            Opened::Found(file) => {
                if !is_kept {
                    file.lock().share(&self.system)?;
                }
                Ok(Some(file))
            }
            _ => Ok(None),
        }
    }

    fn len(&mut self) -> io::Result<u64> {
        match self.file()? {
            Some(file) => file.len(),
            None => Ok(0),
        }
    }

    fn read(&mut self, at: u64, buf: &mut [u8]) -> io::Result<()> {
        match self.file()? {
            Some(file) => file.read(at, buf),
            None if buf.is_empty() => Ok(()),
            None => Err(ErrorKind::UnexpectedEof.into()),
        }
    }

    // Keeps all others who may write away, and fails where one of them has written since the file was read.
    fn begin_writing(&mut self) -> io::Result<()> {
        if self.locking == Locking::Never || !self.claim(true)? {
            return Err(ErrorKind::PermissionDenied.into());
        }
        match &self.opened {
            Opened::Found(file) if !file.is_as_read()? => {}
            _ => return Ok(()),
        }
        if let Claim::Made(lock) = &mut self.claim {
            lock.give_back();
        }
        Err(ErrorKind::StaleNetworkFileHandle.into())
    }

    fn write_at(&mut self, at: u64, piece: &[u8]) -> io::Result<()> {
        self.file()?;
        if !self.is_alone() {
            self.begin_writing()?;
        }
        if let Opened::Nothing = self.opened {
            // Another program may have made it meanwhile, which is found at the next opening.
            self.opened = Opened::NotYet;
            let file = make(&self.system, &self.folder, &self.path, true)?;
            self.opened = Opened::Found(LockedFile::new(file));
        }
        match &mut self.opened {
            Opened::Found(file) => file.write(&self.system, at, piece),
            _ => Err(ErrorKind::NotFound.into()),
        }
    }

    // Syncs the file, and at the first time its folders, since without their entries it is lost in a crash.
    fn sync(&mut self) -> io::Result<()> {
        if self.synced == Synced::Lost {
            return Err(ErrorKind::InvalidData.into());
        }
        let Some(file) = self.file()? else {
            return Ok(());
        };
        let is_written = file.lock().is_only();
        let answer = file.sync();
        if is_written {
            file.lock().give_back();
        }
        if answer.is_err() {
            self.synced = Synced::Lost;
            return answer;
        }
        self.sync_folders()
    }

    fn sync_folders(&mut self) -> io::Result<()> {
        if self.synced == Synced::NotYet {
            let folder = File::open(&self.system, &self.folder)?;
            let root = File::open(&self.system, ROOT)?;
            let here = File::open(&self.system, ".")?;
            // A folder that can't be opened is tried again, and what the sync of one has lost is lost.
            self.synced = Synced::Lost;
            folder.sync_all()?;
            root.sync_all()?;
            here.sync_all()?;
            self.synced = Synced::Whole;
        }
        Ok(())
    }

    // Lets others write the file that it has read.
    fn release(&mut self) {
        if let Opened::Found(file) = &mut self.opened {
            file.lock().give_back();
        }
    }
}

// Opens a file that is there. One that may only be read is read, and a write to it fails.
fn open<R: Files>(files: &R, path: &str, locking: Locking) -> io::Result<Option<R::File>> {
    match fs::metadata(files, path) {
        Ok(found) if found.is_file() => {}
        Ok(_) => return Err(ErrorKind::InvalidInput.into()),
        Err(error) if error.kind() == ErrorKind::NotFound => return Ok(None),
        Err(error) => return Err(error),
    }
    if locking == Locking::Never {
        return Ok(Some(File::open(files, path)?));
    }
    match OpenOptions::new().read(true).write(true).open(files, path) {
        Ok(file) => Ok(Some(file)),
        Err(error) if is_for_reading_alone(error.kind()) => Ok(Some(File::open(files, path)?)),
        Err(error) => Err(error),
    }
}

// Whether an error says that the file may be there to be read, and not to be written.
fn is_for_reading_alone(kind: ErrorKind) -> bool {
    kind == ErrorKind::PermissionDenied || kind == ErrorKind::ReadOnlyFilesystem
}

// Makes a file that isn't there, with its folders. Where it may not be new, one that is there is opened.
fn make<R: Files>(files: &R, folder: &str, path: &str, is_new: bool) -> io::Result<R::File> {
    DirBuilder::new()
        .recursive(true)
        .mode(FOLDER_MODE)
        .create(files, folder)?;
    OpenOptions::new()
        .read(true)
        .write(true)
        .create(true)
        .create_new(is_new)
        .mode(FILE_MODE)
        .open(files, path)
}

impl<R: Files + Clock + Drop> Disk for FileDisk<R>
where
    R::File: MapFile,
{
    ghost history = { λ _. None };

    ghost faults = { λ d. d.faults };

    ghost reads_image = { λ _. tt };

    ghost stays = { λ _. tt };

    ghost only_now = { λ _ _ left. absurd left };

    ghost counts_now = { λ _ _ _ _ now. absurd now };

    ghost goes_on = { λ _ _ _ _ _. tt };

    ghost splits = { λ _ _ _ _ _ _ left. absurd left };

    fn len(&mut self) -> Result<u64, Failed> {
        match self.place.len() {
            Ok(len) => Ok(len),
            Err(_) => Err(count_fault(&mut self.faults)),
        }
    }

    fn read(&mut self, at: u64, buf: &mut [u8]) -> Result<(), Failed> {
        match self.place.read(at, buf) {
            Ok(()) => Ok(()),
            Err(_) => Err(count_fault(&mut self.faults)),
        }
    }

    fn write_at(&mut self, at: u64, piece: &[u8]) -> Result<(), Failed> {
        match self.place.write_at(at, piece) {
            Ok(()) => Ok(()),
            Err(_) => Err(count_fault(&mut self.faults)),
        }
    }

    fn sync(&mut self) -> Result<(), Failed> {
        match self.place.sync() {
            Ok(()) => Ok(()),
            Err(_) => Err(count_fault(&mut self.faults)),
        }
    }

    fn release(&mut self) {
        self.place.release();
    }
}
