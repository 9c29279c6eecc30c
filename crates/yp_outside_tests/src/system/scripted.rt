//! A system for tests, with one file that does what a test wants.

use std::alloc::Allocator;
use std::cell::Cell;
use std::fs::{Metadata, OpenFile, OpenOptions};
use std::io;
use std::io::{Empty, ErrorKind, Read, Seek, SeekFrom, Write};
use std::os::unix::fs::FileExt;
use std::rt::Files;
use std::time::{Clock, Duration};
use yp_system::MapFile;

// What this system doesn't do.
fn unsupported<T>() -> io::Result<T> {
    Err(ErrorKind::Unsupported.into())
}

/// An open file. Its first read is interrupted, the next ones give its bytes, and then it fails or ends. It takes all
/// that is written. Of the syncs, counted over all files and folders, the one with this number fails. What is locked is
/// kept by digits, one behind the other: 1 and 2 for the lock on a file `.NAME.lock` that others may share, and for the
/// only one, and 3 where it is given back; 4, 5 and 6 for those on any other file.
#[derive(Clone, Copy)]
pub struct Scripted<'a> {
    /// Its length, where it tells one.
    pub len: Option<u64>,
    pub is_interrupted: bool,
    pub bytes: usize,
    pub fault: Option<ErrorKind>,
    pub syncs: &'a Cell<u32>,
    pub failing: u32,
    pub locks: &'a Cell<u64>,
    pub is_lock: bool,
}

impl Scripted<'_> {
    // Keeps a digit: the first where this is a lock, else the second.
    fn keep(&self, of_lock: u64, of_other: u64) -> io::Result<()> {
        let digit = if self.is_lock { of_lock } else { of_other };
        let locks = self.locks.get();
        self.locks
            .set(locks.saturating_mul(10).saturating_add(digit));
        Ok(())
    }
}

impl Read for Scripted<'_> {
    fn read(&mut self, buf: &mut [u8]) -> io::Result<usize> {
        if !self.is_interrupted {
            self.is_interrupted = true;
            return Err(ErrorKind::Interrupted.into());
        }
        match self.fault {
            Some(kind) if self.bytes == 0 => Err(kind.into()),
            _ => {
                let count = self.bytes.min(buf.len());
                buf[..count].fill(b'x');
                self.bytes -= count;
                Ok(count)
            }
        }
    }
}

impl Write for Scripted<'_> {
    fn write(&mut self, _buf: &[u8]) -> io::Result<usize> {
        Err(ErrorKind::Unsupported.into())
    }

    fn flush(&mut self) -> io::Result<()> {
        unsupported()
    }
}

impl Seek for Scripted<'_> {
    fn seek(&mut self, _to: SeekFrom) -> io::Result<u64> {
        unsupported()
    }
}

impl OpenFile for Scripted<'_> {
    fn metadata(&self) -> io::Result<Metadata> {
        match self.len {
            Some(len) => Ok(Metadata::of_file(len)),
            None => unsupported(),
        }
    }

    fn set_len(&self, _size: u64) -> io::Result<()> {
        unsupported()
    }

    fn sync_all(&self) -> io::Result<()> {
        let number = self.syncs.get();
        self.syncs.set(number.saturating_add(1));
        if number == self.failing {
            return unsupported();
        }
        Ok(())
    }

    fn sync_data(&self) -> io::Result<()> {
        unsupported()
    }
}

impl FileExt for Scripted<'_> {
    fn read_at(&self, _buf: &mut [u8], _offset: u64) -> io::Result<usize> {
        Err(ErrorKind::Unsupported.into())
    }

    fn write_at(&self, buf: &[u8], _offset: u64) -> io::Result<usize> {
        Ok(buf.len())
    }
}

impl MapFile for Scripted<'_> {
    fn try_lock_as(&self, is_only: bool) -> io::Result<bool> {
        if is_only {
            self.keep(2, 5)?;
        } else {
            self.keep(1, 4)?;
        }
        Ok(true)
    }

    fn give_back(&self) -> io::Result<()> {
        self.keep(3, 6)
    }
}

/// A system with one file at a path, or at each path. It is a folder where no length is given. The folder that the
/// program was started in can't be opened while it is shut.
#[derive(Clone, Copy)]
pub struct OneFile<'a> {
    pub path: Option<&'a str>,
    pub len: Option<u64>,
    pub file: Scripted<'a>,
    pub is_shut: &'a Cell<bool>,
}

impl OneFile<'_> {
    fn is_at(&self, path: &str) -> bool {
        match self.path {
            Some(own) => own == path,
            None => true,
        }
    }
}

impl<'a> Files for OneFile<'a> {
    type File = Scripted<'a>;

    type Dir = Empty;

    fn open_file(&self, _how: &OpenOptions, path: &str) -> io::Result<Scripted<'a>> {
        match self.len {
            Some(_) if path == "." && self.is_shut.get() => unsupported(),
            Some(_) if self.is_at(path) => Ok(Scripted {
                is_lock: path.ends_with(".lock"),
                ..self.file
            }),
            _ => Err(ErrorKind::NotFound.into()),
        }
    }

    fn metadata(&self, path: &str) -> io::Result<Metadata> {
        match self.len {
            _ if !self.is_at(path) => Err(ErrorKind::NotFound.into()),
            Some(len) => Ok(Metadata::of_file(len)),
            None => Ok(Metadata::of_dir()),
        }
    }

    fn open_dir(&self, _path: &str) -> io::Result<Empty> {
        unsupported()
    }

    fn symlink_metadata(&self, _path: &str) -> io::Result<Metadata> {
        unsupported()
    }

    fn copy(&self, _from: &str, _to: &str) -> io::Result<u64> {
        unsupported()
    }

    fn rename(&self, _from: &str, _to: &str) -> io::Result<()> {
        unsupported()
    }

    fn remove_file(&self, _path: &str) -> io::Result<()> {
        unsupported()
    }

    fn create_dir(&self, _path: &str) -> io::Result<()> {
        unsupported()
    }

    fn create_dir_with_mode(&self, _path: &str, _mode: u32) -> io::Result<()> {
        Ok(())
    }

    fn remove_dir(&self, _path: &str) -> io::Result<()> {
        unsupported()
    }

    fn remove_dir_all<B: Allocator>(&self, _alloc: B, _path: &str) -> io::Result<()> {
        unsupported()
    }
}

impl Clock for OneFile<'_> {
    fn monotonic(&self) -> io::Result<Duration> {
        unsupported()
    }

    fn since_1970(&self) -> io::Result<Duration> {
        unsupported()
    }
}
