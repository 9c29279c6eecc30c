//! Open files that programs lock against one another.

use std::fs::{File, OpenFile, TryLockError};
use std::io;
use std::io::ErrorKind;
use std::os::unix::fs::FileExt;
use std::thread::sleep;
use std::time::{Clock, Duration};

/// How long a lock is tried for, with a pause after each try, in milliseconds. A build of a large map takes about a
/// second.
const LOCK_MILLISECONDS: u64 = 5_000;

const PAUSE_MILLISECONDS: u64 = 20;

/// The front of a file that each version which is stored changes: the cells of a store file.
const FRONT_LEN: usize = 64;

/// An open file that can be read and written at a place, and locked.
pub trait MapFile: OpenFile + FileExt {
    /// Takes the only lock, or one that others may share. It answers whether no other lock was in the way, and where
    /// one was, this file may have lost the lock that it had.
    fn try_lock_as(&self, is_only: bool) -> io::Result<bool>;

    /// Gives the lock back, if it has one.
    fn give_back(&self) -> io::Result<()>;
}

impl MapFile for File {
    fn try_lock_as(&self, is_only: bool) -> io::Result<bool> {
        let answer = if is_only {
            self.try_lock()
        } else {
            self.try_lock_shared()
        };
        match answer {
            Ok(()) => Ok(true),
            Err(TryLockError::WouldBlock) => Ok(false),
            Err(TryLockError::Error(error)) => Err(error),
        }
    }

    fn give_back(&self) -> io::Result<()> {
        self.unlock()
    }
}

/// The lock that a file has.
#[derive(Clone, Copy, PartialEq, Eq)]
pub enum Held {
    Nothing,
    Shared,
    Only,
}

/// An open file with its lock.
#[derive(Drop)]
pub struct FileLock<F> {
    file: F,
    held: Held,
}

impl<F: MapFile> FileLock<F> {
    /// It isn't locked yet.
    pub fn new(file: F) -> FileLock<F> {
        FileLock {
            file,
            held: Held::Nothing,
        }
    }

    /// Whether it has the only lock.
    pub fn is_only(&self) -> bool {
        self.held == Held::Only
    }

    /// Takes a lock that others may share, where it has none. It tries for a while, and fails where the only lock of
    /// another stays in the way.
    pub fn share(&mut self, clock: &impl Clock) -> io::Result<()> {
        match self.held {
            Held::Nothing => self.lock_as(clock, Held::Shared),
            _ => Ok(()),
        }
    }

    /// Takes the only lock, where it doesn't have that. It tries for a while, and fails where another lock stays in the
    /// way. Then it has none.
    pub fn take(&mut self, clock: &impl Clock) -> io::Result<()> {
        match self.held {
            Held::Only => Ok(()),
            _ => self.lock_as(clock, Held::Only),
        }
    }

    fn lock_as(&mut self, clock: &impl Clock, wanted: Held) -> io::Result<()> {
        for _ in 0..LOCK_MILLISECONDS / PAUSE_MILLISECONDS {
            if self.file.try_lock_as(wanted == Held::Only)? {
                self.held = wanted;
                return Ok(());
            }
            self.held = Held::Nothing;
            sleep(clock, Duration::from_millis(PAUSE_MILLISECONDS));
        }
        Err(ErrorKind::WouldBlock.into())
    }

    /// Gives its lock back, if it has one.
    pub fn give_back(&mut self) {
        if self.held != Held::Nothing && self.file.give_back().is_ok() {
            self.held = Held::Nothing;
        }
    }
}

/// The file of a map, which is locked while it is read or written. What was read last of its front is kept, by which a
/// program that didn't keep others from writing meanwhile sees that one has written.
#[derive(Drop)]
pub struct LockedFile<F> {
    lock: FileLock<F>,
    len: u64,
    front: [u8; FRONT_LEN],
}

impl<F: MapFile> LockedFile<F> {
    /// It isn't locked yet.
    pub fn new(file: F) -> LockedFile<F> {
        LockedFile {
            lock: FileLock::new(file),
            len: 0,
            front: [0; FRONT_LEN],
        }
    }

    /// Its lock.
    pub fn lock(&mut self) -> &mut FileLock<F> {
        &mut self.lock
    }

    pub fn len(&mut self) -> io::Result<u64> {
        self.len = self.lock.file.metadata()?.len();
        Ok(self.len)
    }

    pub fn read(&mut self, at: u64, buf: &mut [u8]) -> io::Result<()> {
        self.lock.file.read_exact_at(buf, at)?;
        if at == 0
            && let Some(front) = buf.first_chunk()
        {
            self.front = *front;
        }
        Ok(())
    }

    /// Whether its length and its front are as they were read last.
    pub fn is_as_read(&self) -> io::Result<bool> {
        let len = self.lock.file.metadata()?.len();
        let mut front = [0; FRONT_LEN];
        if len >= FRONT_LEN as u64 {
            self.lock.file.read_exact_at(&mut front, 0)?;
        }
        Ok(len == self.len && front == self.front)
    }

    /// Writes, with the only lock on the file, which it keeps. So nobody reads the file until it is synced. A write
    /// that fails gives the lock back.
    pub fn write(&mut self, clock: &impl Clock, at: u64, piece: &[u8]) -> io::Result<()> {
        self.lock.take(clock)?;
        let answer = self.lock.file.write_all_at(piece, at);
        if answer.is_err() {
            self.lock.give_back();
        }
        answer
    }

    /// Syncs the file.
    pub fn sync(&self) -> io::Result<()> {
        self.lock.file.sync_all()
    }
}
