//! Streams that another program has made non-blocking.

ghost use Rattle.std.specs.Io.{ReadsAtMost, WritesAtMost};

use std::io;
use std::io::{ErrorKind, Read, Write};
use std::thread::sleep;
use std::time::{Clock, Duration};

// The pause between two tries.
const PAUSE_MILLISECONDS: u64 = 5;

/// A stream that is tried again, after a pause, where it would block. Whoever shares a terminal, a pipe or a socket
/// with this program can make it so. It tells nothing of its bytes.
#[derive(Drop)]
pub struct Patient<S, C> {
    stream: S,
    clock: C,
}

impl<S, C: Clock> Patient<S, C> {
    pub fn new(stream: S, clock: C) -> Patient<S, C> {
        Patient { stream, clock }
    }

    fn wait(&self) {
        sleep(&self.clock, Duration::from_millis(PAUSE_MILLISECONDS));
    }
}

impl<S: Read, C: Clock> Read for Patient<S, C> {
    fn read(&mut self, buf: &mut [u8]) -> io::Result<usize> {
        for _ in 0..u64::MAX {
            match self.stream.read(buf) {
                Err(error) if error.kind() == ErrorKind::WouldBlock => self.wait(),
                answer => return answer,
            }
        }
        Err(ErrorKind::TimedOut.into())
    }
}

impl<S: Write, C: Clock> Write for Patient<S, C> {
    fn write(&mut self, buf: &[u8]) -> io::Result<usize> {
        for _ in 0..u64::MAX {
            match self.stream.write(buf) {
                Err(error) if error.kind() == ErrorKind::WouldBlock => self.wait(),
                answer => return answer,
            }
        }
        Err(ErrorKind::TimedOut.into())
    }

    fn flush(&mut self) -> io::Result<()> {
        for _ in 0..u64::MAX {
            match self.stream.flush() {
                Err(error) if error.kind() == ErrorKind::WouldBlock => self.wait(),
                answer => return answer,
            }
        }
        Err(ErrorKind::TimedOut.into())
    }
}
