//! The halves of a connection that is never waited for.

ghost use Rattle.std.specs.Prelude.{◌≡◌, IsTrue, None};

use crate::streams::{read_uninterrupted, write_uninterrupted};
use mio::net::TcpStream;
use std::io::{ErrorKind, Write};
use std::mem;
use std::os::fd::{AsRawFd, RawFd};
use std::sync::Arc;
use yp_io::{Failed, TrySink, TrySource, count_fault};

/// What comes of a socket. It tells nothing of its bytes.
///
/// Behind a read that leaves room nothing is there, as a rule. So the next one answers that without asking the system,
/// which tells its watch of what comes, for as long as it is there.
#[derive(Drop)]
pub struct SocketSource {
    socket: Arc<TcpStream>,
    // whether the last read left room
    is_drained: bool,
    faults: u64,
}

impl SocketSource {
    pub(crate) fn new(socket: Arc<TcpStream>) -> SocketSource
        ensures faults { ⟦<SocketSource as TrySource>⟧.faults result ≡ 0 }
    {
        SocketSource {
            socket,
            is_drained: false,
            faults: 0,
        }
    }

    // The number of its socket.
    pub(crate) fn descriptor(&self) -> RawFd {
        self.socket.as_raw_fd()
    }
}

impl TrySource for SocketSource {
    ghost input = { λ _. None };

    ghost faults = { λ s. s.faults };

    fn try_read(&mut self, buf: &mut [u8]) -> Result<Option<usize>, Failed> {
        if mem::take(&mut self.is_drained) {
            return Ok(None);
        }
        let mut stream: &TcpStream = &self.socket;
        match read_uninterrupted(&mut stream, buf) {
            Ok(count) => {
                self.is_drained = count > 0 && count < buf.len();
                Ok(Some(count))
            }
            Err(error) if error.kind() == ErrorKind::WouldBlock => Ok(None),
            Err(_) => Err(count_fault(&mut self.faults)),
        }
    }
}

/// What goes into a socket, the same as its source's. It tells nothing of its bytes.
#[derive(Drop)]
pub struct SocketSink {
    socket: Arc<TcpStream>,
    // whether a flush came after the last write, for the contract of a sink
    flushed: bool,
    faults: u64,
}

impl SocketSink {
    pub(crate) fn new(socket: Arc<TcpStream>) -> SocketSink
        ensures output { ⟦<SocketSink as TrySink>⟧.output result ≡ None }
        ensures flushed { IsTrue (⟦<SocketSink as TrySink>⟧.flushed result) }
        ensures faults { ⟦<SocketSink as TrySink>⟧.faults result ≡ 0 }
    {
        SocketSink {
            socket,
            flushed: true,
            faults: 0,
        }
    }
}

impl TrySink for SocketSink {
    ghost output = { λ _. None };

    ghost flushed = { λ s. s.flushed };

    ghost faults = { λ s. s.faults };

    // A write that takes nothing fails, as it does in std's `write_all`.
    fn try_write(&mut self, piece: &[u8]) -> Result<Option<usize>, Failed> {
        let mut stream: &TcpStream = &self.socket;
        match write_uninterrupted(&mut stream, piece) {
            Ok(count) if count > 0 => {
                self.flushed = false;
                Ok(Some(count))
            }
            Err(error) if error.kind() == ErrorKind::WouldBlock => Ok(None),
            _ => Err(count_fault(&mut self.faults)),
        }
    }

    // The system passes on what it takes.
    fn try_flush(&mut self) -> Result<bool, Failed> {
        self.flushed = true;
        Ok(true)
    }
}
