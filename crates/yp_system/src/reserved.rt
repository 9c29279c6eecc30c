//! Connections from a port under 1,024, and calls of the system that std and mio have no word for.
//!
//! A server gives the rows of a secure map to such ports alone, since only who has a right to them gets one. std
//! connects from a port that the system picks, so the calls of the system are made here.

ghost use Rattle.std.specs.Prelude.{◌≤◌, length, IfOk};
ghost use Rattle.libc.specs.Net.{RecvFlags};

use libc::net::{
    _SS_SIZE, AF_INET, MSG_DONTWAIT, SOCK_CLOEXEC, SOCK_NONBLOCK, SOCK_STREAM, accept4, bind,
    connect, recvfrom, socket,
};
use os::{FromRawFd, errno};
use std::io;
use std::io::ErrorKind;
use std::net::{Ipv4Addr, SocketAddrV4, TcpStream};
use std::os::fd::{AsRawFd, RawFd};
use std::time::Duration;

// The ports that are tried, as bindresvport(3) does: lower ones are those of services.
const FIRST: u16 = 600;

const LAST: u16 = 1023;

// The bytes of an address of IPv4 (`sockaddr_in`).
const ADDRESS_LEN: u32 = 16;

/// The ports under 1,024, tried one after the other. The next one is tried first for the next connection, since the
/// system keeps the last one to itself for a minute.
#[derive(Drop)]
pub(crate) struct ReservedPorts {
    next: u16,
}

impl ReservedPorts {
    pub(crate) fn new() -> ReservedPorts {
        ReservedPorts { next: LAST }
    }

    /// Connects from such a port, with this limit of time for connecting and for each write. Where there is no right
    /// to one that is `PermissionDenied`, and where none is free `AddrInUse` or `AddrNotAvailable`.
    pub(crate) fn connect(&mut self, to: SocketAddrV4, limit: Duration) -> io::Result<TcpStream> {
        for _ in FIRST..=LAST {
            let stream = new_socket()?;
            self.bind(&stream)?;
            stream.set_write_timeout(Some(limit))?;
            match connect_socket(&stream, to) {
                // A connection from this port to the same place isn't forgotten yet.
                Err(error) if error.kind() == ErrorKind::AddrNotAvailable => {}
                ended => return ended.map(|()| stream),
            }
        }
        Err(ErrorKind::AddrNotAvailable.into())
    }

    // Gives a socket the next port that is free.
    fn bind(&mut self, stream: &TcpStream) -> io::Result<()> {
        for _ in FIRST..=LAST {
            let port = self.take();
            match bind_socket(
                stream.as_raw_fd(),
                SocketAddrV4::new(Ipv4Addr::UNSPECIFIED, port),
            ) {
                Err(error) if error.kind() == ErrorKind::AddrInUse => {}
                ended => return ended,
            }
        }
        Err(ErrorKind::AddrInUse.into())
    }

    // The next port, and behind the lowest the highest again.
    fn take(&mut self) -> u16 {
        let port = self.next;
        self.next = if port > FIRST { port - 1 } else { LAST };
        port
    }
}

// Why the last call of the system failed.
pub(crate) fn last_error() -> io::Error {
    io::Error::from_raw_os_error(errno())
}

pub(crate) fn check(status: i32) -> io::Result<()> {
    if status < 0 {
        Err(last_error())
    } else {
        Ok(())
    }
}

// A socket of TCP over IPv4.
fn new_socket() -> io::Result<TcpStream> {
    let descriptor = unsafe { socket(AF_INET, SOCK_STREAM | SOCK_CLOEXEC, 0) };
    if descriptor < 0 {
        return Err(last_error());
    }
    // Nothing else has this descriptor.
    Ok(unsafe { TcpStream::from_raw_fd(descriptor) })
}

// The bytes of an address.
fn encoded(address: SocketAddrV4) -> [u8; _SS_SIZE] {
    let mut bytes = [0; _SS_SIZE];
    bytes[..2].copy_from_slice(&(AF_INET as u16).to_ne_bytes());
    bytes[2..4].copy_from_slice(&address.port().to_be_bytes());
    bytes[4..8].copy_from_slice(&address.ip().octets());
    bytes
}

// The address that bytes spell, where it is one of IPv4.
fn decoded(bytes: &[u8; _SS_SIZE]) -> Option<SocketAddrV4> {
    let family = u16::from_ne_bytes([bytes[0], bytes[1]]);
    let port = u16::from_be_bytes([bytes[2], bytes[3]]);
    let address = Ipv4Addr::new(bytes[4], bytes[5], bytes[6], bytes[7]);
    if family == AF_INET as u16 {
        Some(SocketAddrV4::new(address, port))
    } else {
        None
    }
}

/// The next connection of a listening socket, which never blocks, and who called. Its options are those of that socket.
pub(crate) fn accept_socket(listener: RawFd) -> io::Result<(mio::net::TcpStream, SocketAddrV4)> {
    let mut bytes = [0; _SS_SIZE];
    let mut len = _SS_SIZE as u32;
    let flags = SOCK_NONBLOCK | SOCK_CLOEXEC;
    let descriptor = unsafe { accept4(listener, &mut bytes, &mut len, flags) };
    if descriptor < 0 {
        return Err(last_error());
    }
    // Nothing else has this descriptor.
    let stream = unsafe { mio::net::TcpStream::from_raw_fd(descriptor) };
    match decoded(&bytes) {
        Some(from) => Ok((stream, from)),
        None => Err(ErrorKind::Unsupported.into()),
    }
}

// How a receive is asked for.
fn receive_flags(waits: bool) -> i32
    ensures { RecvFlags result }
{
    if waits { 0 } else { MSG_DONTWAIT }
}

/// Receives a datagram, and answers how many bytes of it are in the buffer, and its sender, where that is one of IPv4.
/// Where there is none now that is `WouldBlock`, at once or behind the socket's limit of time.
pub(crate) fn receive_from(
    socket: RawFd,
    waits: bool,
    buf: &mut [u8],
) -> io::Result<(usize, Option<SocketAddrV4>)>
    ensures { IfOk result (λ came. came.0 ≤ length buf.new) }
{
    let mut bytes = [0; _SS_SIZE];
    let mut len = _SS_SIZE as u32;
    let count = unsafe { recvfrom(socket, buf, receive_flags(waits), &mut bytes, &mut len) };
    if count < 0 {
        return Err(last_error());
    }
    Ok((count as usize, decoded(&bytes)))
}

pub(crate) fn bind_socket(socket: RawFd, address: SocketAddrV4) -> io::Result<()> {
    check(unsafe { bind(socket, &encoded(address), ADDRESS_LEN) })
}

// Connects, and goes on where a signal interrupted that. The limit of the socket's writes holds for this, too.
fn connect_socket(stream: &TcpStream, to: SocketAddrV4) -> io::Result<()> {
    let address = encoded(to);
    for _ in 0..u64::MAX {
        match check(unsafe { connect(stream.as_raw_fd(), &address, ADDRESS_LEN) }) {
            Err(error) if error.kind() == ErrorKind::Interrupted => {}
            ended => return ended,
        }
    }
    Err(ErrorKind::TimedOut.into())
}
