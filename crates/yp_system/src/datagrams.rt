//! The sockets of a port of UDP.
//!
//! A reply leaves from the address of its socket, and no call of the kit tells to which address a datagram came. So
//! each address of this machine has a socket of its own, and a reply goes out by the one where its call came in. One
//! more socket takes what no other one does: what came to all hosts of a network, or to an address that is new.
//!
//! A port may have several ends. Each has a socket of its own for each address, among which the system deals out the
//! callers. What the one for all takes comes to the first end alone, since what comes to all hosts of a network comes
//! to each socket that takes it.

ghost use Rattle.std.specs.Prelude.{IfOk};
ghost use Rattle.yp_io.specs.Inboxes.{MailIsWithin};

use crate::addresses::ADDRESSES_MAX;
use crate::dial::address_of;
use crate::inbox::peer_of;
use crate::reserved::{bind_socket, check, last_error, receive_from};
use libc::net::{
    AF_INET, SO_RCVBUF, SO_REUSEPORT, SOCK_CLOEXEC, SOCK_DGRAM, SOL_SOCKET, setsockopt, socket,
};
use os::FromRawFd;
use std::alloc::Global;
use std::io;
use std::io::ErrorKind;
use std::net::{Ipv4Addr, Net, SocketAddrV4, UdpSocket};
use std::os::fd::AsRawFd;
use std::sync::Arc;
use std::time::Duration;
use yp_io::{Mail, Peer};

/// The place of the socket for all addresses. The others are behind it.
pub(crate) const FOR_ALL: u32 = 0;

// The bytes of datagrams, with what the system needs for each, that may wait at a socket, as far as the system allows.
const WAITING_MAX: i32 = 1 << 20;

// How long a receive that waits does so at most, in milliseconds. The system rounds it up to a tick of its clock.
const WAIT_MILLIS: u64 = 1;

// The socket of one address.
#[derive(Drop)]
struct OwnSocket {
    address: Ipv4Addr,
    socket: UdpSocket,
}

/// The sockets of an end of a port, each at its place.
#[derive(Drop)]
pub(crate) struct Datagrams {
    port: u16,
    // whether further sockets may be opened at the port, by programs of the same user that ask for it
    is_shared: bool,
    // that of the first end
    for_all: Arc<UdpSocket>,
    own: Vec<Option<OwnSocket>>,
}

impl Datagrams {
    /// Opens a port, or where it is 0 any, for all addresses. No other program has it then.
    pub(crate) fn open<R: Net>(alloc: Global, net: &R, port: u16) -> io::Result<Datagrams> {
        let for_all = UdpSocket::bind(net, SocketAddrV4::new(Ipv4Addr::UNSPECIFIED, port))?;
        prepare(&for_all)?;
        let port = for_all.local_addr()?.port();
        let Ok(for_all) = Arc::new(alloc, for_all) else {
            return Err(ErrorKind::OutOfMemory.into());
        };
        Ok(Datagrams {
            port,
            is_shared: false,
            for_all,
            own: Vec::new(alloc),
        })
    }

    /// Has further ends be opened at the port from now on.
    pub(crate) fn share(&mut self) -> io::Result<()> {
        share(&self.for_all, true)?;
        for own in self.own.iter() {
            if let Some(own) = own {
                share(&own.socket, true)?;
            }
        }
        self.is_shared = true;
        Ok(())
    }

    /// A further end of the port. It has no socket of its own yet, which can be opened only where the port is shared.
    pub(crate) fn further(&self, alloc: Global) -> io::Result<Datagrams> {
        let Ok(for_all) = self.for_all.clone() else {
            return Err(ErrorKind::OutOfMemory.into());
        };
        Ok(Datagrams {
            port: self.port,
            is_shared: self.is_shared,
            for_all,
            own: Vec::new(alloc),
        })
    }

    /// The port.
    pub(crate) fn port(&self) -> u16 {
        self.port
    }

    /// The socket at a place.
    pub(crate) fn at(&self, place: u32) -> Option<&UdpSocket> {
        if place == FOR_ALL {
            return Some(&self.for_all);
        }
        match self.own.get(place as usize - 1) {
            Some(Some(own)) => Some(&own.socket),
            _ => None,
        }
    }

    /// Closes the sockets of addresses that are none of these.
    pub(crate) fn keep(&mut self, addresses: &[Ipv4Addr]) {
        for own in self.own.iter_mut() {
            let is_gone = match own {
                Some(own) => !addresses.iter().any(|address| *address == own.address),
                None => false,
            };
            if is_gone {
                *own = None;
            }
        }
    }

    // Whether an address has a socket of its own.
    fn has(&self, address: Ipv4Addr) -> bool {
        self.own.iter().any(|own| match own {
            Some(own) => own.address == address,
            None => false,
        })
    }

    // The first number that no address has, where there is room.
    fn free(&mut self) -> io::Result<usize> {
        for i in 0..self.own.len() {
            if self.own[i].is_none() {
                return Ok(i);
            }
        }
        if self.own.len() >= ADDRESSES_MAX {
            return Err(ErrorKind::OutOfMemory.into());
        }
        self.own.push(None)?;
        Ok(self.own.len() - 1)
    }

    /// Opens a socket for an address, and answers its place: none where there is one, or it can't be opened.
    pub(crate) fn add(&mut self, address: Ipv4Addr) -> Option<u32> {
        if self.has(address) {
            return None;
        }
        let free = self.free().ok()?;
        // The system gives a port of one address away where both sockets share it at that moment. Where the port has no
        // further ends, neither does any more then, and so no other program gets it.
        share(&self.for_all, true).ok()?;
        let opened = open_at(SocketAddrV4::new(address, self.port));
        let _ = share(&self.for_all, self.is_shared);
        let socket = opened.ok()?;
        let _ = share(&socket, self.is_shared);
        let own = self.own.get_mut(free)?;
        *own = Some(OwnSocket { address, socket });
        u32::try_from(free + 1).ok()
    }

    /// Sends one datagram from the socket at a place, or where there is none, from that for all.
    pub(crate) fn send(&self, place: u32, to: Peer, piece: &[u8]) -> io::Result<()> {
        send_from(self.at(place).unwrap_or(&self.for_all), to, piece)
    }
}

// Has a socket share its port with others that do so, or no longer.
fn share(socket: &UdpSocket, is_shared: bool) -> io::Result<()> {
    let mut value = [0; 16];
    value[..4].copy_from_slice(&i32::from(is_shared).to_ne_bytes());
    check(unsafe { setsockopt(socket.as_raw_fd(), SOL_SOCKET, SO_REUSEPORT, &value, 4) })
}

// Sets how long a receive may wait, and how much.
fn prepare(socket: &UdpSocket) -> io::Result<()> {
    widen(socket);
    socket.set_read_timeout(Some(Duration::from_millis(WAIT_MILLIS)))
}

// Has datagrams wait at a socket that many send at once, in place of being lost. Without that it has what is usual.
fn widen(socket: &UdpSocket) {
    let mut value = [0; 16];
    value[..4].copy_from_slice(&WAITING_MAX.to_ne_bytes());
    let _ = unsafe { setsockopt(socket.as_raw_fd(), SOL_SOCKET, SO_RCVBUF, &value, 4) };
}

// A socket at an address, whose port all others there share now, as it does.
fn open_at(address: SocketAddrV4) -> io::Result<UdpSocket> {
    let descriptor = unsafe { socket(AF_INET, SOCK_DGRAM | SOCK_CLOEXEC, 0) };
    if descriptor < 0 {
        return Err(last_error());
    }
    // Nothing else has this descriptor.
    let opened = unsafe { UdpSocket::from_raw_fd(descriptor) };
    share(&opened, true)?;
    bind_socket(opened.as_raw_fd(), address)?;
    prepare(&opened)?;
    Ok(opened)
}

/// Takes a datagram, if there is one now, or where it waits in a moment. It tries again where a signal interrupted
/// that. What doesn't fit the buffer is lost. A datagram of another kind of address than IPv4 has no sender that can be
/// answered, and is passed over.
pub(crate) fn receive(socket: &UdpSocket, waits: bool, buf: &mut [u8]) -> io::Result<Mail>
    ensures { IfOk result (λ mail. MailIsWithin mail buf.new) }
{
    for _ in 0..u64::MAX {
        match receive_from(socket.as_raw_fd(), waits, buf) {
            Ok((len, Some(from))) => return Ok(Mail::Came {
                len,
                from: peer_of(&from),
            }),
            Ok((_, None)) => {}
            Err(error) if error.kind() == ErrorKind::Interrupted => {}
            Err(error) if error.kind() == ErrorKind::WouldBlock => return Ok(Mail::Quiet),
            Err(error) => return Err(error),
        }
    }
    Err(ErrorKind::TimedOut.into())
}

// The error of the system where the queue of a link is full, ENOBUFS.
const QUEUE_IS_FULL: i32 = 105;

// Whether a datagram can't be sent for what its receiver is, a port of 0 or a place that isn't reached, or for a link
// that is down or full.
fn is_lost(error: &io::Error) -> bool {
    error.raw_os_error() == Some(QUEUE_IS_FULL)
        || matches!(
            error.kind(),
            ErrorKind::InvalidInput
                | ErrorKind::ConnectionRefused
                | ErrorKind::HostUnreachable
                | ErrorKind::NetworkUnreachable
                | ErrorKind::NetworkDown
                | ErrorKind::PermissionDenied
        )
}

// Sends one datagram, once the system takes it, and tries again where a signal interrupted that. One is sent whole or
// not at all. One whose
// receiver isn't reached is lost, as any may be: else whoever writes from such a place would end the command, and so
// would a link that is down for a moment.
fn send_from(socket: &UdpSocket, to: Peer, piece: &[u8]) -> io::Result<()> {
    for _ in 0..u64::MAX {
        match socket.send_to(piece, address_of(to)) {
            Err(error) if error.kind() == ErrorKind::Interrupted => {}
            Err(error) if is_lost(&error) => return Ok(()),
            answer => return answer.map(|_| ()),
        }
    }
    Err(ErrorKind::TimedOut.into())
}
