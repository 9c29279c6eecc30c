//! What the system is asked to tell of sockets, by epoll(7): at each wait, for as long as it is so.

use crate::places::Places;
use crate::reserved::check;
use libc::net::{EPOLL_CTL_ADD, EPOLL_CTL_DEL, EPOLL_CTL_MOD, EPOLLIN, EPOLLOUT};
use mio::{Poll, Token};
use std::io;
use std::io::ErrorKind;
use std::os::fd::{AsRawFd, RawFd};
use yp_io::Awaited;

// Of several waits for one socket the first alone ends.
const EPOLLEXCLUSIVE: u32 = 1 << 28;

/// Whether a connection is to be written to, where this is awaited of it, or else read from.
pub(crate) fn is_written(what: Awaited) -> bool {
    what == Awaited::Payment
}

fn events_of(what: Awaited) -> u32 {
    if is_written(what) { EPOLLOUT } else { EPOLLIN }
}

fn control(
    poll: &Poll,
    operation: i32,
    socket: RawFd,
    events: u32,
    token: Token,
) -> io::Result<()> {
    check(os::epoll_ctl(poll.as_raw_fd(), operation, socket, events, token.0 as u64))
}

/// Has the system tell of a connection by this number where it may go on.
pub(crate) fn tell_of(poll: &Poll, socket: RawFd, token: Token, what: Awaited) -> io::Result<()> {
    let events = events_of(what);
    match control(poll, EPOLL_CTL_ADD, socket, events, token) {
        Err(error) if error.kind() == ErrorKind::AlreadyExists => control(
            poll,
            EPOLL_CTL_MOD,
            socket,
            events,
            token,
        ),
        answer => answer,
    }
}

/// Has it tell of each connection for what is awaited of it. Of whom it can't tell at all is lost. Where it can't tell of
/// one for something else, that connection is let go once it is late.
pub(crate) fn tell_turned(poll: &Poll, places: &mut Places) {
    for _ in 0..u64::MAX {
        let Some(turned) = places.take_turned() else {
            return;
        };
        let token = Token(turned.number);
        if turned.is_told {
            let events = events_of(turned.what);
            let _ = control(poll, EPOLL_CTL_MOD, turned.socket, events, token);
        } else if tell_of(poll, turned.socket, token, turned.what).is_err() {
            places.lose(turned.place);
        }
    }
}

/// Has the system tell by this number where somebody comes to a listening socket, behind all others who are told of it.
/// The first of them who waits is told alone.
pub(crate) fn tell_of_callers(poll: &Poll, socket: RawFd, token: Token) -> io::Result<()> {
    control(poll, EPOLL_CTL_ADD, socket, EPOLLIN | EPOLLEXCLUSIVE, token)
}

/// Has it tell nothing more of a socket.
pub(crate) fn tell_no_more(poll: &Poll, socket: RawFd) -> io::Result<()> {
    control(poll, EPOLL_CTL_DEL, socket, 0, Token(0))
}
