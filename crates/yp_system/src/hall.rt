//! Connections that are accepted at a port of the system without waiting, for workers of many.

ghost use Rattle.std.specs.Prelude.{◌≡◌, ◌≤◌, [], ◌∷◌, None, IfOk, IfSome};
ghost use Rattle.yp_io.specs.Dials.{IsFresh};
ghost use Rattle.yp_io.specs.Calls.{IsFreshCall, closed_then, ended_by};
ghost use Rattle.yp_io.specs.Counts.{next_count};
ghost use Rattle.yp_io.specs.Hall.{try_halves_of};

use crate::inbox::peer_of;
use crate::places::Limits;
use crate::reserved::{accept_socket, check};
use crate::socket::{SocketSink, SocketSource};
use crate::watch::{Door, TcpWaker, TcpWatch};
use libc::net::{IPPROTO_TCP, TCP_NODELAY, setsockopt};
use mio::net::{TcpListener, TcpStream};
use std::alloc::Global;
use std::io::ErrorKind;
use std::net::{Ipv4Addr, Net, SocketAddr};
use std::os::fd::AsRawFd;
use std::sync::Arc;
use std::sync::atomic::{AtomicBool, AtomicU64, Ordering};
use std::time::{Clock, Duration};
use std::{io, thread};
use yp_io::{
    CallOrigin, Called, Coming, Failed, Hall, Pair, TrySink, TrySource, Watch, count_fault,
};

/// How long an accepted connection may send nothing between its records, in seconds.
pub const RECORD_SECONDS: u64 = 300;

/// How long a record may take from its first byte to its last, in seconds.
pub const REST_SECONDS: u64 = 10;

/// How long a caller may take no byte of what is owed, in seconds.
pub const PAYMENT_SECONDS: u64 = 10;

// How often an accept is tried again at once whose caller has gone meanwhile.
const TRIES: u32 = 16;

// How long it pauses behind an accept that fails for a moment, as where memory is short, in milliseconds.
const PAUSE_MILLIS: u64 = 10;

// What the system answers where this program has no descriptor left, and where the machine has none: EMFILE and ENFILE.
const PROGRAM_IS_FULL: i32 = 24;

const MACHINE_IS_FULL: i32 = 23;

/// A connection that was accepted by TCP, and its caller.
pub type SocketCall = Called<SocketSource, SocketSink>;

/// What closes such connections. It counts them, and tells nothing of them.
#[derive(Drop)]
pub struct TcpCloser {
    closed: u64,
}

/// A port of TCP over IPv4, on every address of this machine, for callers whom nobody waits for. It is opened at the
/// first call, or by `open`, so that a command that has no use for it opens nothing, and a port that can't be opened is
/// a fault of that call. A port that another program has just left can be opened. It tells nothing of its connections.
///
/// An accept that fails for one caller alone, or for a moment, is "not now". Where no descriptor is left, that is said
/// too, and the next watch that has a connection tells its worker to let one go.
#[derive(Drop)]
pub struct TcpHall<R> {
    alloc: Global,
    system: R,
    port: u16,
    door: Option<Arc<Door>>,
    most: u64,
    accepted: u64,
    returned: u64,
    faults: u64,
    let_go: u64,
    limits: Limits,
    ghost within: { accepted ≤ most },
}

/// How long callers are waited for.
pub(crate) fn usual_limits() -> Limits {
    Limits {
        record: Duration::from_secs(RECORD_SECONDS),
        rest: Duration::from_secs(REST_SECONDS),
        payment: Duration::from_secs(PAYMENT_SECONDS),
    }
}

impl<R: Net + Clock + Copy + Drop> TcpHall<R> {
    /// What accepts so many connections at a port. Nothing is opened yet.
    pub fn new(alloc: Global, system: R, port: u16, most: u64) -> TcpHall<R>
        ensures accepted { ⟦<TcpHall<R> as Hall>⟧.accepted result ≡ 0 }
        ensures most { ⟦<TcpHall<R> as Hall>⟧.most result ≡ most }
        ensures returned { ⟦<TcpHall<R> as Hall>⟧.returned result ≡ 0 }
        ensures faults { ⟦<TcpHall<R> as Hall>⟧.faults result ≡ 0 }
        ensures let_go { ⟦<TcpHall<R> as Hall>⟧.let_go result ≡ 0 }
        ensures port { result.port ≡ port }
    {
        TcpHall::with_limits(alloc, system, port, most, usual_limits())
    }

    /// A hall with these limits for its callers.
    pub fn with_limits(alloc: Global, system: R, port: u16, most: u64, limits: Limits) -> TcpHall<R>
        ensures accepted { ⟦<TcpHall<R> as Hall>⟧.accepted result ≡ 0 }
        ensures most { ⟦<TcpHall<R> as Hall>⟧.most result ≡ most }
        ensures returned { ⟦<TcpHall<R> as Hall>⟧.returned result ≡ 0 }
        ensures faults { ⟦<TcpHall<R> as Hall>⟧.faults result ≡ 0 }
        ensures let_go { ⟦<TcpHall<R> as Hall>⟧.let_go result ≡ 0 }
        ensures port { result.port ≡ port }
    {
        TcpHall {
            alloc,
            system,
            port,
            door: None,
            most,
            accepted: 0,
            returned: 0,
            faults: 0,
            let_go: 0,
            limits,
        }
    }

    /// Opens the port ahead of the first call, so that who calls before that isn't refused. Where it can't be opened,
    /// the first call tries again, and fails.
    pub fn open(&mut self)
        ensures accepted { ⟦<TcpHall<R> as Hall>⟧.accepted self.new ≡ ⟦<TcpHall<R> as Hall>⟧.accepted self.old }
        ensures most { ⟦<TcpHall<R> as Hall>⟧.most self.new ≡ ⟦<TcpHall<R> as Hall>⟧.most self.old }
        ensures returned { ⟦<TcpHall<R> as Hall>⟧.returned self.new ≡ ⟦<TcpHall<R> as Hall>⟧.returned self.old }
        ensures faults { ⟦<TcpHall<R> as Hall>⟧.faults self.new ≡ ⟦<TcpHall<R> as Hall>⟧.faults self.old }
        ensures let_go { ⟦<TcpHall<R> as Hall>⟧.let_go self.new ≡ ⟦<TcpHall<R> as Hall>⟧.let_go self.old }
        ensures port { self.new.port ≡ self.old.port }
    {
        let _ = opened(self.alloc, &self.system, self.port, &mut self.door);
    }
}

/// Opens a port, on every address of this machine. What is written to the connections of its callers goes out at once,
/// since each reply is awaited.
pub(crate) fn listen_at<R: Net>(net: &R, port: u16) -> io::Result<TcpListener> {
    let listener = TcpListener::bind(net, SocketAddr::from((Ipv4Addr::UNSPECIFIED, port)))?;
    let mut on = [0; 16];
    on[..4].copy_from_slice(&1i32.to_ne_bytes());
    check(unsafe { setsockopt(listener.as_raw_fd(), IPPROTO_TCP, TCP_NODELAY, &on, 4) })?;
    Ok(listener)
}

// The door at a port, which the first call opens.
fn opened<'a, R: Net>(
    alloc: Global,
    net: &R,
    port: u16,
    door: &'a mut Option<Arc<Door>>,
) -> io::Result<&'a Arc<Door>> {
    if door.is_none() {
        let new = Door {
            listener: listen_at(net, port)?,
            is_short: AtomicBool::new(false),
            free: AtomicU64::new(0),
            held: AtomicU64::new(0),
            is_closed: AtomicBool::new(false),
        };
        *door = Some(shared(alloc, new)?);
    }
    door.as_ref().ok_or(ErrorKind::NotConnected.into())
}

fn shared<T: Drop>(alloc: Global, value: T) -> io::Result<Arc<T>> {
    match Arc::new(alloc, value) {
        Ok(shared) => Ok(shared),
        Err(_) => Err(ErrorKind::OutOfMemory.into()),
    }
}

// The wire of a connection: one socket, for both halves.
fn wire_of(alloc: Global, stream: TcpStream) -> io::Result<Pair<SocketSource, SocketSink>>
    ensures { IfOk result (λ wire. IsFresh
        (⟦<SocketSource as TrySource>⟧.faults wire.source)
        (⟦<SocketSink as TrySink>⟧.faults wire.sink)
        (⟦<SocketSink as TrySink>⟧.output wire.sink)) }
{
    let socket = shared(alloc, stream)?;
    let Ok(same) = socket.clone() else {
        return Err(ErrorKind::OutOfMemory.into());
    };
    Ok(Pair {
        source: SocketSource::new(socket),
        sink: SocketSink::new(same),
    })
}

// Accepts one connection. A caller of which no wire can be made is let go.
pub(crate) fn accept_one(alloc: Global, listener: &TcpListener) -> io::Result<SocketCall>
    ensures { IfOk result (IsFreshCall (try_halves_of ⟦<SocketSource as TrySource>⟧ ⟦<SocketSink as TrySink>⟧)) }
{
    let (stream, from) = accept_socket(listener.as_raw_fd())?;
    let wire = wire_of(alloc, stream)?;
    let peer = peer_of(&from);
    let origin = CallOrigin::new(peer, &wire);
    Ok(Called { origin, wire })
}

// Whether no descriptor was left for a connection.
pub(crate) fn lacks_descriptors(error: &io::Error) -> bool {
    matches!(
        error.raw_os_error(),
        Some(PROGRAM_IS_FULL | MACHINE_IS_FULL)
    )
}

// Accepts the next connection that is there and can be accepted.
fn accept_next<R: Clock>(alloc: Global, system: &R, door: &Door) -> Option<SocketCall>
    ensures { IfSome result (IsFreshCall
        (try_halves_of ⟦<SocketSource as TrySource>⟧ ⟦<SocketSink as TrySink>⟧)) }
{
    for _ in 0..TRIES {
        match accept_one(alloc, &door.listener) {
            Ok(call) => {
                // Nobody has to be let go any more.
                if door.is_short.load(Ordering::SeqCst) {
                    door.is_short.store(false, Ordering::SeqCst);
                }
                return Some(call);
            }
            Err(error) => match error.kind() {
                ErrorKind::WouldBlock => return None,
                ErrorKind::Interrupted | ErrorKind::ConnectionAborted => {}
                _ if lacks_descriptors(&error) => {
                    door.is_short.store(true, Ordering::SeqCst);
                    return None;
                }
                _ => {
                    thread::sleep(system, Duration::from_millis(PAUSE_MILLIS));
                    return None;
                }
            },
        }
    }
    None
}

impl<R: Net + Clock + Copy + Drop> Hall for TcpHall<R> {
    type In = SocketSource;

    type Out = SocketSink;

    type Closer = TcpCloser;

    type Waker = TcpWaker;

    type Watch = TcpWatch<R>;

    ghost past = { λ _. None };

    ghost most = { λ l. l.most };

    ghost accepted = { λ l. l.accepted };

    ghost returned = { λ l. l.returned };

    ghost faults = { λ l. l.faults };

    ghost let_go = { λ l. l.let_go };

    ghost closed = { λ _. None };

    ghost closed_count = { λ c. c.closed };

    fn try_accept(&mut self) -> Result<Coming<SocketSource, SocketSink>, Failed> {
        if self.accepted == self.most {
            if let Some(door) = &self.door {
                door.is_closed.store(true, Ordering::SeqCst);
            }
            return Ok(Coming::Closed);
        }
        let Ok(door) = opened(self.alloc, &self.system, self.port, &mut self.door) else {
            return Err(count_fault(&mut self.faults));
        };
        match accept_next(self.alloc, &self.system, &**door) {
            Some(call) => {
                self.accepted += 1;
                Ok(Coming::Came(call))
            }
            None => Ok(Coming::NotNow),
        }
    }

    /// It fails where the port can't be opened, or the system gives no more to watch by; then no watch tells of the
    /// door any more. Where no more are to be accepted no port is opened.
    fn watch(&mut self, is_at_door: bool) -> Result<TcpWatch<R>, Failed> {
        let watch = if self.accepted == self.most {
            TcpWatch::new(self.alloc, self.system, None, is_at_door, self.limits)
        } else {
            opened_watch(
                self.alloc,
                self.system,
                self.port,
                is_at_door,
                self.limits,
                &mut self.door,
            )
        };
        match watch {
            Ok(watch) => Ok(watch),
            Err(_) => {
                if let Some(door) = &self.door {
                    door.is_closed.store(true, Ordering::SeqCst);
                }
                Err(count_fault(&mut self.faults))
            }
        }
    }

    fn closer(&self) -> TcpCloser {
        TcpCloser { closed: 0 }
    }

    fn close(closer: &mut TcpCloser, call: SocketCall)
        ensures closed { ⟦<TcpHall<R> as Hall>⟧.closed closer.new ≡ closed_then
            (⟦<TcpHall<R> as Hall>⟧.closed closer.old)
            (ended_by (try_halves_of ⟦<SocketSource as TrySource>⟧ ⟦<SocketSink as TrySink>⟧) call ∷ []) }
        ensures count { ⟦<TcpHall<R> as Hall>⟧.closed_count closer.new
            ≡ next_count (⟦<TcpHall<R> as Hall>⟧.closed_count closer.old) }
    {
        let _closed = call;
        closer.closed = closer.closed.saturating_add(1);
    }

    fn take_in(&mut self, closer: TcpCloser) {
        self.returned = self.returned.saturating_add(closer.closed);
    }

    fn end(&mut self, watch: TcpWatch<R>) {
        self.let_go = self.let_go.saturating_add(watch.let_go());
    }
}

// A watch by the door at a port.
fn opened_watch<R: Net + Clock + Drop>(
    alloc: Global,
    system: R,
    port: u16,
    is_at_door: bool,
    limits: Limits,
    door: &mut Option<Arc<Door>>,
) -> io::Result<TcpWatch<R>>
    ensures { IfOk result (λ watch. ⟦<TcpWatch<R> as Watch>⟧.let_go watch ≡ 0) }
{
    let Ok(same) = opened(alloc, &system, port, door)?.clone() else {
        return Err(ErrorKind::OutOfMemory.into());
    };
    TcpWatch::new(alloc, system, Some(same), is_at_door, limits)
}
