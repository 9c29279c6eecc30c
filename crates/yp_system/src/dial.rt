//! Connections of the system, and datagrams that are posted or ask.

ghost use Rattle.std.specs.Prelude.{◌≡◌, ◌+◌, ◌≤◌, length, min, None, IfSome, IfOk};
ghost use Rattle.std.specs.Net.Addr.{ipv4_octets};
ghost use Rattle.std.specs.Net.Socket.{v4_ip, v4_port};
ghost use Rattle.yp_io.specs.Counts.{last_count};
ghost use Rattle.yp_io.specs.Dials.{GoesBack, IsFresh};

use crate::reserved::ReservedPorts;
use crate::streams::{BlockReader, DirectWriter};
use std::alloc::Global;
use std::io;
use std::io::ErrorKind;
use std::net::{Ipv4Addr, Net, SocketAddr, SocketAddrV4, TcpStream, UdpSocket};
use std::time::{Clock, Duration, Instant};
use yp_io::{Dial, Failed, Pair, Peer, Sink, Source, count_fault};

// How long connecting, a read and a write each take at most, in seconds. It is more than a server needs that answers at
// all, and less than a login waits for.
const LIMIT_SECONDS: u64 = 30;

// How long an answer by datagram is waited for, in seconds.
const ANSWER_SECONDS: u64 = 2;

/// A connection by TCP, whose two halves tell nothing of their bytes.
pub type TcpWire = Pair<BlockReader<TcpStream>, DirectWriter<TcpStream>>;

/// The ports of this machine from which wires come.
#[derive(Clone, Copy, Debug, PartialEq, Eq)]
pub enum LocalPorts {
    /// Any that the system picks.
    Any,
    /// Those under 1,024 where the program may have one and one is free, and else any.
    Reserved,
}

/// What connects by TCP, and sends datagrams and asks by UDP, over IPv4. It tells nothing of them.
#[derive(Drop)]
pub struct TcpDial<R: Net<Stream = TcpStream> + Clock + Drop> {
    alloc: Global,
    net: R,
    limit: Duration,
    reserved: Option<ReservedPorts>,
    faults: u64,
}

impl<R: Net<Stream = TcpStream> + Clock + Drop> TcpDial<R> {
    /// Nothing is opened yet. Its wires come from these ports.
    pub fn new(alloc: Global, net: R, ports: LocalPorts) -> TcpDial<R>
        ensures { ⟦<TcpDial<R> as Dial>⟧.faults result ≡ 0 }
    {
        TcpDial::with_limit(alloc, net, ports, Duration::from_secs(LIMIT_SECONDS))
    }

    /// A dial with this limit: each wire fails where connecting, a read or a write takes longer.
    pub fn with_limit(alloc: Global, net: R, ports: LocalPorts, limit: Duration) -> TcpDial<R>
        ensures { ⟦<TcpDial<R> as Dial>⟧.faults result ≡ 0 }
    {
        let reserved = match ports {
            LocalPorts::Any => None,
            LocalPorts::Reserved => Some(ReservedPorts::new()),
        };
        TcpDial {
            alloc,
            net,
            limit,
            reserved,
            faults: 0,
        }
    }

    /// How often it has failed.
    pub fn faults(&self) -> u64
        ensures { result ≡ ⟦<TcpDial<R> as Dial>⟧.faults self.now }
    {
        self.faults
    }
}

/// The address of a peer.
pub(crate) fn address_of(peer: Peer) -> SocketAddrV4
    ensures ip { ipv4_octets (v4_ip result) ≡ peer.addr }
    ensures port { v4_port result ≡ peer.port }
{
    SocketAddrV4::new(Ipv4Addr::from(peer.addr), peer.port)
}

// Connects from a port under 1,024, where one is wanted and can be had, and else from any.
fn connect<R: Net<Stream = TcpStream>>(
    net: &R,
    reserved: &mut Option<ReservedPorts>,
    to: SocketAddrV4,
    limit: Duration,
) -> io::Result<TcpStream> {
    if let Some(ports) = reserved {
        match ports.connect(to, limit) {
            Err(error) if is_of_port(error.kind()) => {}
            ended => return ended,
        }
    }
    TcpStream::connect_timeout(net, &SocketAddr::V4(to), limit)
}

// Whether a connection failed since no port under 1,024 could be had.
fn is_of_port(kind: ErrorKind) -> bool {
    matches!(
        kind,
        ErrorKind::PermissionDenied | ErrorKind::AddrInUse | ErrorKind::AddrNotAvailable
    )
}

// The wire of a connection. What is written goes out at once, since each call is small and waits for its reply.
fn wire_of(alloc: Global, stream: TcpStream, limit: Duration) -> io::Result<TcpWire>
    ensures { IfOk result (λ wire. IsFresh
        (⟦<BlockReader<TcpStream> as Source>⟧.faults wire.source)
        (⟦<DirectWriter<TcpStream> as Sink>⟧.faults wire.sink)
        (⟦<DirectWriter<TcpStream> as Sink>⟧.output wire.sink)) }
{
    stream.set_nodelay(true)?;
    stream.set_read_timeout(Some(limit))?;
    stream.set_write_timeout(Some(limit))?;
    let Ok(source) = BlockReader::new(alloc, stream.try_clone()?) else {
        return Err(ErrorKind::OutOfMemory.into());
    };
    Ok(Pair {
        source,
        sink: DirectWriter::new(stream),
    })
}

// A socket at a port that the system picks.
fn any_socket<R: Net>(net: &R) -> io::Result<UdpSocket> {
    UdpSocket::bind(net, SocketAddrV4::new(Ipv4Addr::UNSPECIFIED, 0))
}

// Sends one datagram, and tries again where a signal interrupted that. One is sent whole or not at all.
fn send(socket: &UdpSocket, to: Peer, piece: &[u8]) -> io::Result<()> {
    for _ in 0..u64::MAX {
        match socket.send_to(piece, address_of(to)) {
            Err(error) if error.kind() == ErrorKind::Interrupted => {}
            answer => return answer.map(|_| ()),
        }
    }
    Err(ErrorKind::TimedOut.into())
}

// A socket that takes datagrams of this peer alone, from which one was sent there.
fn asking<R: Net>(net: &R, to: Peer, piece: &[u8]) -> io::Result<UdpSocket> {
    let socket = any_socket(net)?;
    socket.connect(address_of(to))?;
    send(&socket, to, piece)?;
    Ok(socket)
}

// How much is left of the time in which an answer may come, if any is. Where the clock can't be read none is.
fn time_left(clock: &impl Clock, since: Instant) -> Option<Duration> {
    let gone = since.elapsed(clock).ok()?;
    let left = Duration::from_secs(ANSWER_SECONDS).checked_sub(gone)?;
    (!left.is_zero()).then_some(left)
}

// Waits for a datagram of a peer, until the time is over or the socket fails, as where the peer's port is refused. It
// tries again where a signal interrupted that, and passes over what a stranger sent before the socket had its peer.
fn await_answer(
    clock: &impl Clock,
    socket: &UdpSocket,
    from: Peer,
    since: Instant,
    buf: &mut [u8],
) -> Option<usize>
    ensures { IfSome result (λ len. len ≤ length buf.new) }
{
    for _ in 0..u64::MAX {
        let left = time_left(clock, since)?;
        socket.set_read_timeout(Some(left)).ok()?;
        match socket.recv_from(buf) {
            Ok((len, sender)) if sender == SocketAddr::V4(address_of(from)) => return Some(len),
            Err(error) if error.kind() != ErrorKind::Interrupted => return None,
            _ => {}
        }
    }
    None
}

// Sends one datagram, and waits for its answer. Where it fails none was sent.
fn ask<R: Net + Clock>(net: &R, to: Peer, piece: &[u8], buf: &mut [u8]) -> io::Result<Option<usize>>
    ensures { IfOk result (λ came. IfSome came (λ len. len ≤ length buf.new)) }
{
    let since = Instant::now(net)?;
    let socket = asking(net, to, piece)?;
    Ok(await_answer(net, &socket, to, since, buf))
}

impl<R: Net<Stream = TcpStream> + Clock + Drop> Dial for TcpDial<R> {
    type In = BlockReader<TcpStream>;

    type Out = DirectWriter<TcpStream>;

    ghost past = { λ _. None };

    ghost letters = { λ _. None };

    ghost faults = { λ d. d.faults };

    /// It also fails where memory has run out.
    fn dial(&mut self, to: Peer) -> Result<TcpWire, Failed> {
        let stream = connect(&self.net, &mut self.reserved, address_of(to), self.limit);
        match stream.and_then(|stream| wire_of(self.alloc, stream, self.limit)) {
            Ok(wire) => Ok(wire),
            Err(_) => Err(count_fault(&mut self.faults)),
        }
    }

    fn post(&mut self, to: Peer, piece: &[u8]) -> Result<(), Failed> {
        match any_socket(&self.net).and_then(|socket| send(&socket, to, piece)) {
            Ok(()) => Ok(()),
            Err(_) => Err(count_fault(&mut self.faults)),
        }
    }

    fn ask(&mut self, to: Peer, piece: &[u8], buf: &mut [u8]) -> Result<Option<usize>, Failed> {
        match ask(&self.net, to, piece, buf) {
            Ok(came) => Ok(came),
            Err(_) => Err(count_fault(&mut self.faults)),
        }
    }

    fn back(&mut self, wire: TcpWire)
        ensures past { GoesBack
            (record {
              input = ⟦<BlockReader<TcpStream> as Source>⟧.input wire.source;
              output = ⟦<DirectWriter<TcpStream> as Sink>⟧.output wire.sink;
              flushed = ⟦<DirectWriter<TcpStream> as Sink>⟧.flushed wire.sink;
            })
            (⟦<TcpDial<R> as Dial>⟧.past self.old)
            (⟦<TcpDial<R> as Dial>⟧.past self.new) }
        ensures letters { ⟦<TcpDial<R> as Dial>⟧.letters self.new ≡ ⟦<TcpDial<R> as Dial>⟧.letters self.old }
        ensures faults { min
            (⟦<TcpDial<R> as Dial>⟧.faults self.old
            + ⟦<BlockReader<TcpStream> as Source>⟧.faults wire.source
            + ⟦<DirectWriter<TcpStream> as Sink>⟧.faults wire.sink)
            last_count ≤ ⟦<TcpDial<R> as Dial>⟧.faults self.new }
    {
        let faults = wire.source.faults().saturating_add(wire.sink.faults());
        self.faults = self.faults.saturating_add(faults);
    }
}
