//! Connections over TCP, to listeners of this machine.

ghost use Rattle.std.specs.Prelude.{◌≡◌, ◌+◌, ◌≤◌, min, None, IfOk};
ghost use Rattle.std.specs.Net.Addr.{ipv4_octets};
ghost use Rattle.std.specs.Net.Socket.{v4_ip, v4_port};
ghost use Rattle.yp_io.specs.Counts.{last_count};
ghost use Rattle.yp_io.specs.Dials.{GoesBack, IsFresh};

use crate::given::assert_same;
use std::alloc::Global;
use std::io;
use std::io::{ErrorKind, Read, Write};
use std::net::{
    Ipv4Addr, Net, Shutdown, SocketAddr, SocketAddrV4, TcpListener, TcpStream, UdpSocket,
};
use std::process::Abort;
use std::thread::join;
use std::time::{Clock, Duration, Instant};
use yp_io::{Dial, Failed, Pair, Peer, Sink, Source, count_fault};
use yp_system::{LocalPorts, TcpDial, TcpWire};

// Any free port of this machine.
pub const ANY: Peer = Peer {
    addr: [127, 0, 0, 1],
    port: 0,
};

pub fn address_of(peer: Peer) -> SocketAddrV4 {
    SocketAddrV4::new(Ipv4Addr::from(peer.addr), peer.port)
}

pub fn local(port: u16) -> Peer {
    Peer { port, ..ANY }
}

/// A socket at a free port, and where it is.
pub fn mailbox<R: Net + Abort>(rt: &R) -> (UdpSocket, Peer) {
    let socket = UdpSocket::bind(rt, address_of(ANY)).expect(rt, "a port");
    let address = socket.local_addr().expect(rt, "an address");
    (socket, local(address.port()))
}

// A listener at a free port, and where it is.
fn listener<R: Net<Stream = TcpStream, Listener = TcpListener> + Abort>(
    rt: &R,
) -> (TcpListener, Peer) {
    let listener = TcpListener::bind(rt, address_of(ANY)).expect(rt, "a port");
    let address = listener.local_addr().expect(rt, "an address");
    (listener, local(address.port()))
}

// A wire that a dial opened to a listener, and the peer's end of it. Then nobody listens there.
fn open<R: Net<Stream = TcpStream, Listener = TcpListener> + Clock + Drop + Abort>(
    rt: &R,
    dial: &mut TcpDial<R>,
) -> (TcpWire, TcpStream, Peer) {
    let (listener, to) = listener(rt);
    let wire = dial.dial(to).expect(rt, "a wire");
    let (peer, _) = listener.accept().expect(rt, "a peer");
    (wire, peer, to)
}

// What a write and a flush answer, and what the peer got.
type Called = (Result<usize, Failed>, Result<(), Failed>, bool, [u8; 4]);

fn call(wire: &mut TcpWire, peer: &mut TcpStream) -> Called {
    let (written, flushed) = (wire.sink.write(b"call"), wire.sink.flush());
    let mut got = [0; 4];
    let is_got = peer.read_exact(&mut got).is_ok();
    (written, flushed, is_got, got)
}

// The answer to a read, and the buffer then.
type Read3 = (Result<usize, Failed>, [u8; 3]);

fn read_three(wire: &mut TcpWire) -> Read3 {
    let mut buf = [0; 3];
    (wire.source.read(&mut buf), buf)
}

// Whether the peer sends five bytes, and no more behind them, and what three reads answer.
fn reply(wire: &mut TcpWire, peer: &mut TcpStream) -> ([bool; 2], [Read3; 3]) {
    let is_sent = peer.write_all(b"reply").is_ok();
    let (first, second) = (read_three(wire), read_three(wire));
    let is_shut = peer.shutdown(Shutdown::Write).is_ok();
    ([is_sent, is_shut], [first, second, read_three(wire)])
}

// What comes of a call and a reply, what is left for the peer once the wire is given back, and how often the dial
// failed.
type Talked = (Called, ([bool; 2], [Read3; 3]), Option<usize>, u64);

fn talk<R: Net<Stream = TcpStream, Listener = TcpListener> + Clock + Drop + Copy + Abort>(
    rt: R,
    alloc: Global,
) -> Talked {
    let mut dial = TcpDial::new(alloc, rt, LocalPorts::Any);
    let (mut wire, mut peer, _) = open(&rt, &mut dial);
    let called = call(&mut wire, &mut peer);
    let replied = reply(&mut wire, &mut peer);
    dial.back(wire);
    (called, replied, peer.read(&mut [0; 8]).ok(), dial.faults())
}

#[test]
fn what_comes_and_goes_by_a_wire(rt: HostRuntime) {
    let reads = [(Ok(3), *b"rep"), (Ok(2), *b"ly\0"), (Ok(0), [0; 3])];
    let wanted = (
        (Ok(4), Ok(()), true, *b"call"),
        ([true, true], reads),
        Some(0),
        0,
    );
    assert_same(&rt, &talk(rt, rt.alloc()), &wanted, "a call and a reply");
}

// What a write, a read and a further write answer, where the peer ends before the read.
fn reset(wire: &mut TcpWire, peer: TcpStream) -> [Result<usize, Failed>; 3] {
    let written = wire.sink.write(b"call");
    // A connection that ends with bytes unread is reset.
    drop(peer);
    let read = wire.source.read(&mut [0; 8]);
    [written, read, wire.sink.write(b"call")]
}

// The same with a dial of its own: how often it failed then, whether it reaches nobody once none listens, and how
// often it failed at the end.
fn reset_over<R: Net<Stream = TcpStream, Listener = TcpListener> + Clock + Drop + Copy + Abort>(
    rt: R,
    alloc: Global,
) -> ([Result<usize, Failed>; 3], u64, bool, u64) {
    let mut dial = TcpDial::new(alloc, rt, LocalPorts::Any);
    let (mut wire, peer, to) = open(&rt, &mut dial);
    let answers = reset(&mut wire, peer);
    dial.back(wire);
    let faults = dial.faults();
    let is_alone = dial.dial(to).is_err();
    (answers, faults, is_alone, dial.faults())
}

#[test]
fn nobody_listens_and_a_peer_resets(rt: HostRuntime) {
    let came = reset_over(rt, rt.alloc());
    let wanted = ([Ok(4), Err(Failed), Err(Failed)], 2, true, 3);
    assert_same(&rt, &came, &wanted, "a reset, and nobody");
}

// What a read answers where the peer sends nothing, and how often the dial failed.
fn wait<R: Net<Stream = TcpStream, Listener = TcpListener> + Clock + Drop + Copy + Abort>(
    rt: R,
    alloc: Global,
) -> (Result<usize, Failed>, u64) {
    let mut dial = TcpDial::with_limit(alloc, rt, LocalPorts::Any, Duration::from_millis(100));
    let (mut wire, peer, _) = open(&rt, &mut dial);
    let answer = wire.source.read(&mut [0; 8]);
    dial.back(wire);
    drop(peer);
    (answer, dial.faults())
}

#[test]
fn peer_that_never_answers(rt: HostRuntime) {
    let came = wait(rt, rt.alloc());
    assert_same(&rt, &came, &(Err(Failed), 1), "no answer");
}

// The length of a letter that arrived, and the front of its bytes.
fn arrived<R: Net<Stream = TcpStream> + Clock + Drop>(
    dial: &mut TcpDial<R>,
    inbox: &UdpSocket,
    to: Peer,
    letter: &[u8],
) -> Option<(usize, [u8; 8])> {
    let mut buf = [0; 8];
    if dial.post(to, letter).is_err() {
        return None;
    }
    match inbox.recv_from(&mut buf) {
        Ok((len, _)) => Some((len, buf)),
        Err(_) => None,
    }
}

#[test]
fn letters_arrive(rt: HostRuntime) {
    let (inbox, to) = mailbox(&rt);
    let mut dial = TcpDial::new(rt.alloc(), rt, LocalPorts::Any);
    let came = [
        arrived(&mut dial, &inbox, to, b"first"),
        arrived(&mut dial, &inbox, to, b""),
        arrived(&mut dial, &inbox, to, b"third"),
    ];
    let wanted = [
        Some((5, *b"first\0\0\0")),
        Some((0, [0; 8])),
        Some((5, *b"third\0\0\0")),
    ];
    assert_same(&rt, &came, &wanted, "three letters");
}

// Whether this program may have a port under 1,024: one that no dial tries.
fn may_have_reserved<R: Net>(rt: &R) -> bool {
    (512..600).any(|port| UdpSocket::bind(rt, address_of(local(port))).is_ok())
}

// The port from which a wire comes, as its peer sees it, where it answers a call.
fn port_of_wire<R: Net<Stream = TcpStream, Listener = TcpListener> + Clock + Drop + Abort>(
    rt: &R,
    dial: &mut TcpDial<R>,
) -> Option<u16> {
    let (mut wire, mut peer, _) = open(rt, dial);
    let (written, flushed, is_got, got) = call(&mut wire, &mut peer);
    let from = peer.peer_addr().ok()?.port();
    dial.back(wire);
    (written.is_ok() && flushed.is_ok() && is_got && got == *b"call").then_some(from)
}

#[test]
fn wires_from_reserved_ports(rt: HostRuntime) {
    let mut dial = TcpDial::new(rt.alloc(), rt, LocalPorts::Reserved);
    let first = port_of_wire(&rt, &mut dial).expect(&rt, "a wire");
    let second = port_of_wire(&rt, &mut dial).expect(&rt, "another");
    let came = (first < 1024, second < 1024, first != second, dial.faults());
    let may = may_have_reserved(&rt);
    assert_same(&rt, &came, &(may, may, true, 0), "the ports of two wires");
}

// ---- questions

// What comes of a question, and as much of the answer as there is room for.
type Asked = (Result<Option<usize>, Failed>, [u8; 4]);

fn ask<R: Net<Stream = TcpStream> + Clock + Drop>(dial: &mut TcpDial<R>, to: Peer) -> Asked {
    let mut buf = [0; 4];
    (dial.ask(to, b"question", &mut buf), buf)
}

// Answers one question, which a stranger answers before.
fn answer(socket: &UdpSocket, stranger: &UdpSocket) -> io::Result<()> {
    let mut buf = [0; 16];
    let (_, from) = socket.recv_from(&mut buf)?;
    stranger.send_to(b"bad", from)?;
    socket.send_to(b"answer", from)?;
    Ok(())
}

#[test]
fn question_that_is_answered(rt: HostRuntime) {
    let (socket, to) = mailbox(&rt);
    let (stranger, _) = mailbox(&rt);
    let mut dial = TcpDial::new(rt.alloc(), rt, LocalPorts::Any);
    let (came, answered) = join(
        &rt,
        || ask(&mut dial, to),
        || answer(&socket, &stranger).is_ok(),
    );
    assert_same(&rt, &came, &(Ok(Some(4)), *b"answ"), "an answer");
    assert_same(&rt, &(answered, dial.faults()), &(true, 0), "no fault");
}

// What comes of a question, and how many tenths of a second it took.
fn timed<R: Net<Stream = TcpStream> + Clock + Drop>(
    clock: &impl Clock,
    dial: &mut TcpDial<R>,
    to: Peer,
) -> (Asked, Option<u128>) {
    let since = Instant::now(clock).ok();
    let came = ask(dial, to);
    let took = since.and_then(|since| since.elapsed(clock).ok());
    (came, took.map(|took| took.as_millis() / 100))
}

#[test]
fn question_that_is_not_answered(rt: HostRuntime) {
    let (socket, to) = mailbox(&rt);
    let mut dial = TcpDial::new(rt.alloc(), rt, LocalPorts::Any);
    let (came, took) = timed(&rt, &mut dial, to);
    assert_same(&rt, &came, &(Ok(None), [0; 4]), "silence");
    assert!(&rt;
        took.is_some_and(|took| (19..40).contains(&took)),
        "{took:?} tenths of a second"
    );
    drop(socket);
    let (came, took) = timed(&rt, &mut dial, to);
    assert_same(&rt, &came, &(Ok(None), [0; 4]), "a port that is closed");
    assert!(&rt;
        took.is_some_and(|took| took < 10),
        "{took:?} tenths of a second"
    );
    assert_same(&rt, &dial.faults(), &0, "no fault");
}
