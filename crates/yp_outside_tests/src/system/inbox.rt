//! Datagrams and records at a port of this machine.

ghost use Rattle.std.specs.Prelude.{◌≤◌};

use crate::given::assert_same;
use crate::system::dial::{ANY, address_of, local, mailbox};
use std::alloc::Global;
use std::io;
use std::io::{Read, Write};
use std::net::{Ipv4Addr, Net, SocketAddrV4, TcpListener, TcpStream, UdpSocket};
use std::process::Abort;
use std::rt::Files;
use std::time::{Clock, Duration};
use yp_io::{Failed, Inbox, Mail, Peer};
use yp_system::{Limits, UdpInbox};

// Longer than a test takes.
fn long() -> Duration {
    Duration::from_secs(60)
}

fn patient() -> Limits {
    Limits {
        record: long(),
        rest: long(),
        payment: long(),
    }
}

// What a turn brings, and the buffer then, of which so many bytes are offered.
type Turn = (Result<Mail, Failed>, [u8; 8]);

fn turn<R: Net + Clock + Files>(inbox: &mut UdpInbox<R>, room: usize) -> Turn
    requires { room ≤ 8 }
{
    let mut buf = [0; 8];
    let mail = inbox.next(&mut buf[..room]);
    (mail, buf)
}

// What a letter of an inbox brings to a peer: its length and its bytes, and whether the inbox's port sent it.
fn heard(peer: &UdpSocket, port: u16) -> Option<(usize, [u8; 8], bool)> {
    let mut buf = [0; 8];
    match peer.recv_from(&mut buf) {
        Ok((len, from)) => Some((len, buf, from.port() == port)),
        Err(_) => None,
    }
}

// Whether the peer sent two letters to a port.
fn reply(peer: &UdpSocket, port: u16) -> [bool; 2] {
    [
        peer.send_to(b"reply", address_of(local(port))).is_ok(),
        peer.send_to(b"longer", address_of(local(port))).is_ok(),
    ]
}

// How many ports are tried, of which others may have the half that is of TCP.
const PORTS: u32 = 64;

// A port that is free by UDP and by TCP, at each address of this machine: it is let go at once.
fn free_port<R: Net<Stream = TcpStream, Listener = TcpListener> + Abort>(rt: &R) -> u16 {
    for _ in 0..PORTS {
        let (_socket, to) = mailbox(rt);
        let at_all = SocketAddrV4::new(Ipv4Addr::UNSPECIFIED, to.port);
        if TcpListener::bind(rt, at_all).is_ok() {
            return to.port;
        }
    }
    0
}

// What a letter to the peer comes to, whether the peer answers it, and what three turns bring then.
type Talked = (
    Result<(), Failed>,
    Option<(usize, [u8; 8], bool)>,
    [bool; 2],
    [Turn; 3],
);

fn talk<R: Net + Clock + Files>(
    inbox: &mut UdpInbox<R>,
    port: u16,
    peer: &UdpSocket,
    from: Peer,
) -> Talked {
    let sent = inbox.send(from, b"call");
    let came = heard(peer, port);
    let replied = reply(peer, port);
    let turns = [turn(inbox, 8), turn(inbox, 3), turn(inbox, 8)];
    (sent, came, replied, turns)
}

#[test]
fn what_comes_and_goes_by_a_port(rt: HostRuntime) {
    let (peer, from) = mailbox(&rt);
    let patience = peer.set_read_timeout(Some(Duration::from_secs(5)));
    let port = free_port(&rt);
    let mut inbox = UdpInbox::new(rt.alloc(), rt, port);
    let came = (patience.is_ok(), talk(&mut inbox, port, &peer, from));
    let turns = [
        (Ok(Mail::Came { len: 5, from }), *b"reply\0\0\0"),
        (Ok(Mail::Came { len: 3, from }), *b"lon\0\0\0\0\0"),
        (Ok(Mail::Quiet), [0; 8]),
    ];
    let call = Some((4, *b"call\0\0\0\0", true));
    let wanted = (true, (Ok(()), call, [true; 2], turns));
    assert_same(&rt, &came, &wanted, "a call and two letters");
}

#[test]
fn port_that_another_has(rt: HostRuntime) {
    let (_other, to) = mailbox(&rt);
    let mut inbox = UdpInbox::new(rt.alloc(), rt, to.port);
    let came = (inbox.send(to, b"call"), turn(&mut inbox, 8).0);
    assert_same(&rt, &came, &(Err(Failed), Err(Failed)), "no port");
}

// How many peers write to the ends of a port.
const PEERS: u32 = 16;

// Sends each letter back that waits at an end, and answers how many those were.
fn echo_all<R: Net + Clock + Files>(end: &mut UdpInbox<R>) -> u32 {
    let mut buf = [0; 8];
    let mut letters = 0u32;
    for _ in 0..PEERS {
        let Ok(Mail::Came { len, from }) = end.next(&mut buf) else {
            break;
        };
        if end.send(from, &buf[..len]).is_ok() {
            letters = letters.saturating_add(1);
        }
    }
    letters
}

// Whoever writes has an answer from the port, at whichever end its letter comes.
#[test]
fn further_ends_of_a_port(rt: HostRuntime) {
    let port = free_port(&rt);
    let mut first = UdpInbox::new(rt.alloc(), rt, port);
    let mut ends = first.ends(rt.alloc(), 3).expect(&rt, "further ends");
    ends.push(first).expect(&rt, "memory for an end");
    let mut peers = Vec::new(rt.alloc());
    for _ in 0..PEERS {
        let (peer, _) = mailbox(&rt);
        let is_sent = peer.set_read_timeout(Some(long())).is_ok()
            && peer.send_to(b"datagram", address_of(local(port))).is_ok();
        assert_same(&rt, &is_sent, &true, "a letter");
        peers.push(peer).expect(&rt, "memory for a peer");
    }
    let mut letters = 0u32;
    for end in ends.iter_mut() {
        letters = letters.saturating_add(echo_all(end));
    }
    assert_same(&rt, &letters, &PEERS, "letters");
    for peer in peers.iter() {
        assert_same(
            &rt,
            &heard(peer, port),
            &Some((8, *b"datagram", true)),
            "an answer",
        );
    }
}

// The port of TCP is another's.
#[test]
fn port_of_which_another_has_half(rt: HostRuntime) {
    let other = TcpListener::bind(&rt, address_of(ANY)).expect(&rt, "a port");
    let port = other.local_addr().expect(&rt, "an address").port();
    let mut inbox = UdpInbox::with_calls(rt.alloc(), rt, port);
    let came = turn(&mut inbox, 8).0;
    assert_same(&rt, &came, &Err(Failed), "half a port");
}

// An inbox at a port, with a peer by UDP and callers by TCP. A letter of eight bytes comes of the peer, and a record of
// twelve bytes of a caller.
#[derive(Drop)]
struct Office<R> {
    rt: R,
    port: u16,
    inbox: UdpInbox<R>,
    peer: UdpSocket,
}

impl<
    R: Net<Stream = TcpStream, Listener = TcpListener> + Clock + Files + Copy + Drop + Abort,
> Office<R> {
    fn new(rt: R, alloc: Global, limits: Limits) -> Office<R> {
        let (peer, _) = mailbox(&rt);
        let is_set = peer.set_read_timeout(Some(long())).is_ok();
        let port = free_port(&rt);
        let mut inbox = UdpInbox::with(alloc, rt, port, Some(limits));
        inbox.open();
        assert_same(&rt, &is_set, &true, "a limit");
        Office {
            rt,
            port,
            inbox,
            peer,
        }
    }

    // Somebody calls, who waits for no answer for longer than a test takes.
    fn caller(&self) -> TcpStream {
        let stream = TcpStream::connect(&self.rt, address_of(local(self.port)));
        let stream = stream.expect(&self.rt, "a connection");
        let is_set = stream.set_read_timeout(Some(long())).is_ok()
            && stream.set_nodelay(true).is_ok();
        assert_same(&self.rt, &is_set, &true, "a limit");
        stream
    }

    // Takes so many turns, and sends each letter back to whom it came from. It answers how many there were.
    fn echo(&mut self, turns: u32) -> u32 {
        let mut buf = [0; 8_193];
        let mut letters = 0u32;
        for _ in 0..turns {
            if let Ok(Mail::Came { len, from }) = self.inbox.next(&mut buf) {
                if self.inbox.send(from, &buf[..len]).is_ok() {
                    letters = letters.saturating_add(1);
                }
            }
        }
        letters
    }

    // Whether the peer has its letter sent back, where one turn is taken for it.
    fn serves_peer(&mut self) -> bool {
        let is_sent = self
            .peer
            .send_to(b"datagram", address_of(local(self.port)))
            .is_ok();
        let letters = self.echo(1);
        is_sent && letters == 1 && heard(&self.peer, self.port) == Some((8, *b"datagram", true))
    }
}

// A record of eight bytes, of which the last is a number.
fn record(number: u8) -> [u8; 12] {
    let mut bytes = *b"\x80\0\0\x08number \0";
    bytes[11] = number;
    bytes
}

// Whether the next that comes to a caller is a record sent back.
fn has_back(caller: &mut TcpStream, number: u8) -> bool {
    let mut bytes = [0; 12];
    caller.read_exact(&mut bytes).is_ok() && bytes == record(number)
}

// Whether nothing more comes to a caller, whose connection is closed.
fn is_let_go(caller: &mut TcpStream) -> bool {
    let mut bytes = [0; 4_096];
    for _ in 0..u32::MAX {
        match caller.read(&mut bytes) {
            Ok(0) => return true,
            Ok(_) => {}
            Err(error) => return error.kind() == io::ErrorKind::ConnectionReset,
        }
    }
    false
}

// Sends bytes one by one, with a letter of the peer behind each but the last. It answers whether all of those were sent
// back.
fn send_in_bytes<R>(office: &mut Office<R>, caller: &mut TcpStream, bytes: &[u8; 12]) -> bool
where
    R: Net<Stream = TcpStream, Listener = TcpListener> + Clock + Files + Copy + Drop + Abort,
{
    let mut is_served = true;
    for byte in &bytes[..11] {
        let is_sent = caller.write_all(&[*byte]).is_ok();
        is_served = is_served && is_sent && office.serves_peer();
    }
    is_served && caller.write_all(&bytes[11..]).is_ok()
}

// Two such records and half of a third, and the other half.
const TWO_AND_HALF: &[u8; 30] = b"\x80\0\0\x08number \x02\x80\0\0\x08number \x03\x80\0\0\x08nu";

const HALF: &[u8; 6] = b"mber \x04";

// What comes of a caller whose records come byte by byte, two in one write, and with half of one more behind.
fn cut_records<R>(office: &mut Office<R>, caller: &mut TcpStream) -> [bool; 8]
where
    R: Net<Stream = TcpStream, Listener = TcpListener> + Clock + Files + Copy + Drop + Abort,
{
    let is_sent = send_in_bytes(office, caller, &record(1));
    let by_bytes = office.echo(1) == 1 && has_back(caller, 1);
    let is_written = caller.write_all(TWO_AND_HALF).is_ok();
    let whole = office.echo(2) == 2 && has_back(caller, 2) && has_back(caller, 3);
    let half = office.echo(1) == 0;
    let rest = caller.write_all(HALF).is_ok();
    let behind = office.echo(1) == 1 && has_back(caller, 4);
    // two fragments, of three bytes and of five
    let parts = caller
        .write_all(b"\0\0\0\x03num\x80\0\0\x05ber \x05")
        .is_ok();
    let joined = office.echo(1) == 1 && has_back(caller, 5);
    [
        is_sent,
        by_bytes,
        is_written,
        whole,
        half,
        rest,
        behind,
        parts && joined,
    ]
}

#[test]
fn records_in_any_cutting(rt: HostRuntime) {
    let mut office = Office::new(rt, rt.alloc(), patient());
    let mut caller = office.caller();
    let came = cut_records(&mut office, &mut caller);
    assert_same(&rt, &came, &[true; 8], "bytes, three at once, parts");
}

// A caller sends half a record and is silent, and one is answered none at all. Others go on.
fn go_on_beside<R>(
    office: &mut Office<R>,
    silent: &mut TcpStream,
    other: &mut TcpStream,
) -> [bool; 6]
where
    R: Net<Stream = TcpStream, Listener = TcpListener> + Clock + Files + Copy + Drop + Abort,
{
    let half = silent.write_all(&record(1)[..6]).is_ok() && office.echo(1) == 0;
    let is_called = other.write_all(&record(2)).is_ok();
    let served = office.echo(1) == 1 && has_back(other, 2) && office.serves_peer();
    let rest = silent.write_all(&record(1)[6..]).is_ok();
    let answered = office.echo(1) == 1 && has_back(silent, 1);
    // nobody replies to this one, and its connection stays
    let unanswered = other.write_all(&record(3)).is_ok() && turn(&mut office.inbox, 8).0.is_ok();
    let is_open = other.write_all(&record(4)).is_ok() && office.echo(1) == 1 && has_back(other, 4);
    [
        half,
        is_called,
        served,
        rest && answered,
        unanswered,
        is_open,
    ]
}

#[test]
fn half_a_record_and_silence(rt: HostRuntime) {
    let mut office = Office::new(rt, rt.alloc(), patient());
    let (mut silent, mut other) = (office.caller(), office.caller());
    let came = go_on_beside(&mut office, &mut silent, &mut other);
    assert_same(&rt, &came, &[true; 6], "half a record, and no reply");
}

// How many of these callers have a record of their own sent back, where all call before any is answered.
fn served<R>(office: &mut Office<R>, callers: &mut [TcpStream]) -> u32
where
    R: Net<Stream = TcpStream, Listener = TcpListener> + Clock + Files + Copy + Drop + Abort,
{
    let mut sent = 0u8;
    for caller in callers.iter_mut() {
        if caller.write_all(&record(sent)).is_ok() {
            sent = sent.saturating_add(1);
        }
    }
    office.echo(u32::from(sent));
    let mut number = 0u8;
    let mut served = 0u32;
    for caller in callers.iter_mut() {
        if has_back(caller, number) {
            served = served.saturating_add(1);
        }
        number = number.saturating_add(1);
    }
    served
}

#[test]
fn hundred_callers_at_once(rt: HostRuntime) {
    let mut office = Office::new(rt, rt.alloc(), patient());
    let mut callers = Vec::new(rt.alloc());
    for _ in 0..100 {
        callers
            .push(office.caller())
            .expect(&rt, "memory for callers");
    }
    let came = served(&mut office, &mut callers);
    assert_same(&rt, &came, &100, "a hundred callers");
}

// The longest record is taken, and one that is a byte longer closes its connection alone.
fn call_at_length<R>(
    office: &mut Office<R>,
    long: &mut TcpStream,
    other: &mut TcpStream,
) -> [bool; 4]
where
    R: Net<Stream = TcpStream, Listener = TcpListener> + Clock + Files + Copy + Drop + Abort,
{
    let mut longest = [7; 8_196];
    longest[..4].copy_from_slice(&[0x80, 0, 0x20, 0]);
    let mut back = [0; 8_196];
    let is_taken = other.write_all(&longest).is_ok() && office.echo(1) == 1;
    let is_back = other.read_exact(&mut back).is_ok() && back == longest;
    let too_long = long.write_all(&[0x80, 0, 0x20, 1]).is_ok() && office.echo(1) == 0;
    let others = other.write_all(&record(1)).is_ok() && office.echo(1) == 1 && has_back(other, 1);
    [is_taken, is_back, too_long && is_let_go(long), others]
}

#[test]
fn record_that_is_too_long(rt: HostRuntime) {
    let mut office = Office::new(rt, rt.alloc(), patient());
    let (mut long, mut other) = (office.caller(), office.caller());
    let came = call_at_length(&mut office, &mut long, &mut other);
    assert_same(&rt, &came, &[true; 4], "8,192 bytes and 8,193");
}

// Sends records without a pause and reads no reply, until the inbox takes no more of them.
fn stuff<R>(office: &mut Office<R>, caller: &mut TcpStream) -> bool
where
    R: Net<Stream = TcpStream, Listener = TcpListener> + Clock + Files + Copy + Drop + Abort,
{
    let mut records = [7; 8_196];
    records[..4].copy_from_slice(&[0x80, 0, 0x20, 0]);
    let mut at = 0usize;
    for _ in 0..u32::MAX {
        if at >= records.len() {
            at = 0;
        }
        match caller.write(&records[at..]) {
            Ok(count) => at = at.saturating_add(count),
            Err(_) => {
                if office.echo(1) == 0 {
                    return true;
                }
            }
        }
    }
    false
}

// A caller that reads nothing holds up nobody, and is let go.
fn call_beside_unread<R>(
    office: &mut Office<R>,
    unread: &mut TcpStream,
    other: &mut TcpStream,
) -> [bool; 5]
where
    R: Net<Stream = TcpStream, Listener = TcpListener> + Clock + Files + Copy + Drop + Abort,
{
    let is_set = unread.set_nonblocking(true).is_ok();
    let is_stuffed = stuff(office, unread);
    let others = other.write_all(&record(1)).is_ok() && office.echo(1) == 1 && has_back(other, 1);
    let is_quiet = office.echo(2) == 0;
    let is_unset = unread.set_nonblocking(false).is_ok();
    [
        is_set,
        is_stuffed,
        others,
        is_quiet,
        is_unset && is_let_go(unread),
    ]
}

#[test]
fn caller_who_reads_nothing(rt: HostRuntime) {
    let limits = Limits {
        payment: Duration::from_millis(1_500),
        ..patient()
    };
    let mut office = Office::new(rt, rt.alloc(), limits);
    let (mut unread, mut other) = (office.caller(), office.caller());
    let came = call_beside_unread(&mut office, &mut unread, &mut other);
    assert_same(&rt, &came, &[true; 5], "no reply is read");
}

// What comes of a caller who sends so much, where one turn goes by.
fn is_late<R>(office: &mut Office<R>, caller: &mut TcpStream, bytes: &[u8]) -> bool
where
    R: Net<Stream = TcpStream, Listener = TcpListener> + Clock + Files + Copy + Drop + Abort,
{
    caller.write_all(bytes).is_ok() && office.echo(1) == 0 && is_let_go(caller)
}

#[test]
fn callers_over_their_time(rt: HostRuntime) {
    let idle = Limits {
        record: Duration::from_millis(100),
        ..patient()
    };
    let half = Limits {
        rest: Duration::from_millis(100),
        ..patient()
    };
    let mut office = Office::new(rt, rt.alloc(), idle);
    let mut caller = office.caller();
    let is_idle = is_late(&mut office, &mut caller, &[]);
    let mut office = Office::new(rt, rt.alloc(), half);
    let mut caller = office.caller();
    let is_half = is_late(&mut office, &mut caller, &[0x80, 0]);
    assert_same(
        &rt,
        &[is_idle, is_half],
        &[true; 2],
        "idle, and half a head",
    );
}

// A letter to an address of this machine is sent back from there.
fn comes_back_from<R>(office: &mut Office<R>, address: [u8; 4]) -> bool
where
    R: Net<Stream = TcpStream, Listener = TcpListener> + Clock + Files + Copy + Drop + Abort,
{
    let to = SocketAddrV4::new(Ipv4Addr::from(address), office.port);
    let is_sent = office.peer.send_to(b"datagram", to).is_ok() && office.echo(1) == 1;
    let mut buf = [0; 8];
    match office.peer.recv_from(&mut buf) {
        Ok((8, from)) => is_sent && from == to.into(),
        _ => false,
    }
}

#[test]
fn replies_leave_from_where_the_call_went(rt: HostRuntime) {
    let mut office = Office::new(rt, rt.alloc(), patient());
    let came = [
        comes_back_from(&mut office, [127, 0, 0, 2]),
        comes_back_from(&mut office, [127, 0, 0, 1]),
        comes_back_from(&mut office, [127, 0, 1, 1]),
    ];
    assert_same(&rt, &came, &[true; 3], "three addresses of this machine");
}
