//! Datagrams of a server, by an inbox in memory.

ghost use Rattle.std.specs.Prelude.{◌≡◌, ◌≤◌, length};

use crate::given::{NEVER, assert_same, named};
use crate::reader::{Knew, ReaderHost, two_hosts};
use std::alloc::Global;
use std::marker::Brand;
use std::process::Abort;
use std::random::RandomSource;
use std::sync::Wait;
use yp_board::readers::{Naming, Opened};
use yp_io::{Failed, Letter, Peer};
use yp_memory::MemInbox;
use yp_publisher::sharing::Site;
use yp_rpc::{DATAGRAM_MAX, Ended, Handler, Room};
use yp_worker::datagrams::{Carrier, DeferredPass, DeferredQueue, MailServer, serve_mail};

pub const OWN_HOST: [u8; 4] = [127, 0, 0, 1];

const OTHER_HOST: [u8; 4] = [10, 0, 0, 9];

// Names of words of datagrams (yp.x, RFC 5531 section 9), and of the places that letters go to: the ports 700 and 701,
// and the port 700 of another host.
//
// MATCH is of `alpha` in passwd.byname of `d`, and MATCHED the head of its replies with results: the values `alpha:1`
// and `alpha:2`, behind the status TRUE, or YPERR without a value. NONACK is DOMAIN_NONACK of `d`, and of `e`, which
// isn't served. ALL and MAKE are of passwd.byname of `d`, and NAMED makes the same map by its name. These have replies
// with RSRC, the status of a host that makes no map, and with REFUSED. XFR is of hosts.byname of `d` from the host
// `m2`, with the transaction 9, and its reply has SUCC.
pub static NAMES: &str = "\
NULL = 00000007 00000000 00000002 000186a4 00000002 00000000 00000000 00000000 00000000 00000000
NULL_REPLY = 00000007 00000001 00000000 00000000 00000000 00000000
MATCH = 00000001 00000000 00000002 000186a4 00000002 00000003 00000000 00000000 00000000 \
    00000000 00000001 64000000 0000000d 70617373 77642e62 796e616d 65000000 00000005 616c7068 \
    61000000
MATCHED = 00000001 00000001 00000000 00000000 00000000 00000000
ONE = 00000001 00000007 616c7068 613a3100
TWO = 00000001 00000007 616c7068 613a3200
ERROR = fffffffa 00000000
NONACK = 00000003 00000000 00000002 000186a4 00000002 00000002 00000000 00000000 00000000 \
    00000000 00000001 64000000
NONACK_REPLY = 00000003 00000001 00000000 00000000 00000000 00000000 00000001
NONACK_OTHER = 00000003 00000000 00000002 000186a4 00000002 00000002 00000000 00000000 00000000 \
    00000000 00000001 65000000
ALL = 00000004 00000000 00000002 000186a4 00000002 00000008 00000000 00000000 00000000 00000000 \
    00000001 64000000 0000000d 70617373 77642e62 796e616d 65000000
UNKNOWN = 00000004 00000001 00000000 00000000 00000000 00000003
MAKE = 00000002 00000000 00000002 20004e49 00000001 00000001 00000000 00000000 00000000 00000000 \
    00000001 64000000 00000001
NAMED = 00000002 00000000 00000002 20004e49 00000001 00000002 00000000 00000000 00000000 00000000 \
    00000001 64000000 0000000d 70617373 77642e62 796e616d 65000000
NOT_MADE = 00000002 00000001 00000000 00000000 00000000 00000000 fffffffd
REFUSED = 00000002 00000001 00000000 00000000 00000000 00000000 fffffff2
XFR = 00000005 00000000 00000002 000186a4 00000002 00000006 00000000 00000000 00000000 00000000 \
    00000001 64000000 0000000c 686f7374 732e6279 6e616d65 00000000 00000002 6d320000 00000009 \
    40000000 00000400
TAKEN = 00000005 00000001 00000000 00000000 00000000 00000000 00000009 00000001
TO_700 = 7f000001 000002bc
TO_701 = 7f000001 000002bd
TO_OTHER = 0a000009 000002bc
";

/// A datagram: the address and port of its sender, its words, and its length with zeros behind them. One without words
/// is a quiet turn.
pub type Mail = ([u8; 4], u16, &'static str, usize);

const QUIET: Mail = (OWN_HOST, 0, "", 0);

// What others show, one before each quiet turn, the datagrams, a turn each, the calls of the inbox that fail, and the
// most turns. Then what comes of that: how it ends, the turns that are taken, the transfers that are carried out, and
// what is sent, each letter behind the place that it goes to.
struct Row {
    name: &'static str,
    shown: &'static [&'static [u8]],
    mail: &'static [Mail],
    failing: u64,
    most: u64,
    ended: Result<Ended, Failed>,
    turns: u64,
    transfers: u64,
    sent: &'static str,
}

fn letter_of(rt: &impl Abort, alloc: Global, mail: &Mail) -> Letter {
    let (addr, port, words, len) = *mail;
    let mut bytes = named(rt, alloc, NAMES, words);
    let len = len.max(bytes.len());
    bytes.resize(len, 0).expect(rt, "memory for zeros");
    Letter {
        peer: Peer { addr, port },
        bytes,
    }
}

/// Letters of these datagrams, and none for a quiet turn.
pub fn mail_of(rt: &impl Abort, alloc: Global, mail: &[Mail]) -> Vec<Option<Letter>> {
    let mut letters = Vec::new(alloc);
    for datagram in mail {
        let letter = match datagram.2 {
            "" => None,
            _ => Some(letter_of(rt, alloc, datagram)),
        };
        letters.push(letter).expect(rt, "memory for mail");
    }
    letters
}

fn extend(rt: &impl Abort, all: &mut Vec<u8>, bytes: &[u8]) {
    all.extend_from_slice(bytes).expect(rt, "memory for bytes");
}

/// Letters one after the other, each behind the place that it goes to.
pub fn sent(rt: &impl Abort, alloc: Global, letters: &[Letter]) -> Vec<u8> {
    let mut all = Vec::new(alloc);
    for letter in letters {
        let port = u32::from(letter.peer.port);
        extend(rt, &mut all, &letter.peer.addr);
        extend(rt, &mut all, &port.to_be_bytes());
        extend(rt, &mut all, &letter.bytes);
    }
    all
}

// How turns end, how many were taken, how many transfers were carried out, and what was sent.
type Came = (Result<Ended, Failed>, u64, u64, Vec<u8>);

// How many transfers a carrier with this host carries out, behind a server that held this part of the queue.
fn carried<'r, J: Site, N: Naming, R: Wait + Abort>(
    rt: &'r R,
    alloc: Global,
    pending: &DeferredQueue<J, Knew<N>>,
    pass: DeferredPass<Knew<N>>,
    part: DeferredPass<Knew<N>>,
    host: ReaderHost<'r, N, R>,
) -> u64
    requires queue { (pass.queue ≡ pending.now) × (part.queue ≡ pending.now) }
    requires catalogue { host.reader.catalogue ≡ J.catalogue }
{
    let failing = vec![in alloc; NEVER].expect(rt, "memory for a number");
    let outbox = MemInbox::new(alloc, Vec::new(alloc), failing);
    let letter = vec![in alloc; 0; DATAGRAM_MAX].expect(rt, "memory for a reply");
    let mut carrier = Carrier::new(host, pending, pass, outbox, letter, rt);
    carrier.merge(part);
    carrier.carry_rest();
    let (host, _, _, _) = carrier.into_parts();
    host.transfers
}

// Takes so many turns at most, and tells how many transfers were carried out, with a carrier behind the turns.
fn serve_turns<'r, J: Site, N: Naming, R: Wait + Abort>(
    rt: &'r R,
    alloc: Global,
    inbox: &mut MemInbox,
    hosts: (ReaderHost<'r, N, R>, ReaderHost<'r, N, R>),
    most: u64,
) -> (Result<Ended, Failed>, u64)
    requires first { hosts.0.reader.catalogue ≡ J.catalogue }
    requires second { hosts.1.reader.catalogue ≡ J.catalogue }
{
    let (host, other) = hosts;
    let made = DeferredQueue::<J, Knew<N>>::new(alloc, 1);
    let (pending, mut pass) = made.expect(rt, "memory for a queue");
    let part = pending.split_off(&mut pass);
    let mut server = MailServer::new(alloc, host, &pending, part, rt);
    let mut room = Room::new(alloc).expect(rt, "memory for turns");
    let ended = serve_mail(inbox, &mut server, &mut room, most);
    let (host, part) = server.into_parts();
    let others = carried(rt, alloc, &pending, pass, part, other);
    (ended, host.transfers.saturating_add(others))
}

// Takes turns of an inbox with these letters, of which this call fails, behind which others show these values.
fn take_turns<N: Naming, R: RandomSource + Wait + Abort>(
    rt: &R,
    alloc: Global,
    opened: Opened,
    values: &[&[u8]],
    inbox: &mut MemInbox,
    most: u64,
) -> (Result<Ended, Failed>, u64)
    requires { opened ≡ N.book }
{
    let hosts = two_hosts::<N, R>(rt, alloc, opened, values);
    serve_turns::<Brand, N, R>(rt, alloc, inbox, hosts, most)
}

// What comes of these datagrams, behind which others show these values.
fn served<R: RandomSource + Wait + Abort>(
    rt: &R,
    alloc: Global,
    shown: &[&[u8]],
    mail: &[Mail],
    failing: u64,
    most: u64,
) -> Came {
    let failing = vec![in alloc; failing].expect(rt, "memory for a number");
    let mut inbox = MemInbox::new(alloc, mail_of(rt, alloc, mail), failing);
    let opened = Opened::new();
    let (ended, transfers) = take_turns::<Brand, R>(rt, alloc, opened, shown, &mut inbox, most);
    let sent = sent(rt, alloc, inbox.letters());
    (ended, inbox.turns(), transfers, sent)
}

fn try_row<R: RandomSource + Wait + Abort>(rt: &R, alloc: Global, row: &Row) {
    let came = served(rt, alloc, row.shown, row.mail, row.failing, row.most);
    let sent = named(rt, alloc, NAMES, row.sent);
    let wanted = (row.ended, row.turns, row.transfers, sent);
    assert_same(rt, &came, &wanted, row.name);
}

// Datagrams, and what is sent for them in two turns.
type Replies = (&'static str, &'static [Mail], &'static str);

static REPLIES: [Replies; 12] = [
    ("NULL", &[(OWN_HOST, 700, "NULL", 0)], "TO_700 NULL_REPLY"),
    (
        "MATCH",
        &[(OWN_HOST, 700, "MATCH", 0)],
        "TO_700 MATCHED ONE",
    ),
    ("MAKE", &[(OWN_HOST, 700, "MAKE", 0)], "TO_700 NOT_MADE"),
    (
        "MAKE of another host",
        &[(OTHER_HOST, 700, "MAKE", 0)],
        "TO_OTHER REFUSED",
    ),
    ("by name", &[(OWN_HOST, 700, "NAMED", 0)], "TO_700 NOT_MADE"),
    (
        "by name, of another host",
        &[(OTHER_HOST, 700, "NAMED", 0)],
        "TO_OTHER REFUSED",
    ),
    (
        "ALL is unknown",
        &[(OWN_HOST, 700, "ALL", 0)],
        "TO_700 UNKNOWN",
    ),
    (
        "silence for a domain that isn't served",
        &[
            (OWN_HOST, 700, "NONACK_OTHER", 0),
            (OWN_HOST, 701, "NONACK", 0),
        ],
        "TO_701 NONACK_REPLY",
    ),
    (
        "no call",
        &[(OWN_HOST, 700, "00000007", 0), (OWN_HOST, 701, "NULL", 0)],
        "TO_701 NULL_REPLY",
    ),
    (
        "each to its sender",
        &[(OWN_HOST, 700, "NULL", 0), (OWN_HOST, 701, "NULL", 0)],
        "TO_700 NULL_REPLY TO_701 NULL_REPLY",
    ),
    (
        "a datagram at the limit",
        &[(OWN_HOST, 700, "NULL", 8_192)],
        "TO_700 NULL_REPLY",
    ),
    ("one over it", &[(OWN_HOST, 700, "NULL", 8_193)], ""),
];

fn try_replies<R: RandomSource + Wait + Abort>(rt: &R, alloc: Global, row: &Replies) {
    let (name, mail, sent) = row;
    let (_, _, _, came) = served(rt, alloc, &[], mail, NEVER, 2);
    assert_same(rt, &came, &named(rt, alloc, NAMES, sent), name);
}

#[test]
fn replies_to_datagrams(rt: HostRuntime) {
    for row in &REPLIES {
        try_replies(&rt, rt.alloc(), row);
    }
}

// What others show is learnt in quiet turns. Where none is shown, memory runs out, and the server goes on with what it
// knew.
static NEWER: [Row; 2] = [
    Row {
        name: "a newer value in a quiet turn, and then no memory",
        shown: &[b"alpha:2"],
        mail: &[
            (OWN_HOST, 700, "MATCH", 0),
            QUIET,
            (OWN_HOST, 701, "MATCH", 0),
            QUIET,
            (OWN_HOST, 700, "MATCH", 0),
        ],
        failing: NEVER,
        most: 5,
        ended: Ok(Ended::Spent),
        turns: 5,
        transfers: 0,
        sent: "TO_700 MATCHED ONE TO_701 MATCHED TWO TO_700 MATCHED TWO",
    },
    Row {
        name: "none where no turn is quiet",
        shown: &[b"alpha:2"],
        mail: &[(OWN_HOST, 700, "MATCH", 0), (OWN_HOST, 701, "MATCH", 0)],
        failing: NEVER,
        most: 2,
        ended: Ok(Ended::Spent),
        turns: 2,
        transfers: 0,
        sent: "TO_700 MATCHED ONE TO_701 MATCHED ONE",
    },
];

#[test]
fn newer_values(rt: HostRuntime) {
    for row in &NEWER {
        try_row(&rt, rt.alloc(), row);
    }
}

static TRANSFERS: [Row; 4] = [
    Row {
        name: "behind the last turn",
        shown: &[],
        mail: &[(OWN_HOST, 700, "XFR", 0)],
        failing: NEVER,
        most: 1,
        ended: Ok(Ended::Spent),
        turns: 1,
        transfers: 1,
        sent: "TO_700 TAKEN",
    },
    Row {
        name: "one for each reply",
        shown: &[],
        mail: &[
            (OWN_HOST, 700, "XFR", 0),
            (OWN_HOST, 701, "XFR", 0),
            (OWN_HOST, 700, "NULL", 0),
        ],
        failing: NEVER,
        most: 3,
        ended: Ok(Ended::Spent),
        turns: 3,
        transfers: 2,
        sent: "TO_700 TAKEN TO_701 TAKEN TO_700 NULL_REPLY",
    },
    Row {
        name: "none for a reply that isn't sent",
        shown: &[],
        mail: &[(OWN_HOST, 700, "XFR", 0)],
        failing: 1,
        most: 1,
        ended: Err(Failed),
        turns: 1,
        transfers: 0,
        sent: "",
    },
    Row {
        name: "before the turn that fails",
        shown: &[],
        mail: &[(OWN_HOST, 700, "XFR", 0)],
        failing: 2,
        most: 2,
        ended: Err(Failed),
        turns: 1,
        transfers: 1,
        sent: "TO_700 TAKEN",
    },
];

#[test]
fn transfers_behind_replies(rt: HostRuntime) {
    for row in &TRANSFERS {
        try_row(&rt, rt.alloc(), row);
    }
}

static TURNS: [Row; 5] = [
    Row {
        name: "quiet turns",
        shown: &[],
        mail: &[(OWN_HOST, 700, "NULL", 0)],
        failing: NEVER,
        most: 3,
        ended: Ok(Ended::Spent),
        turns: 3,
        transfers: 0,
        sent: "TO_700 NULL_REPLY",
    },
    Row {
        name: "no turn is taken",
        shown: &[],
        mail: &[(OWN_HOST, 700, "NULL", 0)],
        failing: NEVER,
        most: 0,
        ended: Ok(Ended::Spent),
        turns: 0,
        transfers: 0,
        sent: "",
    },
    Row {
        name: "the first turn fails",
        shown: &[],
        mail: &[(OWN_HOST, 700, "NULL", 0)],
        failing: 0,
        most: 2,
        ended: Err(Failed),
        turns: 0,
        transfers: 0,
        sent: "",
    },
    Row {
        name: "the reply fails",
        shown: &[],
        mail: &[(OWN_HOST, 700, "NULL", 0)],
        failing: 1,
        most: 2,
        ended: Err(Failed),
        turns: 1,
        transfers: 0,
        sent: "",
    },
    Row {
        name: "the second turn fails",
        shown: &[],
        mail: &[(OWN_HOST, 700, "NULL", 0)],
        failing: 2,
        most: 2,
        ended: Err(Failed),
        turns: 1,
        transfers: 0,
        sent: "TO_700 NULL_REPLY",
    },
];

#[test]
fn turns_and_calls_that_fail(rt: HostRuntime) {
    for row in &TURNS {
        try_row(&rt, rt.alloc(), row);
    }
}

// Compares the reply to a MATCH of a value of so many bytes with these words, and so many bytes of the value.
fn check_value<R: RandomSource + Wait + Abort>(
    rt: &R,
    alloc: Global,
    len: usize,
    words: &str,
    replied: usize,
) {
    let value = vec![in alloc; b'x'; len].expect(rt, "a value");
    let mut sent = named(rt, alloc, NAMES, words);
    sent.extend_from_slice(&value[..replied.min(len)])
        .expect(rt, "a reply");
    let mail = [QUIET, (OWN_HOST, 700, "MATCH", 0)];
    let came = served(rt, alloc, &[&value], &mail, NEVER, 2);
    assert_same(rt, &came, &(Ok(Ended::Spent), 2, 0, sent), words);
}

#[test]
fn the_longest_value(rt: HostRuntime) {
    let longest = "TO_700 MATCHED 00000001 00001fe0";
    check_value(&rt, rt.alloc(), 8_160, longest, 8_160);
    check_value(&rt, rt.alloc(), 8_161, "TO_700 MATCHED ERROR", 0);
}

// How many transfers were left and carried out for an XFR, before its reply is sent or behind that.
fn transfers_of<'r, J: Site, N: Naming, R: Wait + Abort>(
    rt: &'r R,
    alloc: Global,
    hosts: (ReaderHost<'r, N, R>, ReaderHost<'r, N, R>),
    call: &[u8],
    is_sent: bool,
) -> u64
    requires first { hosts.0.reader.catalogue ≡ J.catalogue }
    requires second { hosts.1.reader.catalogue ≡ J.catalogue }
{
    let (host, other) = hosts;
    let mut buf = vec![in alloc; 0; DATAGRAM_MAX].expect(rt, "memory for a reply");
    let made = DeferredQueue::<J, Knew<N>>::new(alloc, 1);
    let (pending, mut pass) = made.expect(rt, "memory for a queue");
    let part = pending.split_off(&mut pass);
    let mut server = MailServer::new(alloc, host, &pending, part, rt);
    hear(&mut server, call, &mut buf, is_sent);
    let (host, part) = server.into_parts();
    let others = carried(rt, alloc, &pending, pass, part, other);
    host.transfers.saturating_add(others)
}

// Lets a server hear a call, and go on behind the reply where that is sent.
fn hear<'s, 'r: 's, J: Site, N: Naming, R: Wait>(
    server: &mut MailServer<'s, J, ReaderHost<'r, N, R>, Knew<N>, R>,
    call: &[u8],
    buf: &mut [u8],
    is_sent: bool,
)
    requires { DATAGRAM_MAX ≤ length buf.old }
    ensures { server.new.holding.queue ≡ server.old.holding.queue }
{
    let peer = Peer {
        addr: OWN_HOST,
        port: 700,
    };
    let len = call.len().min(DATAGRAM_MAX);
    server.hear(peer, &call[..len], buf);
    if is_sent {
        let _ = server.next(buf);
    }
}

fn transfers_behind<N: Naming, R: RandomSource + Wait + Abort>(
    rt: &R,
    alloc: Global,
    opened: Opened,
    is_sent: bool,
) -> u64
    requires { opened ≡ N.book }
{
    let call = named(rt, alloc, NAMES, "XFR");
    let hosts = two_hosts::<N, R>(rt, alloc, opened, &[]);
    transfers_of::<Brand, N, R>(rt, alloc, hosts, &call, is_sent)
}

fn transfers<R: RandomSource + Wait + Abort>(rt: &R, alloc: Global, is_sent: bool) -> u64 {
    transfers_behind::<Brand, R>(rt, alloc, Opened::new(), is_sent)
}

#[test]
fn a_transfer_waits_for_its_reply(rt: HostRuntime) {
    let alloc = rt.alloc();
    let came = (transfers(&rt, alloc, false), transfers(&rt, alloc, true));
    assert_same(&rt, &came, &(0, 1), "before and behind the reply");
}
