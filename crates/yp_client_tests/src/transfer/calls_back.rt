//! What the caller of a transfer is told.

use crate::given::{assert_same, bytes, list};
use crate::transfer::sample::{FAIR, SOURCE, dial};
use std::alloc::Global;
use std::process::Abort;
use yp_io::{Peer, Sending};
use yp_memory::MemDial;
use yp_messages::XfrStat;
use yp_transfer::{Asker, call_back, tell_back};

// Where the one letter of a dial went, and its bytes.
fn only_letter(dial: &MemDial) -> Option<(Peer, &[u8])> {
    match dial.letters() {
        [Sending::Posted { letter }] => Some((letter.peer, &letter.bytes)),
        _ => None,
    }
}

/// Ends the test where a dial's one letter isn't this one, or where there is a letter and none is wanted.
pub fn assert_letter<R: Abort>(
    rt: &R,
    alloc: Global,
    dial: &MemDial,
    wanted: &Option<(Peer, &str)>,
    row: &str,
) {
    match wanted {
        Some((peer, words)) => {
            let letter = bytes(rt, alloc, &[*words]);
            assert_same(
                rt,
                &only_letter(dial),
                &Some((*peer, letter.as_slice())),
                row,
            );
        }
        None => assert_same(rt, &dial.letters().len(), &0, row),
    }
}

#[test]
fn callback(rt: HostRuntime) {
    let alloc = rt.alloc();
    let letter = "00000009 00000000 00000002 40000000 00000001 00000001 \
        00000000 00000000 00000000 00000000 00000009 00000001";
    let mut dial = dial(&rt, alloc, Vec::new(alloc), &FAIR);
    let told = call_back(&mut dial, SOURCE, 0x4000_0000, 9, XfrStat::Succ);
    assert_same(&rt, &told.is_ok(), &true, "the call back");
    assert_letter(&rt, alloc, &dial, &Some((SOURCE, letter)), "the call back");
}

// ---- a caller that named port 0

// Its program is 0x40000000, and its transaction 9.
const UNNAMED: Asker = Asker {
    addr: [10, 0, 0, 7],
    prog: 0x4000_0000,
    port: 0,
    transid: 9,
};

// GETPORT (RFC 1833 section 3) of program 0x40000000, version 1, over UDP, 17, with number 9.
const QUESTION: &str = "00000009 00000000 00000002 000186a0 00000002 00000003
    00000000 00000000 00000000 00000000 40000000 00000001 00000011 00000000";

// XFRRESP of transaction 9 with YPXFR_NOMAP, -1.
const LETTER: &str = "00000009 00000000 00000002 40000000 00000001 00000001
    00000000 00000000 00000000 00000000 00000009 ffffffff";

/// What comes back of the port mapper, the call of the dial that fails, how many questions are sent, and the port that
/// is told of the transfer then.
type Mapper = (
    &'static str,
    Option<&'static str>,
    &'static [u64],
    usize,
    Option<u16>,
);

// Replies by RFC 5531 section 9: the number, REPLY, MSG_ACCEPTED, a verifier, SUCCESS and the port.
static MAPPERS: [Mapper; 19] = [
    (
        "port 834",
        Some("00000009 00000001 00000000 00000000 00000000 00000000 00000342"),
        &[],
        1,
        Some(834),
    ),
    (
        "the last port, behind a verifier of four bytes",
        Some("00000009 00000001 00000000 00000001 00000004 01020304 00000000 0000ffff"),
        &[],
        1,
        Some(65_535),
    ),
    (
        "the first port",
        Some("00000009 00000001 00000000 00000000 00000000 00000000 00000001"),
        &[],
        1,
        Some(1),
    ),
    ("silence", None, &[], 1, None),
    ("a datagram of no bytes", Some(""), &[], 1, None),
    (
        "port 0",
        Some("00000009 00000001 00000000 00000000 00000000 00000000 00000000"),
        &[],
        1,
        None,
    ),
    (
        "port 65536",
        Some("00000009 00000001 00000000 00000000 00000000 00000000 00010000"),
        &[],
        1,
        None,
    ),
    (
        "port 2^32 - 1",
        Some("00000009 00000001 00000000 00000000 00000000 00000000 ffffffff"),
        &[],
        1,
        None,
    ),
    (
        "PROG_UNAVAIL",
        Some("00000009 00000001 00000000 00000000 00000000 00000001 00000342"),
        &[],
        1,
        None,
    ),
    (
        "PROC_UNAVAIL",
        Some("00000009 00000001 00000000 00000000 00000000 00000003"),
        &[],
        1,
        None,
    ),
    (
        "MSG_DENIED, RPC_MISMATCH",
        Some("00000009 00000001 00000001 00000000 00000002 00000002"),
        &[],
        1,
        None,
    ),
    (
        "MSG_DENIED, AUTH_ERROR, AUTH_TOOWEAK",
        Some("00000009 00000001 00000001 00000001 00000005"),
        &[],
        1,
        None,
    ),
    (
        "another number",
        Some("0000000a 00000001 00000000 00000000 00000000 00000000 00000342"),
        &[],
        1,
        None,
    ),
    ("the question itself", Some(QUESTION), &[], 1, None),
    (
        "a port that is cut",
        Some("00000009 00000001 00000000 00000000 00000000 00000000 000003"),
        &[],
        1,
        None,
    ),
    (
        "accept_stat 6",
        Some("00000009 00000001 00000000 00000000 00000000 00000006 00000342"),
        &[],
        1,
        None,
    ),
    ("garbage", Some("6e6f7468 696e6720 6f662074"), &[], 1, None),
    (
        "no question goes out",
        Some("00000009 00000001 00000000 00000000 00000000 00000000 00000342"),
        &[0],
        0,
        None,
    ),
    (
        "no letter goes out",
        Some("00000009 00000001 00000000 00000000 00000000 00000000 00000342"),
        &[1],
        1,
        None,
    ),
];

/// Something that was sent: whether it is a question, where it went, and its bytes.
type Sent<'a> = (bool, Peer, &'a [u8]);

fn sent_of(sending: &Sending) -> Sent<'_> {
    match sending {
        Sending::Posted { letter } => (false, letter.peer, &letter.bytes),
        Sending::Asked { letter, answer: _ } => (true, letter.peer, &letter.bytes),
    }
}

// What a dial sent, in order, and how much that was.
fn sent(dial: &MemDial) -> (usize, [Option<Sent<'_>>; 2]) {
    let letters = dial.letters();
    let [first, second] = [letters.first(), letters.get(1)];
    (letters.len(), [first.map(sent_of), second.map(sent_of)])
}

// A dial without wires, to whose first question this comes back.
fn asking_dial<R: Abort>(rt: &R, alloc: Global, mapper: &Mapper) -> MemDial {
    let mut answers = Vec::new(alloc);
    let answer = match mapper.1 {
        Some(words) => Some(bytes(rt, alloc, &[words])),
        None => None,
    };
    answers.push(answer).expect(rt, "an answer");
    let failing = list(rt, alloc, mapper.2);
    MemDial::with_answers(alloc, Vec::new(alloc), answers, failing)
}

// A port at the address of the caller.
fn at(port: u16) -> Peer {
    let addr = UNNAMED.addr;
    Peer { addr, port }
}

// What is to be sent: a question, if one goes out, and the letter to the port that is told, if one is.
fn wanted_of<'a>(
    mapper: &Mapper,
    question: &'a [u8],
    letter: &'a [u8],
) -> (usize, [Option<Sent<'a>>; 2]) {
    let question = Some((true, at(111), question));
    match (mapper.3, mapper.4) {
        (1, Some(port)) => (2, [question, Some((false, at(port), letter))]),
        (1, None) => (1, [question, None]),
        _ => (0, [None, None]),
    }
}

fn try_mapper<R: Abort>(rt: &R, alloc: Global, mapper: &Mapper) {
    let question = bytes(rt, alloc, &[QUESTION]);
    let letter = bytes(rt, alloc, &[LETTER]);
    let mut dial = asking_dial(rt, alloc, mapper);
    tell_back(&mut dial, &UNNAMED, XfrStat::Nomap);
    let wanted = wanted_of(mapper, &question, &letter);
    assert_same(rt, &sent(&dial), &wanted, mapper.0);
}

#[test]
fn caller_behind_a_port_mapper(rt: HostRuntime) {
    for mapper in &MAPPERS {
        try_mapper(&rt, rt.alloc(), mapper);
    }
}
