//! Pushes in memory, to the slaves `s1`, `s2` and `s3`.

ghost use Rattle.std.specs.Prelude.{◌≡◌, ◌<◌, [], All, length};
ghost use Rattle.yp_memory.specs.inside.MemDial.{WireIsNew};
ghost use Rattle.yp_push.specs.inside.turns.Kept.{request_view, IsWithin};

use crate::given::{NEVER, SELF, assert_same, failing, named};
use std::alloc::Global;
use std::process::Abort;
use yp_board::MapName;
use yp_io::{Failed, Letter, Pair, Peer};
use yp_memory::{MemDial, MemInbox, MemSink, MemSource, MemWire};
use yp_push::Push;
use yp_push::turns::{PushRequest, Pusher, Slave, all_have_map, text_of};
use yp_rpc::{Ended, Room, take_turns};
use yp_version::Order;

/// Names of what comes and goes: replies to XFR with SUCC and each transaction, with REFUSED, and one that is cut;
/// calls of XFRRESP of a transaction with its status; and the first call of XFR, with the transaction 500, program
/// 0x40000000 and port 7001.
static NAMES: &str = "\
FIRST = 80000020 00000001 00000001 00000000 00000000 00000000 00000000 000001f4 00000001
SECOND = 80000020 00000001 00000001 00000000 00000000 00000000 00000000 000001f5 00000001
THIRD = 80000020 00000001 00000001 00000000 00000000 00000000 00000000 000001f6 00000001
REFUSED = 80000020 00000001 00000001 00000000 00000000 00000000 00000000 000001f4 fffffff2
CUT = 8000001c 00000001 00000001 00000000 00000000 00000000 00000000 000001f6
FIRST_SUCC = 00000007 00000000 00000002 40000000 00000001 00000001 00000000 00000000 00000000 \
    00000000 000001f4 00000001
FIRST_SKEW = 00000007 00000000 00000002 40000000 00000001 00000001 00000000 00000000 00000000 \
    00000000 000001f4 fffffff6
SECOND_AGE = 00000007 00000000 00000002 40000000 00000001 00000001 00000000 00000000 00000000 \
    00000000 000001f5 00000002
THIRD_SUCC = 00000007 00000000 00000002 40000000 00000001 00000001 00000000 00000000 00000000 \
    00000000 000001f6 00000001
UNKNOWN_SUCC = 00000007 00000000 00000002 40000000 00000001 00000001 00000000 00000000 00000000 \
    00000000 000003e7 00000001
CALL = 80000058 00000001 00000000 00000002 000186a4 00000002 00000006 00000000 00000000 00000000 \
    00000000 00000003 6c616200 0000000c 686f7374 732e6279 6e616d65 00000064 00000002 6d310000 \
    000001f4 40000000 00001b59
";

/// A push of the map `hosts.byname` of `lab`, with the order 100, from `m1`, whose first transaction is 500: how many
/// slaves may be outstanding, the most turns, which slaves have an address, the replies of the wires in the order in
/// which they come, the dial, the read of the second wire and the call of the inbox that fail, and what the turns
/// bring, each a word. What comes of it: how the turns ended, the text, whether all slaves have the map, and how many
/// replies and turns there were, and how many wires came.
#[derive(Clone, Copy)]
pub struct Row {
    pub name: &'static str,
    pub window: u32,
    pub most: u64,
    pub known: (bool, bool, bool),
    pub wires: (&'static str, &'static str, &'static str),
    pub dials: u64,
    pub reads: u64,
    pub failing: u64,
    pub brings: &'static str,
    pub ended: Result<Ended, Failed>,
    pub text: &'static str,
    pub all: bool,
    pub replies: usize,
    pub turns: u64,
    pub came: usize,
}

const SLAVE: Peer = Peer {
    addr: [127, 0, 0, 1],
    port: 7_011,
};

/// The datagram of this name, or a quiet turn.
fn letter_of<R: Abort>(rt: &R, alloc: Global, name: &str) -> Option<Letter> {
    if name == "QUIET" {
        return None;
    }
    Some(Letter {
        peer: SELF,
        bytes: named(rt, alloc, NAMES, name),
    })
}

fn mail_of<R: Abort>(rt: &R, alloc: Global, brings: &str) -> Vec<Option<Letter>> {
    let mut mail = Vec::new(alloc);
    for name in brings.split_whitespace() {
        let letter = letter_of(rt, alloc, name);
        mail.push(letter).expect(rt, "memory for mail");
    }
    mail
}

fn wire_of<R: Abort>(rt: &R, alloc: Global, name: &str, read: u64) -> MemWire
    ensures { WireIsNew result }
{
    Pair {
        source: MemSource::new(named(rt, alloc, NAMES, name), 64, failing(rt, alloc, read)),
        sink: MemSink::new(alloc, 4_096, Vec::new(alloc)),
    }
}

/// The wires of a row.
fn wires_of<R: Abort>(rt: &R, alloc: Global, row: &Row) -> Vec<MemWire>
    ensures { All WireIsNew result.items }
{
    let first = wire_of(rt, alloc, row.wires.0, NEVER);
    let second = wire_of(rt, alloc, row.wires.1, row.reads);
    let third = wire_of(rt, alloc, row.wires.2, NEVER);
    let mut wires = Vec::new(alloc);
    wires.push(first).expect(rt, "memory for wires");
    wires.push(second).expect(rt, "memory for wires");
    wires.push(third).expect(rt, "memory for wires");
    wires
}

fn slave_of<R: Abort>(rt: &R, alloc: Global, name: &[u8], known: bool) -> Slave {
    Slave {
        name: name.to_vec(alloc).expect(rt, "memory for a name"),
        peer: if known { Some(SLAVE) } else { None },
    }
}

fn slaves_of<R: Abort>(rt: &R, alloc: Global, known: (bool, bool, bool)) -> Vec<Slave>
    ensures { length result.items ≡ 3 }
{
    let first = slave_of(rt, alloc, b"s1", known.0);
    let second = slave_of(rt, alloc, b"s2", known.1);
    let third = slave_of(rt, alloc, b"s3", known.2);
    vec![in alloc; first, second, third].expect(rt, "memory for slaves")
}

fn order_of<R: Abort>(rt: &R, alloc: Global) -> PushRequest
    ensures { IsWithin (request_view result) }
{
    PushRequest {
        store: MapName {
            domain: b"lab".to_vec(alloc).expect(rt, "memory for a name"),
            map: b"hosts.byname"
                .to_vec(alloc)
                .expect(rt, "memory for a name"),
        },
        order: Order(100),
        name: b"m1".to_vec(alloc).expect(rt, "memory for a name"),
        port: 7_001,
    }
}

fn push_of<R: Abort>(rt: &R, alloc: Global, window: u32) -> Push
    ensures { result.slaves ≡ 3 }
{
    Push::new(alloc, 3, 500, window.max(1)).expect(rt, "memory for a push")
}

fn room_of<R: Abort>(rt: &R, alloc: Global) -> Room {
    Room::new(alloc).expect(rt, "memory for a loop")
}

/// A push of a row, before its first turn.
fn pusher_of<R: Abort>(rt: &R, alloc: Global, row: &Row) -> Pusher<MemDial> {
    let slaves = slaves_of(rt, alloc, row.known);
    let order = order_of(rt, alloc);
    let push = push_of(rt, alloc, row.window);
    let dials = failing(rt, alloc, row.dials);
    let wires = wires_of(rt, alloc, row);
    let dial = MemDial::new(alloc, wires, dials);
    Pusher::new(alloc, dial, push, slaves, order)
}

/// What came of a push: how the turns ended, whether the text is the wanted one, whether all slaves have the map, how
/// many replies and turns there were, how many wires came, and whether the first took the wanted call.
type Came = (Result<Ended, Failed>, bool, bool, usize, u64, usize, bool);

/// Whether this text is told.
fn tells(alloc: Global, pusher: &Pusher<MemDial>, text: &str) -> bool {
    match text_of(alloc, pusher) {
        Ok(told) => told.as_slice() == text.as_bytes(),
        Err(_) => false,
    }
}

/// Whether the first wire that was given back, if there is one, took this call.
fn took(dial: &MemDial, call: &[u8]) -> bool {
    match dial.past().first() {
        Some(wire) => wire.sink.taken() == call,
        None => true,
    }
}

/// Takes the turns of a row.
fn take(
    alloc: Global,
    room: &mut Room,
    inbox: &mut MemInbox,
    pusher: Pusher<MemDial>,
    call: &[u8],
    row: &Row,
) -> Came {
    let mut pusher = pusher;
    let ended = take_turns(inbox, &mut pusher, room, row.most);
    let is_told = tells(alloc, &pusher, row.text);
    let all = all_have_map(&pusher);
    let dial = pusher.into_dial();
    (
        ended,
        is_told,
        all,
        inbox.letters().len(),
        inbox.turns(),
        dial.came().len(),
        took(&dial, call),
    )
}

fn pushed<R: Abort>(rt: &R, alloc: Global, row: &Row) -> Came {
    let call = named(rt, alloc, NAMES, "CALL");
    let mail = mail_of(rt, alloc, row.brings);
    let calls = failing(rt, alloc, row.failing);
    let mut room = room_of(rt, alloc);
    let pusher = pusher_of(rt, alloc, row);
    let mut inbox = MemInbox::new(alloc, mail, calls);
    take(alloc, &mut room, &mut inbox, pusher, &call, row)
}

/// Pushes as a row says, and compares what came of it.
pub fn try_row<R: Abort>(rt: &R, alloc: Global, row: &Row) {
    let came = pushed(rt, alloc, row);
    let wanted = (
        row.ended,
        true,
        row.all,
        row.replies,
        row.turns,
        row.came,
        true,
    );
    assert_same(rt, &came, &wanted, row.name);
}
