//! Binders: what they reply, whom they ping, and which offers they take.

ghost use Rattle.std.specs.Prelude.{◌≡◌, ◌<◌, ◌≤◌, length};

use crate::given::{SELF, STRANGER, assert_same, named, parts};
use std::alloc::Global;
use std::process::Abort;
use yp_binding::*;
use yp_io::Peer;

const SERVER: Peer = Peer {
    addr: [10, 0, 0, 2],
    port: 834,
};

const OTHER: Peer = Peer {
    addr: [10, 0, 0, 7],
    port: 835,
};

// The seventh of many servers.
const SEVENTH: Peer = Peer {
    addr: [10, 0, 0, 2],
    port: 7,
};

// A binder of one domain, lab, with ample memory.
fn lab_binder(rt: &impl Abort, alloc: Global, servers: &[Peer], policy: Policy) -> Binder
    requires { length servers.now ≤ 64 }
    ensures { length result.domains ≡ 1 }
{
    let name = b"lab".to_vec(alloc).expect(rt, "memory for a name");
    let names = Vec::from_array(alloc, [name]).expect(rt, "memory for names");
    let servers = Vec::from_slice(alloc, servers).expect(rt, "memory for servers");
    Binder::new(alloc, names, servers, policy).expect(rt, "memory for a binder")
}

// The reply of a binder to a datagram is these bytes.
fn replies(binder: &mut Binder, datagram: &[u8], from: Peer, wanted: &[u8]) -> bool
    ensures { binder.new.domains ≡ binder.old.domains }
{
    let mut buf = [0; 8_192];
    let len = binder.on_call(datagram, from, &mut buf);
    buf.get(..len) == Some(wanted)
}

// Names of words of calls and replies. A procedure stands for a call up to its arguments, and BIND for one up to its
// procedure.
static NAMES: &str = "\
BIND = 00000005 00000000 00000002 000186a7 00000002
NULL = 00000005 00000000 00000002 000186a7 00000002 00000000 00000000 00000000 00000000 00000000
DOMAIN = 00000005 00000000 00000002 000186a7 00000002 00000001 00000000 00000000 00000000 00000000
SETDOM = 00000005 00000000 00000002 000186a7 00000002 00000002 00000000 00000000 00000000 00000000
NONE = 00000000 00000000 00000000 00000000
DONE = 00000005 00000001 00000000 00000000 00000000 00000000
REFUSED = 00000005 00000001 00000000 00000000 00000000
LAB = 00000003 6c616200
OTHER = 0a000007 03430000
ZZZ = 00000003 7a7a7a00
";

// Datagrams to a binder of lab that is unbound, and the replies.
static CALLS: [&str; 12] = [
    "NULL: NULL -> DONE",
    "DOMAIN of lab: DOMAIN LAB -> DONE 00000002 00000002",
    "DOMAIN of zzz: DOMAIN ZZZ -> DONE 00000002 00000001",
    "a short call: 00000005 00000000 ->",
    "a reply: 00000005 00000001 00000002 ->",
    "the third version of RPC: 00000005 00000000 00000003 \
        -> 00000005 00000001 00000001 00000000 00000002 00000002",
    "the flavor 6: BIND 00000000 00000006 00000000 00000000 00000000 \
        -> 00000005 00000001 00000001 00000001 00000002",
    "another program: 00000005 00000000 00000002 000186a4 00000002 00000001 NONE LAB \
        -> REFUSED 00000001",
    "the first version: 00000005 00000000 00000002 000186a7 00000001 00000001 NONE LAB \
        -> REFUSED 00000002 00000002 00000002",
    "the procedure 3: BIND 00000003 NONE LAB -> REFUSED 00000003",
    "a name of 65 bytes: DOMAIN 00000041 -> REFUSED 00000004",
    "SETDOM without a version: SETDOM LAB OTHER -> REFUSED 00000004",
];

fn try_call(rt: &impl Abort, alloc: Global, binder: &mut Binder, row: &str) {
    let (name, call, reply) = parts(rt, row);
    let datagram = named(rt, alloc, NAMES, call);
    let wanted = named(rt, alloc, NAMES, reply);
    let is = replies(binder, &datagram, STRANGER, &wanted);
    assert_same(rt, &is, &true, name);
}

#[test]
fn datagrams_answered(rt: HostRuntime) {
    let alloc = rt.alloc();
    let mut binder = lab_binder(&rt, alloc, &[SERVER], Policy::Fixed);
    for row in &CALLS {
        try_call(&rt, alloc, &mut binder, *row);
    }
}

// A ping, if one is to be sent.
type Pinged = Option<(u32, Peer, u32)>;

fn ping(binder: &mut Binder) -> Pinged
    ensures { binder.new.domains ≡ binder.old.domains }
{
    match binder.next_ping() {
        None => None,
        Some(ping) => Some((ping.xid, ping.server, ping.domain)),
    }
}

// What lab is bound to.
fn bound(binder: &Binder) -> Option<Peer>
    requires { length binder.now.domains ≡ 1 }
{
    binder.binding(0)
}

// The pings of three turns, the offers between them, and what lab is bound to behind each.
type Turns = (
    [Pinged; 3],
    [bool; 4],
    Option<Peer>,
    [bool; 3],
    Option<Peer>,
);

// An unbound domain pings all servers, and takes the first yes.
fn unbound_turn(binder: &mut Binder) -> Turns
    requires { length binder.old.domains ≡ 1 }
    ensures { binder.new.domains ≡ binder.old.domains }
{
    let pings = [ping(binder), ping(binder), ping(binder)];
    let refused = [
        binder.on_offer(1, OTHER, true),
        binder.on_offer(1, SERVER, false),
        binder.on_offer(3, SERVER, true),
        binder.on_offer(0, SERVER, true),
    ];
    let none = bound(binder);
    let taken = [
        binder.on_offer(1, SERVER, true),
        binder.on_offer(2, OTHER, true),
        binder.on_offer(1, SERVER, true),
    ];
    (pings, refused, none, taken, bound(binder))
}

// Its pings behind a quiet turn, whether it takes an offer of the turn before, and what it is bound to a quiet turn
// later.
fn quiet_turn(binder: &mut Binder) -> ([Pinged; 2], bool, Option<Peer>)
    requires { length binder.old.domains ≡ 1 }
    ensures { binder.new.domains ≡ binder.old.domains }
{
    binder.on_quiet();
    let pings = [ping(binder), ping(binder)];
    let old = binder.on_offer(1, SERVER, true);
    binder.on_quiet();
    (pings, old, bound(binder))
}

// The same at the third turn, and the pings behind that.
fn third_turn(binder: &mut Binder) -> ([Pinged; 2], Option<Peer>, [Pinged; 3])
    requires { length binder.old.domains ≡ 1 }
{
    let pings = [ping(binder), ping(binder)];
    binder.on_quiet();
    let none = bound(binder);
    (pings, none, [ping(binder), ping(binder), ping(binder)])
}

#[test]
fn binder_turns(rt: HostRuntime) {
    let mut binder = lab_binder(&rt, rt.alloc(), &[SERVER, OTHER], Policy::Fixed);
    let first = unbound_turn(&mut binder);
    let second = quiet_turn(&mut binder);
    let third = third_turn(&mut binder);

    let all = [Some((1, SERVER, 0)), Some((2, OTHER, 0)), None];
    let wanted = (all, [false; 4], None, [true, false, true], Some(SERVER));
    assert_same(&rt, &first, &wanted, "an unbound domain pings all");
    let wanted = ([Some((3, SERVER, 0)), None], false, Some(SERVER));
    assert_same(&rt, &second, &wanted, "its server alone");
    let all = [Some((5, SERVER, 0)), Some((6, OTHER, 0)), None];
    let wanted = ([Some((4, SERVER, 0)), None], None, all);
    assert_same(&rt, &third, &wanted, "three quiet turns");
}

// SETDOM of lab to a server, by policy, caller and call, which ends with a version: what lab is bound to then.
type Setdom = (Policy, Peer, &'static str, Option<Peer>);

static SETDOMS: [Setdom; 6] = [
    (Policy::Fixed, SELF, "SETDOM LAB OTHER 00000002", None),
    (
        Policy::Ypsetme,
        SELF,
        "SETDOM LAB OTHER 00000002",
        Some(OTHER),
    ),
    (Policy::Ypsetme, STRANGER, "SETDOM LAB OTHER 00000002", None),
    (
        Policy::Ypset,
        STRANGER,
        "SETDOM LAB OTHER 00000002",
        Some(OTHER),
    ),
    (Policy::Ypset, STRANGER, "SETDOM LAB OTHER 00000001", None),
    (Policy::Ypsetme, SELF, "SETDOM LAB OTHER 00000003", None),
];

// Whether a call has this reply, and what lab is bound to then.
type Bound = (bool, Option<Peer>);

fn setdom(rt: &impl Abort, alloc: Global, row: &Setdom, call: &[u8], reply: &[u8]) -> Bound {
    let (policy, from, _, _) = row;
    let mut binder = lab_binder(rt, alloc, &[SERVER], *policy);
    let is = replies(&mut binder, call, *from, reply);
    (is, bound(&binder))
}

fn try_setdom(rt: &impl Abort, alloc: Global, row: &Setdom) {
    let call = named(rt, alloc, NAMES, row.2);
    let reply = named(rt, alloc, NAMES, "DONE");
    let came = setdom(rt, alloc, row, &call, &reply);
    assert_same(rt, &came, &(true, row.3), row.2);
}

#[test]
fn setdom_by_policy(rt: HostRuntime) {
    for row in &SETDOMS {
        try_setdom(&rt, rt.alloc(), row);
    }
}

static EIGHT: [&[u8]; 8] = [b"a", b"b", b"c", b"d", b"e", b"f", b"g", b"h"];

// As many domains as there may be.
fn eight_names(rt: &impl Abort, alloc: Global) -> Vec<Vec<u8>>
    ensures { length result.items ≤ 8 }
{
    let mut names = Vec::new(alloc);
    for name in &EIGHT {
        let name = name.to_vec(alloc).expect(rt, "memory for a name");
        names.push(name).expect(rt, "memory for names");
    }
    assert!(rt; names.len() <= 8);
    names
}

// As many servers as there may be.
fn many_servers(rt: &impl Abort, alloc: Global) -> Vec<Peer>
    ensures { length result.items ≤ 64 }
{
    let mut servers = [SERVER; 64];
    for place in 0..64u16 {
        servers[place as usize].port = place + 1;
    }
    Vec::from_slice(alloc, &servers).expect(rt, "memory for servers")
}

fn wide_binder(rt: &impl Abort, alloc: Global) -> Binder {
    let names = eight_names(rt, alloc);
    let servers = many_servers(rt, alloc);
    Binder::new(alloc, names, servers, Policy::Fixed).expect(rt, "memory for a binder")
}

// How many pings are sent, up to 600, and whether the xids count from this one on, domain by domain.
fn pings(binder: &mut Binder, first: u32) -> (u32, bool)
    requires { first ≤ 1000 }
{
    let mut in_turn = true;
    let mut last = 0;
    for count in 0..600u32 {
        match binder.next_ping() {
            None => return (count, in_turn),
            Some(ping) => {
                in_turn = in_turn && ping.xid == first + count && ping.domain >= last;
                last = ping.domain;
            }
        }
    }
    (600, in_turn)
}

#[test]
fn pings_of_many(rt: HostRuntime) {
    let mut binder = wide_binder(&rt, rt.alloc());
    let all = pings(&mut binder, 1);
    let taken = binder.on_offer(64 + 7, SEVENTH, true);
    binder.on_quiet();
    let fewer = pings(&mut binder, 513);

    assert_same(&rt, &all, &(512, true), "all domains are unbound");
    assert_same(
        &rt,
        &taken,
        &true,
        "the seventh server for the second domain",
    );
    assert_same(&rt, &fewer, &(449, true), "one of them is bound");
}
