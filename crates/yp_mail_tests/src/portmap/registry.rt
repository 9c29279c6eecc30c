//! Registries: what they reply, and which mappings they have then.

ghost use Rattle.std.specs.Prelude.{◌≡◌, []};

use crate::given::{SELF, STRANGER, assert_same, named, parts};
use std::alloc::Global;
use std::process::Abort;
use yp_binding::portmap::*;
use yp_io::Peer;
use yp_messages::Message;
use yp_rpc::write_call;

// A registry with ample memory.
fn new_registry(rt: &impl Abort, alloc: Global) -> Registry
    ensures { result ≡ [] }
{
    Registry::new(alloc).expect(rt, "memory for a registry")
}

// The reply of a registry to a datagram is these bytes.
fn replies(registry: &mut Registry, datagram: &[u8], from: Peer, wanted: &[u8]) -> bool {
    let mut buf = [0; 8_192];
    let len = registry.on_call(datagram, from, &mut buf);
    buf.get(..len) == Some(wanted)
}

// Names of words of calls and replies. A procedure stands for a call up to its arguments, and CALL for one up to its
// procedure.
static NAMES: &str = "\
CALL = 00000001 00000000 00000002 000186a0 00000002
NULL = 00000001 00000000 00000002 000186a0 00000002 00000000 00000000 00000000 00000000 00000000
SET = 00000001 00000000 00000002 000186a0 00000002 00000001 00000000 00000000 00000000 00000000
UNSET = 00000001 00000000 00000002 000186a0 00000002 00000002 00000000 00000000 00000000 00000000
GETPORT = 00000001 00000000 00000002 000186a0 00000002 00000003 00000000 00000000 00000000 00000000
DUMP = 00000001 00000000 00000002 000186a0 00000002 00000004 00000000 00000000 00000000 00000000
NONE = 00000000 00000000 00000000 00000000
DONE = 00000001 00000001 00000000 00000000 00000000 00000000
REFUSED = 00000001 00000001 00000000 00000000 00000000
YP_TCP = 000186a4 00000002 00000006 00000342
YP_UDP = 000186a4 00000002 00000011 00000343
";

// Calls in turn: who calls, the call, and the reply.
static CALLS: [&str; 22] = [
    "SELF: NULL -> DONE",
    "STRANGER: SET YP_TCP -> DONE 00000000",
    "SELF: SET YP_TCP -> DONE 00000001",
    "SELF: SET YP_TCP -> DONE 00000000",
    "SELF: DUMP -> DONE 00000001 000186a4 00000002 00000006 00000342 00000000",
    "SELF: SET YP_UDP -> DONE 00000001",
    "STRANGER: GETPORT 000186a4 00000002 00000011 00000000 -> DONE 00000343",
    "STRANGER: GETPORT 000186a4 00000001 00000011 00000000 -> DONE 00000000",
    "SELF: SET 000186a5 00000002 00000007 00000342 -> DONE 00000000",
    "SELF: SET 000186a5 00000002 00000006 00000000 -> DONE 00000000",
    "SELF: SET 000186a5 00000002 00000006 00010000 -> DONE 00000000",
    "STRANGER: UNSET YP_TCP -> DONE 00000000",
    "SELF: UNSET 000186a4 00000002 00000000 00000000 -> DONE 00000001",
    "SELF: UNSET 000186a4 00000002 00000000 00000000 -> DONE 00000000",
    "SELF: DUMP -> DONE 00000000",
    "SELF: CALL 00000005 NONE YP_TCP -> REFUSED 00000003",
    "SELF: SET 000186a4 -> REFUSED 00000004",
    "SELF: 00000001 00000000 00000002 000186a4 00000002 00000000 NONE -> REFUSED 00000001",
    "SELF: 00000001 00000000 00000002 000186a0 00000003 00000000 NONE \
        -> REFUSED 00000002 00000002 00000002",
    "SELF: CALL 00000000 00000006 00000000 00000000 00000000 \
        -> 00000001 00000001 00000001 00000001 00000002",
    "SELF: 00000001 00000000 00000003 -> 00000001 00000001 00000001 00000000 00000002 00000002",
    "SELF: 00000001 00000000 ->",
];

fn try_call(rt: &impl Abort, alloc: Global, registry: &mut Registry, row: &str) {
    let (who, call, reply) = parts(rt, row);
    let from = if who == "SELF" { SELF } else { STRANGER };
    let datagram = named(rt, alloc, NAMES, call);
    let wanted = named(rt, alloc, NAMES, reply);
    let is = replies(registry, &datagram, from, &wanted);
    assert_same(rt, &is, &true, row);
}

#[test]
fn calls_answered(rt: HostRuntime) {
    let alloc = rt.alloc();
    let mut registry = new_registry(&rt, alloc);
    for row in &CALLS {
        try_call(&rt, alloc, &mut registry, *row);
    }
}

// A SET for the program of this number is answered by this truth value.
fn sets(rt: &impl Abort, registry: &mut Registry, prog: u32, wanted: &[u8]) -> bool {
    let mut call = [0; 56];
    let at = write_call(&mut call, 1, 100_000, 2, 1).expect(rt, "room for a head");
    let mapping = Mapping {
        prog,
        vers: 1,
        prot: 17,
        port: 7,
    };
    mapping
        .write(&mut call, at)
        .expect(rt, "room for a mapping");
    replies(registry, &call, SELF, wanted)
}

// Whether each of 256 programs is set, and one more isn't.
fn fill(rt: &impl Abort, registry: &mut Registry, set: &[u8], not_set: &[u8]) -> (bool, bool) {
    let mut are_set = true;
    for prog in 0..256 {
        are_set = sets(rt, registry, prog, set) && are_set;
    }
    (are_set, sets(rt, registry, 256, not_set))
}

// What is seen of a full registry: the length of a reply to this call, how many mappings there are, the program of the
// 256th, and whether there is another.
fn seen(registry: &mut Registry, dump: &[u8]) -> (usize, usize, Option<u32>, bool) {
    let mut buf = [0; 8_192];
    let len = registry.on_call(dump, SELF, &mut buf);
    let last = match registry.row(255) {
        Some(mapping) => Some(mapping.prog),
        None => None,
    };
    (len, registry.len(), last, registry.row(256).is_some())
}

// The 256th mapping is the last one. A list of 256 takes 24 + 256 * 20 + 4 bytes.
#[test]
fn full_registry(rt: HostRuntime) {
    let alloc = rt.alloc();
    let set = named(&rt, alloc, NAMES, "DONE 00000001");
    let not_set = named(&rt, alloc, NAMES, "DONE 00000000");
    let dump = named(&rt, alloc, NAMES, "DUMP");
    let mut registry = new_registry(&rt, alloc);
    let filled = fill(&rt, &mut registry, &set, &not_set);
    let came = (filled, seen(&mut registry, &dump));
    let wanted = ((true, true), (5_148, 256, Some(255), false));
    assert_same(&rt, &came, &wanted, "full");
}
