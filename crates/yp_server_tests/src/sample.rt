//! Calls, replies and files, written out by hand from RFC 5531 sections 9 and 11, yp.x and docs/FORMATS.md, and
//! datagrams.

use crate::behind::Behind;
use crate::gate::Holding;
use crate::given::named;
use std::alloc::Global;
use std::process::Abort;
use yp_for_server_tests::texts_of;
use yp_host::Desk;
use yp_io::{Letter, Peer};
use yp_memory::{MemDial, MemInbox, MemTexts, SetClock};
use yp_transfer::Hosts;

// Names of words.
//
// MATCH is of `alpha` in hosts.byname of `lab`, and its replies are NO_MAP, OLD with `10.0.0.1 alpha`, as the file has
// it, and NEW with `10.0.0.2 alpha`, as the text has it. NULL is a call in a datagram, and NULL_DONE the reply to it;
// NULL_STREAM and NULL_STREAM_DONE are the same over a stream. MATCH_MAIL asks in a datagram what MATCH does, and
// OLD_MAIL and NEW_MAIL are its replies.
// ALL is of hosts.byname of `lab`, and OLD_ALL the reply of the version in the file. MAKE is of hosts.byname in `lab`,
// and its replies are MADE and, where the text isn't read, NOT_READ. XFR is of hosts.byname of `lab` from the host
// `m2`, which has no address, and TAKEN the reply; XFR_MAIL and TAKEN_MAIL are the same in datagrams, and so are
// MAKE_MAIL and MADE_MAIL. FETCH_MAIL is as XFR_MAIL, but from the host `m3`, which has an address. FILE has order 100,
// master `m1` and the row `alpha`, `10.0.0.1 alpha`.
pub static NAMES: &str = "\
MATCH = 8000004c 00000001 00000000 00000002 000186a4 00000002 00000003 00000000 00000000 \
    00000000 00000000 00000003 6c616200 0000000c 686f7374 732e6279 6e616d65 00000005 616c7068 \
    61000000
NO_MAP = 80000020 00000001 00000001 00000000 00000000 00000000 00000000 ffffffff 00000000
OLD = 80000030 00000001 00000001 00000000 00000000 00000000 00000000 00000001 0000000e 31302e30 \
    2e302e31 20616c70 68610000
NEW = 80000030 00000001 00000001 00000000 00000000 00000000 00000000 00000001 0000000e 31302e30 \
    2e302e32 20616c70 68610000
NULL = 00000007 00000000 00000002 000186a4 00000002 00000000 00000000 00000000 00000000 00000000
NULL_DONE = 00000007 00000001 00000000 00000000 00000000 00000000
NULL_STREAM = 80000028 00000007 00000000 00000002 000186a4 00000002 00000000 00000000 00000000 \
    00000000 00000000
NULL_STREAM_DONE = 80000018 00000007 00000001 00000000 00000000 00000000 00000000
MATCH_MAIL = 0000000b 00000000 00000002 000186a4 00000002 00000003 00000000 00000000 00000000 \
    00000000 00000003 6c616200 0000000c 686f7374 732e6279 6e616d65 00000005 616c7068 61000000
OLD_MAIL = 0000000b 00000001 00000000 00000000 00000000 00000000 00000001 0000000e 31302e30 \
    2e302e31 20616c70 68610000
NEW_MAIL = 0000000b 00000001 00000000 00000000 00000000 00000000 00000001 0000000e 31302e30 \
    2e302e32 20616c70 68610000
ALL = 80000040 00000002 00000000 00000002 000186a4 00000002 00000008 00000000 00000000 00000000 \
    00000000 00000003 6c616200 0000000c 686f7374 732e6279 6e616d65
OLD_ALL = 80000044 00000002 00000001 00000000 00000000 00000000 00000000 00000001 00000001 \
    0000000e 31302e30 2e302e31 20616c70 68610000 00000005 616c7068 61000000 00000000
MAKE = 80000034 00000003 00000000 00000002 20004e49 00000001 00000001 00000000 00000000 00000000 \
    00000000 00000003 6c616200 00000005
MADE = 8000001c 00000003 00000001 00000000 00000000 00000000 00000000 00000001
NOT_READ = 8000001c 00000003 00000001 00000000 00000000 00000000 00000000 fffffff7
XFR = 80000058 00000005 00000000 00000002 000186a4 00000002 00000006 00000000 00000000 00000000 \
    00000000 00000003 6c616200 0000000c 686f7374 732e6279 6e616d65 00000000 00000002 6d320000 \
    00000009 40000000 00000400
TAKEN = 80000020 00000005 00000001 00000000 00000000 00000000 00000000 00000009 00000001
XFR_MAIL = 00000005 00000000 00000002 000186a4 00000002 00000006 00000000 00000000 00000000 \
    00000000 00000003 6c616200 0000000c 686f7374 732e6279 6e616d65 00000000 00000002 6d320000 \
    00000009 40000000 00000400
FETCH_MAIL = 00000005 00000000 00000002 000186a4 00000002 00000006 00000000 00000000 00000000 \
    00000000 00000003 6c616200 0000000c 686f7374 732e6279 6e616d65 00000000 00000002 6d330000 \
    00000009 40000000 00000400
TAKEN_MAIL = 00000005 00000001 00000000 00000000 00000000 00000000 00000009 00000001
MAKE_MAIL = 00000003 00000000 00000002 20004e49 00000001 00000001 00000000 00000000 00000000 \
    00000000 00000003 6c616200 00000005
MADE_MAIL = 00000003 00000001 00000000 00000000 00000000 00000000 00000001
FILE = 01000000 00000000 00000000 00000001 00000000 00000040 00000000 00000034 00000000 00000000 \
    00000000 00000000 00000000 00000000 00000000 00000000 00000001 00000064 00000002 6d310000 \
    00000001 00000005 616c7068 61000000 0000000e 31302e30 2e302e31 20616c70 68610000
";

// The bytes of a text of these names and of other words.
pub fn words(rt: &impl Abort, alloc: Global, text: &str) -> Vec<u8> {
    named(rt, alloc, NAMES, text)
}

// Where the host `m3` is.
const SOURCE: Peer = Peer {
    addr: [127, 0, 0, 1],
    port: 7_001,
};

// A table with the host `m3`.
fn hosts_of(rt: &impl Abort, alloc: Global) -> Hosts {
    let name = Vec::from_slice(alloc, b"m3").expect(rt, "a name");
    let mut hosts = Hosts::new(alloc);
    hosts.add(name, SOURCE).expect(rt, "a host");
    hosts
}

/// A dial behind a gate.
pub type GatedDial<'g, 'h> = Behind<'g, 'h, MemDial>;

/// A desk with the text that maps are made of, `10.0.0.2 alpha`, at the moment 200. The read of it with this number
/// fails. It has the address of the host `m3`, and its dial, behind a gate, opens no connection.
pub fn desk_of<'g, 'h>(
    rt: &impl Abort,
    alloc: Global,
    failing: u64,
    gate: &'g Holding<'h>,
) -> Desk<GatedDial<'g, 'h>, MemTexts, SetClock> {
    let texts = texts_of(alloc, b"hosts", b"10.0.0.2 alpha\n", failing);
    let dial = MemDial::new(alloc, Vec::new(alloc), Vec::new(alloc));
    Desk {
        dial: Behind::new(dial, gate),
        hosts: hosts_of(rt, alloc),
        texts: texts.expect(rt, "a text"),
        clock: SetClock { moment: 200 },
    }
}

/// The sender of datagrams.
pub const SENDER: Peer = Peer {
    addr: [127, 0, 0, 1],
    port: 9,
};

fn letter(rt: &impl Abort, alloc: Global, text: &str) -> Letter {
    Letter {
        peer: SENDER,
        bytes: words(rt, alloc, text),
    }
}

/// An inbox to which these datagrams come in turn, from port 9 of the own host. This call of it fails.
pub fn inbox(rt: &impl Abort, alloc: Global, mail: &[&str], failing: u64) -> MemInbox {
    let mut letters = Vec::new(alloc);
    for text in mail {
        let letter = letter(rt, alloc, *text);
        letters.push(Some(letter)).expect(rt, "memory for a letter");
    }
    let failing = vec![in alloc; failing].expect(rt, "memory for a number");
    MemInbox::new(alloc, letters, failing)
}
