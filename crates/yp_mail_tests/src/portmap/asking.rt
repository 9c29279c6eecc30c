//! What a client asks a port mapper, and reads of its reply; and what the own port mapper answers.

use crate::given::{SELF, assert_same, bytes};
use std::alloc::Global;
use std::process::Abort;
use yp_binding::portmap::*;
use yp_rpc::ReplyHead;
use yp_xdr::NoRoom;

const GET: PortCall = PortCall::GetPort {
    prog: 100_004,
    vers: 2,
    prot: 6,
};

const SET: PortCall = PortCall::Set {
    mapping: Mapping {
        prog: 100_004,
        vers: 2,
        prot: 17,
        port: 834,
    },
};

const UNSET: PortCall = PortCall::Unset {
    prog: 100_004,
    vers: 2,
};

/// Calls, and the words of each behind its number (RFC 5531 section 9, RFC 1833 section 3).
static CALLS: [(PortCall, &str); 3] = [
    (
        GET,
        "00000000 00000002 000186a0 00000002 00000003 00000000 00000000 00000000 00000000 \
            000186a4 00000002 00000006 00000000",
    ),
    (
        SET,
        "00000000 00000002 000186a0 00000002 00000001 00000000 00000000 00000000 00000000 \
            000186a4 00000002 00000011 00000342",
    ),
    (
        UNSET,
        "00000000 00000002 000186a0 00000002 00000002 00000000 00000000 00000000 00000000 \
            000186a4 00000002 00000000 00000000",
    ),
];

fn try_writing(rt: &impl Abort, alloc: Global, call: PortCall, words: &str) {
    let wanted = bytes(rt, alloc, &["00000007", words]);
    let mut buf = [0; 56];
    let short = write_port_call(&mut buf[..55], 7, call);
    let written = write_port_call(&mut buf, 7, call);
    let is_same = buf.as_slice() == wanted.as_slice();
    let came = (short, written, is_same);
    assert_same(rt, &came, &(Err(NoRoom), Ok(56), true), words);
}

#[test]
fn each_call_written(rt: HostRuntime) {
    for (call, words) in &CALLS {
        try_writing(&rt, rt.alloc(), *call, *words);
    }
}

/// Words of a reply behind its number, the call, and what is read: the answer, or the place of the fault.
static REPLIES: [(&str, PortCall, Result<PortAnswer, usize>); 12] = [
    (
        "00000001 00000000 00000000 00000000 00000000 00000342",
        GET,
        Ok(PortAnswer::Port(834)),
    ),
    (
        "00000001 00000000 00000000 00000000 00000000 00000001",
        SET,
        Ok(PortAnswer::Truth(true)),
    ),
    (
        "00000001 00000000 00000000 00000000 00000000 00000000",
        SET,
        Ok(PortAnswer::Truth(false)),
    ),
    (
        "00000001 00000000 00000000 00000000 00000000 00000001",
        UNSET,
        Ok(PortAnswer::Truth(true)),
    ),
    (
        "00000001 00000000 00000000 00000000 00000000 00000000",
        UNSET,
        Ok(PortAnswer::Truth(false)),
    ),
    (
        "00000001 00000000 00000000 00000000 00000000 00000002",
        SET,
        Err(24),
    ),
    (
        "00000001 00000000 00000000 00000000 00000000 ffffffff",
        UNSET,
        Err(24),
    ),
    (
        "00000001 00000000 00000000 00000000 00000000 000000",
        SET,
        Err(24),
    ),
    (
        "00000001 00000000 00000000 00000000 00000001",
        SET,
        Ok(PortAnswer::Refused),
    ),
    (
        "00000001 00000000 00000000 00000000 00000003",
        UNSET,
        Ok(PortAnswer::Refused),
    ),
    (
        "00000001 00000001 00000001 00000005",
        GET,
        Ok(PortAnswer::Refused),
    ),
    ("00000002", GET, Err(4)),
];

fn try_reading(rt: &impl Abort, alloc: Global, row: &(&str, PortCall, Result<PortAnswer, usize>)) {
    let mail = bytes(rt, alloc, &["00000007", row.0]);
    let came = read_answer(&mail, row.1).map_err(|fault| fault.place());
    assert_same(rt, &came, &row.2, row.0);
}

#[test]
fn each_reply_read(rt: HostRuntime) {
    for row in &REPLIES {
        try_reading(&rt, rt.alloc(), row);
    }
}

/// Calls in turn, and what the own port mapper answers to each.
static ANSWERS: [(PortCall, PortAnswer); 10] = [
    (UNSET, PortAnswer::Truth(false)),
    (SET, PortAnswer::Truth(true)),
    (SET, PortAnswer::Truth(false)),
    (GET, PortAnswer::Port(0)),
    (GET_UDP, PortAnswer::Port(834)),
    (SET_ELSEWHERE, PortAnswer::Truth(false)),
    (GET_UDP, PortAnswer::Port(834)),
    (UNSET, PortAnswer::Truth(true)),
    (GET_UDP, PortAnswer::Port(0)),
    (SET_OVER_7, PortAnswer::Truth(false)),
];

const GET_UDP: PortCall = PortCall::GetPort {
    prog: 100_004,
    vers: 2,
    prot: 17,
};

/// The same program over the same protocol at another port.
const SET_ELSEWHERE: PortCall = PortCall::Set {
    mapping: Mapping {
        prog: 100_004,
        vers: 2,
        prot: 17,
        port: 835,
    },
};

const SET_OVER_7: PortCall = PortCall::Set {
    mapping: Mapping {
        prog: 100_004,
        vers: 2,
        prot: 7,
        port: 834,
    },
};

/// What a registry answers to a call of a client on the own host.
fn answered(registry: &mut Registry, call: PortCall) -> Option<PortAnswer> {
    let mut mail = [0; 56];
    let mut buf = [0; 8_192];
    let Ok(len) = write_port_call(&mut mail, 7, call) else {
        return None;
    };
    let end = registry.on_call(&mail[..len], SELF, &mut buf);
    read_answer(&buf[..end], call).ok()
}

#[test]
fn calls_answered_by_the_own_port_mapper(rt: HostRuntime) {
    let mut registry = Registry::new(rt.alloc()).expect(&rt, "memory for a registry");
    for (call, wanted) in &ANSWERS {
        let came = answered(&mut registry, *call);
        assert_same(&rt, &came, &Some(*wanted), "the answer");
    }
}

#[test]
fn calls_asked(rt: HostRuntime) {
    let alloc = rt.alloc();
    let wanted = bytes(
        &rt,
        alloc,
        &[
            "00000001 00000000 00000002 000186a0 00000002 00000003",
            "00000000 00000000 00000000 00000000",
            "000186a4 00000002 00000006 00000000",
        ],
    );
    let mut buf = [0; 56];
    let short = ask_port(&mut buf[..55], 1, 100_004, 2, 6);
    let asked = ask_port(&mut buf, 1, 100_004, 2, 6);
    assert_same(&rt, &(short, asked), &(Err(NoRoom), Ok(56)), "56 bytes");
    assert_same(
        &rt,
        &(buf.as_slice() == wanted.as_slice()),
        &true,
        "the call",
    );
}

#[test]
fn replies_read(rt: HostRuntime) {
    let alloc = rt.alloc();
    let found = bytes(
        &rt,
        alloc,
        &["00000001 00000001 00000000 00000000 00000000 00000000 00000342"],
    );
    let refused = bytes(
        &rt,
        alloc,
        &["00000001 00000001 00000000 00000000 00000000 00000001"],
    );
    let port = read_port(&found);
    let wanted = PortReply {
        xid: 1,
        head: ReplyHead::Success,
        port: 834,
    };
    assert_same(&rt, &port, &Ok(wanted), "834");
    let none = read_port(&refused);
    let wanted = PortReply {
        xid: 1,
        head: ReplyHead::ProgUnavail,
        port: 0,
    };
    assert_same(&rt, &none, &Ok(wanted), "no program");
    let is_short = read_port(&[0, 0, 0, 1, 0]).is_err();
    assert_same(&rt, &is_short, &true, "5 bytes");
}
