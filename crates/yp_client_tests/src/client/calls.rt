//! Calls and replies written out by hand, from RFC 5531 and yp.x.

use crate::client::lent::{MemClient, assert_sent, client_over};
use crate::given::{assert_same, bytes, number};
use std::alloc::Global;
use std::process::Abort;
use yp_client::{ClientFault, Row};
use yp_io::Pair;
use yp_memory::{MemSink, MemSource};
use yp_messages::{MapList, ReqXfr, XfrStat, YpStat};
use yp_rpc::ReplyHead;

// A client over a wire with this input, whose first call has a number. The calls of the wire that are listed fail.
fn client<R: Abort>(
    rt: &R,
    alloc: Global,
    input: &[&str],
    xid: u32,
    reads: Vec<u64>,
    writes: Vec<u64>,
) -> MemClient {
    let wire = Pair {
        source: MemSource::new(bytes(rt, alloc, input), 5, reads),
        sink: MemSink::new(alloc, 7, writes),
    };
    client_over(rt, alloc, wire, xid)
}

// The same over a wire that never fails.
fn fair_client<R: Abort>(rt: &R, alloc: Global, input: &[&str], xid: u32) -> MemClient {
    client(rt, alloc, input, xid, Vec::new(alloc), Vec::new(alloc))
}

#[test]
fn first_match(rt: HostRuntime) {
    let alloc = rt.alloc();
    let reply = "80000030 00000001 00000001 00000000 00000000 00000000 00000000 00000001 \
        0000000e 31302e30 2e302e31 20616c70 68610000";
    let call = "8000004c 00000001 00000000 00000002 000186a4 00000002 00000003 00000000 00000000 \
        00000000 00000000 00000003 6c616200 0000000c 686f7374 732e6279 6e616d65 \
        00000005 616c7068 61000000";
    let value: &[u8] = b"10.0.0.1 alpha";
    let mut client = fair_client(&rt, alloc, &[reply], 1);
    let came = client.match_key(b"lab", b"hosts.byname", b"alpha");
    assert_same(&rt, &came, &Ok(value), "MATCH");
    assert_sent(&rt, alloc, client, call, "MATCH");
}

#[test]
fn order_and_master(rt: HostRuntime) {
    let alloc = rt.alloc();
    // The numbers wrap.
    let replies =
        "80000020 ffffffff 00000001 00000000 00000000 00000000 00000000 00000001 00000064 \
        80000024 00000000 00000001 00000000 00000000 00000000 00000000 00000001 00000002 6d310000";
    let calls = "80000040 ffffffff 00000000 00000002 000186a4 00000002 0000000a 00000000 00000000 \
        00000000 00000000 00000003 6c616200 0000000c 686f7374 732e6279 6e616d65 \
        80000040 00000000 00000000 00000002 000186a4 00000002 00000009 00000000 00000000 \
        00000000 00000000 00000003 6c616200 0000000c 686f7374 732e6279 6e616d65";
    let master: &[u8] = b"m1";
    let mut client = fair_client(&rt, alloc, &[replies], u32::MAX);
    assert_same(
        &rt,
        &number(client.order(b"lab", b"hosts.byname")),
        &Ok(100),
        "ORDER",
    );
    assert_same(
        &rt,
        &client.master(b"lab", b"hosts.byname"),
        &Ok(master),
        "MASTER",
    );
    assert_sent(&rt, alloc, client, calls, "ORDER and MASTER");
}

// The key and the value of a row.
fn key_and_value(found: Result<Row<'_>, ClientFault>) -> Result<(&[u8], &[u8]), ClientFault> {
    match found {
        Ok(row) => Ok((row.key, row.value)),
        Err(fault) => Err(fault),
    }
}

// How many names there are, and the first two.
type TwoNames<'a> = (usize, Option<&'a [u8]>, Option<&'a [u8]>);

fn two_names(found: &Result<MapList, ClientFault>) -> Result<TwoNames<'_>, ClientFault> {
    match found {
        Ok(list) => Ok((list.maps.len(), list.maps.get(0), list.maps.get(1))),
        Err(fault) => Err(*fault),
    }
}

// Makes FIRST, NEXT and MAPLIST.
fn try_lists<R: Abort>(rt: &R, client: &mut MemClient) {
    let (key, value): (&[u8], &[u8]) = (b"k", b"v");
    let first = key_and_value(client.first(b"d", b"m"));
    assert_same(rt, &first, &Ok((key, value)), "FIRST");
    let empty: &[u8] = b"";
    let next = key_and_value(client.next(b"d", b"m", b"k"));
    assert_same(rt, &next, &Ok((empty, empty)), "NEXT");
    let (a, b): (&[u8], &[u8]) = (b"a", b"b");
    let maps = client.maplist(b"d");
    assert_same(rt, &two_names(&maps), &Ok((2, Some(a), Some(b))), "MAPLIST");
}

#[test]
fn rows_and_maps(rt: HostRuntime) {
    let replies = "8000002c 00000001 00000001 00000000 00000000 00000000 00000000 \
        00000001 00000001 76000000 00000001 6b000000 \
        80000024 00000002 00000001 00000000 00000000 00000000 00000000 00000001 00000000 00000000 00000000 \
        80000038 00000003 00000001 00000000 00000000 00000000 00000000 00000001 \
        00000001 00000001 61000000 00000001 00000001 62000000 00000000";
    let mut client = fair_client(&rt, rt.alloc(), &[replies], 1);
    try_lists(&rt, &mut client);
}

// The reply to call 9: the order number 7.
const NEXT_REPLY: &str =
    "80000020 00000009 00000001 00000000 00000000 00000000 00000000 00000001 00000007";

// The answer to that, where the client goes on, and where it doesn't.
const GOES_ON: Result<u32, ClientFault> = Ok(7);

const SPENT: Result<u32, ClientFault> = Err(ClientFault::Spent);

// A reply to call 8 that refuses it, and the answers to that call and the next one.
type Refusal = (&'static str, ClientFault, Result<u32, ClientFault>);

static REFUSALS: [Refusal; 13] = [
    // Another call's reply, and one that can't be read.
    (
        "80000020 00000009 00000001 00000000 00000000 00000000 00000000 00000001 00000064",
        ClientFault::BadXid { want: 8, got: 9 },
        SPENT,
    ),
    ("80000000", ClientFault::BadReply { at: 0 }, SPENT),
    (
        "80000008 00000008 00000000",
        ClientFault::BadReply { at: 4 },
        SPENT,
    ),
    (
        "80000018 00000008 00000001 00000000 00000000 00000000 00000006",
        ClientFault::BadReply { at: 20 },
        SPENT,
    ),
    (
        "8000001c 00000008 00000001 00000000 00000000 00000000 00000000 00000003",
        ClientFault::BadReply { at: 24 },
        SPENT,
    ),
    (
        "8000001e 00000008 00000001 00000000 00000000 00000000 00000000 00000001 0000",
        ClientFault::BadReply { at: 28 },
        SPENT,
    ),
    // Refused by RPC, and by the server.
    (
        "80000014 00000008 00000001 00000001 00000001 00000002",
        ClientFault::Denied(ReplyHead::AuthError { stat: 2 }),
        GOES_ON,
    ),
    (
        "80000018 00000008 00000001 00000000 00000000 00000000 00000003",
        ClientFault::Denied(ReplyHead::ProcUnavail),
        GOES_ON,
    ),
    (
        "80000020 00000008 00000001 00000000 00000000 00000000 00000000 ffffffff 00000000",
        ClientFault::Yp(YpStat::Nomap),
        GOES_ON,
    ),
    // What follows a status is skipped.
    (
        "8000001c 00000008 00000001 00000000 00000000 00000000 00000000 fffffffe",
        ClientFault::Yp(YpStat::Nodom),
        GOES_ON,
    ),
    // The number goes before the refusal, and the head before the number.
    (
        "80000014 00000007 00000001 00000001 00000001 00000002",
        ClientFault::BadXid { want: 8, got: 7 },
        SPENT,
    ),
    (
        "80000010 00000007 00000001 00000001 00000002",
        ClientFault::BadReply { at: 12 },
        SPENT,
    ),
    ("80040001", ClientFault::TooLong { at: 0 }, SPENT),
];

// The answers to ORDER, twice.
fn orders(client: &mut MemClient) -> [Result<u32, ClientFault>; 2] {
    [
        number(client.order(b"d", b"m")),
        number(client.order(b"d", b"m")),
    ]
}

fn try_refusal<R: Abort>(rt: &R, alloc: Global, refusal: &Refusal) {
    let (reply, fault, next) = *refusal;
    let mut client = fair_client(rt, alloc, &[reply, NEXT_REPLY], 8);
    assert_same(rt, &orders(&mut client), &[Err(fault), next], reply);
}

#[test]
fn client_refusals(rt: HostRuntime) {
    for refusal in &REFUSALS {
        try_refusal(&rt, rt.alloc(), refusal);
    }
}

// The input, the read and the write that fail, the answer, and how many bytes were taken. A call has 60 bytes.
type Failing = (&'static str, u64, u64, ClientFault, usize);

static FAILING: [Failing; 7] = [
    ("", 9, 99, ClientFault::Torn { at: 0 }, 60),
    ("80000020 00000008", 99, 99, ClientFault::Torn { at: 0 }, 60),
    (NEXT_REPLY, 0, 99, ClientFault::ReadFault, 60),
    (NEXT_REPLY, 3, 99, ClientFault::ReadFault, 60),
    (NEXT_REPLY, 99, 0, ClientFault::WriteFault, 0),
    (NEXT_REPLY, 99, 2, ClientFault::WriteFault, 14),
    // The flush behind nine writes of at most seven bytes.
    (NEXT_REPLY, 99, 9, ClientFault::WriteFault, 60),
];

// The answers to ORDER, twice, and how many bytes were taken, where a read and a write fail.
fn orders_over<R: Abort>(
    rt: &R,
    alloc: Global,
    input: &str,
    read: u64,
    write: u64,
) -> ([Result<u32, ClientFault>; 2], usize) {
    let reads = Vec::from_slice(alloc, &[read]).expect(rt, "a list");
    let writes = Vec::from_slice(alloc, &[write]).expect(rt, "a list");
    let mut client = client(rt, alloc, &[input], 8, reads, writes);
    let said = orders(&mut client);
    (said, client.into_wire().sink.taken().len())
}

fn try_failing<R: Abort>(rt: &R, alloc: Global, failing: &Failing) {
    let (input, read, write, fault, taken) = *failing;
    let came = (read, write, orders_over(rt, alloc, input, read, write));
    let said = [Err(fault), Err(ClientFault::Spent)];
    assert_same(rt, &came, &(read, write, (said, taken)), input);
}

#[test]
fn one_failing_call(rt: HostRuntime) {
    for failing in &FAILING {
        try_failing(&rt, rt.alloc(), failing);
    }
}

// The answers to NULL and CLEAR, to DOMAIN twice, to XFR, and to DOMAIN again.
type Others = (
    [Result<(), ClientFault>; 2],
    [Result<bool, ClientFault>; 2],
    Result<XfrStat, ClientFault>,
    Result<bool, ClientFault>,
);

fn make_others(client: &mut MemClient) -> Others {
    let request = ReqXfr {
        domain: b"lab",
        map: b"m",
        ordernum: 1,
        peer: b"x",
        transid: 9,
        prog: 0,
        port: 0,
    };
    (
        [client.ping(), client.clear()],
        [client.domain(b"lab"), client.domain(b"zzz")],
        client.xfr(&request),
        client.domain(b"lab"),
    )
}

#[test]
fn other_procedures(rt: HostRuntime) {
    // NULL, CLEAR, DOMAIN twice, XFR, and a boolean that is neither.
    let replies = "80000018 00000001 00000001 00000000 00000000 00000000 00000000 \
        80000018 00000002 00000001 00000000 00000000 00000000 00000000 \
        8000001c 00000003 00000001 00000000 00000000 00000000 00000000 00000001 \
        8000001c 00000004 00000001 00000000 00000000 00000000 00000000 00000000 \
        80000020 00000005 00000001 00000000 00000000 00000000 00000000 00000009 fffffff2 \
        8000001c 00000006 00000001 00000000 00000000 00000000 00000000 00000002";
    let wanted = (
        [Ok(()), Ok(())],
        [Ok(true), Ok(false)],
        Ok(XfrStat::Refused),
        Err(ClientFault::BadReply { at: 24 }),
    );
    let mut client = fair_client(&rt, rt.alloc(), &[replies], 1);
    assert_same(&rt, &make_others(&mut client), &wanted, "others");
}

#[test]
fn make_program(rt: HostRuntime) {
    let alloc = rt.alloc();
    let reply = "8000001c 00000002 00000001 00000000 00000000 00000000 00000000 00000001";
    let call = "80000034 00000002 00000000 00000002 20004e49 00000001 00000001 00000000 00000000 \
        00000000 00000000 00000003 6c616200 00000005";
    let mut client = fair_client(&rt, alloc, &[reply], 2);
    assert_same(&rt, &client.make(b"lab", 5), &Ok(XfrStat::Succ), "MAKE");
    assert_sent(&rt, alloc, client, call, "MAKE");
}

#[test]
fn make_program_by_name(rt: HostRuntime) {
    let alloc = rt.alloc();
    let reply = "8000001c 00000002 00000001 00000000 00000000 00000000 00000000 fffffff7";
    let call = "80000040 00000002 00000000 00000002 20004e49 00000001 00000002 00000000 00000000 \
        00000000 00000000 00000003 6c616200 0000000c 686f7374 732e6279 6e616d65";
    let mut client = fair_client(&rt, alloc, &[reply], 2);
    let made = client.make_named(b"lab", b"hosts.byname");
    assert_same(&rt, &made, &Ok(XfrStat::File), "MAKE_NAMED");
    assert_sent(&rt, alloc, client, call, "MAKE_NAMED");
}
