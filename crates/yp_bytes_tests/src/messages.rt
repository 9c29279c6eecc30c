//! Messages written out by hand from the protocol file yp.x.

ghost use Rattle.std.specs.Prelude.{◌≡◌};

use crate::given::{assert_same, bytes};
use std::alloc::Global;
use std::process::Abort;
use yp_messages::*;
use yp_xdr::{Cursor, NoRoom, XdrFault};

// Looks at how many bytes a message has, and whether it is written as these words.
fn assert_written<R: Abort, M: Message>(rt: &R, alloc: Global, message: &M, words: &str)
    requires { M.is_within message.now }
{
    let bytes = bytes(rt, alloc, &[words]);
    let mut buf = [9; 96];
    let len = message.len();
    let end = message.write(&mut buf, 0);
    let came = (len, end, buf.starts_with(&bytes));
    assert_same(rt, &came, &(bytes.len(), Ok(bytes.len()), true), words);
}

fn requests_written<R: Abort>(rt: &R, alloc: Global) {
    let domain = b"lab".as_slice();
    let map = b"hosts.byname".as_slice();
    let key = b"alpha".as_slice();
    let words = "00000003 6c616200";
    assert_written(rt, alloc, &ReqDomain { domain }, words);
    let words = "00000003 6c616200 0000000c 686f7374 732e6279 6e616d65";
    assert_written(rt, alloc, &ReqNokey { domain, map }, words);
    let words = "00000003 6c616200 0000000c 686f7374 732e6279 6e616d65 00000005 616c7068 61000000";
    assert_written(rt, alloc, &ReqKey { domain, map, key }, words);
}

fn answers_written<R: Abort>(rt: &R, alloc: Global) {
    let stat = YpStat::True;
    let val = b"10.0.0.1 alpha".as_slice();
    let peer = b"m1".as_slice();
    let ordernum = 100;
    let words = "00000001 0000000e 31302e30 2e302e31 20616c70 68610000";
    assert_written(rt, alloc, &RespVal { stat, val }, words);
    let words = "00000001 00000002 6d310000";
    assert_written(rt, alloc, &RespMaster { stat, peer }, words);
    let words = "00000001 00000064";
    assert_written(rt, alloc, &RespOrder { stat, ordernum }, words);
}

fn rows_written<R: Abort>(rt: &R, alloc: Global) {
    let row = KeyVal {
        stat: YpStat::True,
        val: b"10.0.0.1 alpha",
        key: b"alpha",
    };
    let words = "00000001 0000000e 31302e30 2e302e31 20616c70 68610000 00000005 616c7068 61000000";
    assert_written(rt, alloc, &row, words);
    let words = "00000001 00000001 0000000e 31302e30 2e302e31 20616c70 68610000 00000005 616c7068 \
        61000000";
    assert_written(rt, alloc, &AllItem::More(row), words);
    assert_written(rt, alloc, &AllItem::End, "00000000");
    let words = "00000001 0000000c 686f7374 732e6279 6e616d65";
    assert_written(rt, alloc, &MapItem::More(b"hosts.byname"), words);
    assert_written(rt, alloc, &MapItem::End, "00000000");
}

#[test]
fn messages_written(rt: HostRuntime) {
    requests_written(&rt, rt.alloc());
    answers_written(&rt, rt.alloc());
    rows_written(&rt, rt.alloc());
}

#[test]
fn transfers_written(rt: HostRuntime) {
    let alloc = rt.alloc();
    let domain = b"lab".as_slice();
    let asked = ReqXfr {
        domain,
        map: b"hosts.byname",
        ordernum: 100,
        peer: b"m1",
        transid: 9,
        prog: 0x4000_0000,
        port: 1021,
    };
    let words = "00000003 6c616200 0000000c 686f7374 732e6279 6e616d65 00000064 00000002 6d310000 \
        00000009 40000000 000003fd";
    assert_written(&rt, alloc, &asked, words);
    let answer = RespXfr {
        transid: 9,
        xfrstat: XfrStat::Refused,
    };
    assert_written(&rt, alloc, &answer, "00000009 fffffff2");
    let asked = ReqMake { domain, kind: 5 };
    assert_written(&rt, alloc, &asked, "00000003 6c616200 00000005");
    let answer = RespMake {
        stat: XfrStat::Succ,
    };
    assert_written(&rt, alloc, &answer, "00000001");
}

#[test]
fn bindings_written(rt: HostRuntime) {
    let alloc = rt.alloc();
    let told = PushResp {
        transid: 500,
        status: PushStat::Skew,
    };
    assert_written(&rt, alloc, &told, "000001f4 fffffff6");
    let addr = b"\x0a\x00\x00\x02".as_slice();
    let port = b"\x03\x42".as_slice();
    let answer = BindResp::Bound { addr, port };
    assert_written(&rt, alloc, &answer, "00000001 0a000002 03420000");
    let answer = BindResp::Unbound {
        error: BindErr::Noserv.number().cast_unsigned(),
    };
    assert_written(&rt, alloc, &answer, "00000002 00000002");
    let asked = SetDom {
        domain: b"lab",
        addr,
        port,
        vers: 2,
    };
    let words = "00000003 6c616200 0a000002 03420000 00000002";
    assert_written(&rt, alloc, &asked, words);
}

// Answers of the binder: their words, and what is read of them.
static BOUND: [(&str, Result<BindResp<'static>, XdrFault>); 7] = [
    (
        "00000001 0a000002 03420000",
        Ok(BindResp::Bound {
            addr: b"\x0a\x00\x00\x02",
            port: b"\x03\x42",
        }),
    ),
    ("00000002 00000002", Ok(BindResp::Unbound { error: 2 })),
    ("00000002 00000009", Ok(BindResp::Unbound { error: 9 })),
    ("00000003 00000002", Err(XdrFault::BadEnum { at: 0 })),
    ("00000001 0a000002 0342", Err(XdrFault::Short { at: 8 })),
    ("00000001 0a000002 03420001", Err(XdrFault::Pad { at: 11 })),
    ("00000002 0000", Err(XdrFault::Short { at: 4 })),
];

fn try_bound<R: Abort>(rt: &R, alloc: Global, row: &(&str, Result<BindResp<'_>, XdrFault>)) {
    let (words, wanted) = *row;
    let bytes = bytes(rt, alloc, &[words]);
    let read = BindResp::read(&mut Cursor::new(&bytes));
    assert_same(rt, &read, &wanted, words);
}

#[test]
fn bindings_read(rt: HostRuntime) {
    for row in &BOUND {
        try_bound(&rt, rt.alloc(), row);
    }
}

// What the caller of a transfer is told: the words, and what is read of them.
static TOLD: [(&str, Result<PushResp, XdrFault>); 3] = [
    (
        "000001f4 00000001",
        Ok(PushResp {
            transid: 500,
            status: PushStat::Succ,
        }),
    ),
    (
        "000001f5 fffffff2",
        Ok(PushResp {
            transid: 501,
            status: PushStat::Refused,
        }),
    ),
    ("000001f4 00000007", Err(XdrFault::BadEnum { at: 4 })),
];

fn try_told<R: Abort>(rt: &R, alloc: Global, row: &(&str, Result<PushResp, XdrFault>)) {
    let (words, wanted) = *row;
    let bytes = bytes(rt, alloc, &[words]);
    let read = PushResp::read(&mut Cursor::new(&bytes));
    assert_same(rt, &read, &wanted, words);
}

#[test]
fn pushes_read(rt: HostRuntime) {
    for row in &TOLD {
        try_told(&rt, rt.alloc(), row);
    }
}

// The domain of a request to set a server, the server's address and port, and the version.
fn read_set(bytes: &[u8]) -> Result<(&[u8], [&[u8]; 2], u32), XdrFault> {
    match SetDom::read(&mut Cursor::new(bytes)) {
        Ok(asked) => Ok((asked.domain, [asked.addr, asked.port], asked.vers)),
        Err(fault) => Err(fault),
    }
}

#[test]
fn domain_to_set(rt: HostRuntime) {
    let words = "00000003 6c616200 0a000002 03420000 00000002";
    let bytes = bytes(&rt, rt.alloc(), &[words]);
    let server = [b"\x0a\x00\x00\x02".as_slice(), b"\x03\x42"];
    let wanted = Ok((b"lab".as_slice(), server, 2));
    assert_same(&rt, &read_set(&bytes), &wanted, "a server for a domain");
}

// The status of a row, its value and its key, whether the end follows, and how far the cursor is then.
fn read_items(bytes: &[u8]) -> (Option<(YpStat, [&[u8]; 2])>, bool, usize) {
    let mut cursor = Cursor::new(bytes);
    let row = match AllItem::read(&mut cursor) {
        Ok(AllItem::More(row)) => Some((row.stat, [row.val, row.key])),
        _ => None,
    };
    let is_end = matches!(AllItem::read(&mut cursor), Ok(AllItem::End));
    (row, is_end, cursor.at())
}

#[test]
fn value_before_key(rt: HostRuntime) {
    let items = "00000001 00000001 0000000e 31302e30 2e302e31 20616c70 68610000 00000005 616c7068 \
        61000000 00000000";
    let bytes = bytes(&rt, rt.alloc(), &[items]);
    let texts = [b"10.0.0.1 alpha".as_slice(), b"alpha"];
    let wanted = (Some((YpStat::True, texts)), true, 44);
    assert_same(&rt, &read_items(&bytes), &wanted, "a row and the end");
}

// Words, and the status that they are read as.
static STATUSES: [(&str, Result<YpStat, XdrFault>); 13] = [
    ("00000001", Ok(YpStat::True)),
    ("00000002", Ok(YpStat::Nomore)),
    ("00000000", Ok(YpStat::False)),
    ("ffffffff", Ok(YpStat::Nomap)),
    ("fffffffe", Ok(YpStat::Nodom)),
    ("fffffffd", Ok(YpStat::Nokey)),
    ("fffffffc", Ok(YpStat::Badop)),
    ("fffffffb", Ok(YpStat::Baddb)),
    ("fffffffa", Ok(YpStat::Yperr)),
    ("fffffff9", Ok(YpStat::Badargs)),
    ("fffffff8", Ok(YpStat::Vers)),
    ("00000003", Err(XdrFault::BadEnum { at: 0 })),
    ("fffffff7", Err(XdrFault::BadEnum { at: 0 })),
];

fn try_status<R: Abort>(rt: &R, alloc: Global, row: &(&str, Result<YpStat, XdrFault>)) {
    let (words, wanted) = *row;
    let bytes = bytes(rt, alloc, &[words]);
    let read = YpStat::read(&mut Cursor::new(&bytes));
    assert_same(rt, &read, &wanted, words);
}

#[test]
fn statuses(rt: HostRuntime) {
    for row in &STATUSES {
        try_status(&rt, rt.alloc(), row);
    }
}

// Whether a list has these two names and no more.
fn has_names(list: &MapList, first: &[u8], second: &[u8]) -> bool {
    list.maps.len() == 2
        && list.maps.get(0) == Some(first)
        && list.maps.get(1) == Some(second)
        && list.maps.get(2).is_none()
}

// The status of a list, whether it has two names, and how far the cursor is then.
fn read_list(alloc: Global, bytes: &[u8]) -> (Result<(YpStat, bool), MapListFault>, usize) {
    let mut cursor = Cursor::new(bytes);
    let listed = match MapList::read(alloc, &mut cursor) {
        Ok(list) => Ok((list.stat, has_names(&list, b"m1", b"hosts.byname"))),
        Err(fault) => Err(fault),
    };
    (listed, cursor.at())
}

#[test]
fn names_of_maps(rt: HostRuntime) {
    let alloc = rt.alloc();
    let items = "00000001 00000001 00000002 6d310000 00000001 0000000c 686f7374 732e6279 6e616d65 \
        00000000";
    let whole = bytes(&rt, alloc, &[items]);
    let short = bytes(&rt, alloc, &["00000001 00000001 00000002 6d310000"]);
    let came = [read_list(alloc, &whole), read_list(alloc, &short)];
    let fault = MapListFault::Xdr(XdrFault::Short { at: 16 });
    let wanted = [(Ok((YpStat::True, true)), 40), (Err(fault), 0)];
    let row = "a list of two names, and one that isn't ended";
    assert_same(&rt, &came, &wanted, row);
}

// Why a request of a domain with these words is refused.
fn domain_fault<R: Abort>(rt: &R, alloc: Global, words: &str) -> Option<XdrFault> {
    let bytes = bytes(rt, alloc, &[words]);
    ReqDomain::read(&mut Cursor::new(&bytes)).err()
}

// The same of a request of a key.
fn key_fault<R: Abort>(rt: &R, alloc: Global, words: &str) -> Option<XdrFault> {
    let bytes = bytes(rt, alloc, &[words]);
    ReqKey::read(&mut Cursor::new(&bytes)).err()
}

#[test]
fn limits(rt: HostRuntime) {
    let fault = domain_fault(&rt, rt.alloc(), "00000041");
    let wanted = XdrFault::TooLong { at: 0, len: 65 };
    assert_same(&rt, &fault, &Some(wanted), "a name of 65 bytes");
    let words = "00000003 6c616200 00000002 6d310000 00010001";
    let fault = key_fault(&rt, rt.alloc(), words);
    let wanted = XdrFault::TooLong {
        at: 16,
        len: 65_537,
    };
    assert_same(&rt, &fault, &Some(wanted), "a key of 65,537 bytes");
    let mut buf = [9; 7];
    let asked = ReqDomain { domain: b"lab" };
    let came = (asked.write(&mut buf, 0), buf);
    assert_same(&rt, &came, &(Err(NoRoom), [9; 7]), "one byte too few");
}

#[test]
fn faults_as_text(rt: HostRuntime) {
    let fault = MapListFault::Xdr(XdrFault::Short { at: 32 });
    let text = format!(in rt.alloc(); "{fault} {}", MapListFault::NoMemory).expect(&rt, "a text");
    let wanted = "short item at 32 no memory";
    assert_same(&rt, &text.as_str(), &wanted, "faults");
}
