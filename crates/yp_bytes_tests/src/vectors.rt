//! FIRST of the map `hosts.byname` of the domain `lab`, xid 5, and its reply, written out by hand from RFC 5531 and
//! yp.x.

ghost use Rattle.std.specs.Prelude.{◌≡◌, []};

use crate::given::{assert_same, bytes};
use std::alloc::Global;
use std::process::Abort;
use yp_client::read_found;
use yp_memory::{MemSink, MemSource};
use yp_messages::protocol::{FIRST, YPPROG, YPVERS};
use yp_messages::{Message, ReqNokey};
use yp_rpc::{RecordReader, RecordWriter, write_call};

const FIRST_CALL: &str = "80000040 00000005 00000000 00000002 000186a4 00000002 00000004
    00000000 00000000 00000000 00000000 00000003 6c616200 0000000c 686f7374 732e6279 6e616d65";

const FIRST_REPLY: &str = "8000003c 00000005 00000001 00000000 00000000 00000000 00000000
    00000001 0000000e 31302e30 2e302e31 20616c70 68610000 00000005 616c7068 61000000";

// Puts the call at the front of the buffer, and answers its length, or 0 where there is no room.
fn put_first(buf: &mut [u8; 64]) -> usize {
    let arguments = ReqNokey {
        domain: b"lab",
        map: b"hosts.byname",
    };
    match write_call(buf, 5, YPPROG, YPVERS, FIRST) {
        Ok(at) => arguments.write(buf, at).unwrap_or(0),
        Err(_) => 0,
    }
}

// Sends the call as a record.
fn send_first(writer: &mut RecordWriter, sink: &mut MemSink) -> bool
    requires { writer.old ≡ [] }
{
    let mut buf = [0; 64];
    let len = put_first(&mut buf);
    if len == 0 || len > 64 {
        return false;
    }
    writer.send(sink, &buf[..len]).is_ok()
}

// What was sent of the call.
fn sent_first<R: Abort>(rt: &R, alloc: Global) -> Vec<u8> {
    let mut writer = RecordWriter::new(alloc).expect(rt, "a writer");
    let mut sink = MemSink::new(alloc, 64, Vec::new(alloc));
    let _sent = send_first(&mut writer, &mut sink);
    sink.taken().to_vec(alloc).expect(rt, "a copy")
}

#[test]
fn first_call(rt: HostRuntime) {
    let alloc = rt.alloc();
    let wanted = bytes(&rt, alloc, &[FIRST_CALL]);
    let came = sent_first(&rt, alloc);
    assert_same(&rt, &came, &wanted, "the call of FIRST");
}

// Whether a record is the reply to a call with this number, with a row.
fn is_row(record: Vec<u8>, alloc: Global, xid: u32, key: &[u8], value: &[u8]) -> bool {
    let mut source = MemSource::new(record, 80, Vec::new(alloc));
    let mut buf = [0; 8_192];
    match RecordReader::new().next(&mut source, &mut buf) {
        Ok(Some(len)) => match read_found(&buf[..len], xid) {
            Ok(row) => row.key == key && row.value == value,
            Err(_) => false,
        },
        _ => false,
    }
}

#[test]
fn first_reply(rt: HostRuntime) {
    let alloc = rt.alloc();
    for (xid, wanted) in &[(5, true), (6, false)] {
        let record = bytes(&rt, alloc, &[FIRST_REPLY]);
        let is = is_row(record, alloc, *xid, b"alpha", b"10.0.0.1 alpha");
        assert_same(&rt, &is, wanted, "the reply to FIRST");
    }
}
