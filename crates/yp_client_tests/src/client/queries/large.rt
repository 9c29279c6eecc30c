//! Replies with the longest value, and with more rows than a version may have.

use crate::client::asked::{Asked, FAIR, Weather, ask};
use crate::client::queries::questions::{ALPHA, CAT};
use crate::given::{assert_same, bytes};
use std::alloc::Global;
use std::process::Abort;
use yp_client::ClientFault;
use yp_client::query::QueryFault;
use yp_version::VersionFault;

fn add<R: Abort>(rt: &R, input: &mut Vec<u8>, bytes: &[u8]) {
    input.extend_from_slice(bytes).expect(rt, "room");
}

// A reply with a value as long as the buffer, behind which the line feed has no room.
fn long_reply<R: Abort>(rt: &R, alloc: Global) -> Vec<u8> {
    let head = "80010020 00000001 00000001 00000000 00000000 00000000 00000000 00000001 00010000";
    let value = vec![in alloc; b'v'; 65_536].expect(rt, "a value");
    let mut reply = bytes(rt, alloc, &[head]);
    add(rt, &mut reply, &value);
    reply
}

// The result, and how many bytes were printed.
fn result_and_len(asked: &Asked) -> (Result<(), QueryFault>, usize) {
    (asked.0, asked.3.len())
}

/// What fails, the result, and how many bytes were printed.
static LONG_TEXTS: [(&str, Weather, Result<(), QueryFault>, usize); 4] = [
    ("none", FAIR, Ok(()), 65_537),
    (
        "the first print",
        Weather {
            prints: &[0],
            ..FAIR
        },
        Err(QueryFault::Output),
        0,
    ),
    (
        "the second print",
        Weather {
            prints: &[1],
            ..FAIR
        },
        Err(QueryFault::Output),
        65_536,
    ),
    (
        "the flush",
        Weather {
            prints: &[2],
            ..FAIR
        },
        Err(QueryFault::Output),
        65_537,
    ),
];

#[test]
fn long_text_in_full_buffers(rt: HostRuntime) {
    let alloc = rt.alloc();
    for (row, weather, result, printed) in &LONG_TEXTS {
        let asked = ask(&rt, alloc, &ALPHA, long_reply(&rt, alloc), 100_000, weather);
        assert_same(&rt, &result_and_len(&asked), &(*result, *printed), *row);
    }
}

// A reply with one row more than a version may have, of 20 bytes each.
fn too_many_rows<R: Abort>(rt: &R, alloc: Global) -> Vec<u8> {
    let head = "80500030 00000001 00000001 00000000 00000000 00000000 00000000";
    let mut reply = bytes(rt, alloc, &[head]);
    for key in 0..262_145u32 {
        let row = [0, 0, 0, 1, 0, 0, 0, 1, 0, 0, 0, 0, 0, 0, 0, 4];
        add(rt, &mut reply, &row);
        add(rt, &mut reply, &key.to_be_bytes());
    }
    add(rt, &mut reply, &[0; 4]);
    reply
}

#[test]
fn first_row_that_no_version_takes(rt: HostRuntime) {
    let alloc = rt.alloc();
    let asked = ask(&rt, alloc, &CAT, too_many_rows(&rt, alloc), 100_000, &FAIR);
    let fault = QueryFault::Client(ClientFault::Rows {
        row: 262_145,
        fault: VersionFault::TooManyRows,
    });
    assert_same(
        &rt,
        &result_and_len(&asked),
        &(Err(fault), 0),
        "a row too many",
    );
}
