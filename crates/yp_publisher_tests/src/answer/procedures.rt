//! What each procedure of YP answers.

ghost use Rattle.std.specs.Prelude.{◌≤◌, length};
ghost use Rattle.yp_answer.specs.Numbers.{record_max};

use crate::answer::sample::*;
use crate::given::assert_same;
use std::alloc::Global;
use std::process::Abort;
use yp_answer::{Answered, RECORD_MAX, answer};
use yp_board::PlainBoard;

// A call, and the reply to it. Where that is empty, there is none.
static ON_BOTH_PATHS: [&str; 41] = [
    "NULL: NULL -> SUCCESS",
    "CLEAR: CLEAR -> SUCCESS",
    "DOMAIN of lab: DOMAIN LAB -> SUCCESS SERVED",
    "DOMAIN of zoo: DOMAIN ZOO -> SUCCESS SERVED",
    "DOMAIN of zzz: DOMAIN ZZZ -> SUCCESS UNSERVED",
    "DOMAIN of no name: DOMAIN EMPTY -> SUCCESS UNSERVED",
    "DOMAIN_NONACK of lab: NONACK LAB -> SUCCESS SERVED",
    "DOMAIN_NONACK of zzz: NONACK ZZZ ->",
    "DOMAIN_NONACK of no name: NONACK EMPTY ->",
    "the procedure 12: TWELVE -> PROC_UNAVAIL",
    "MATCH of a key: MATCH LAB HOSTS ALPHA -> SUCCESS YP_TRUE ADDRESS",
    "MATCH of an unknown key: MATCH LAB HOSTS 00000003 616c7000 -> SUCCESS YP_NOKEY EMPTY",
    "MATCH in a map without a name, of a domain that isn't served: MATCH ZZZ EMPTY ALPHA \
        -> SUCCESS YP_BADARGS EMPTY",
    "MATCH in a domain without a name: MATCH EMPTY HOSTS ALPHA -> SUCCESS YP_BADARGS EMPTY",
    "MATCH in a domain that isn't served: MATCH ZZZ NO_MAP ALPHA -> SUCCESS YP_NODOM EMPTY",
    "MATCH in an unknown map: MATCH LAB NO_MAP ALPHA -> SUCCESS YP_NOMAP EMPTY",
    "MATCH in a map without a version: MATCH LAB BARE_MAP ALPHA -> SUCCESS YP_NOMAP EMPTY",
    "FIRST: FIRST LAB HOSTS -> SUCCESS YP_TRUE ADDRESS ALPHA",
    "FIRST with a key behind its arguments, which isn't read: FIRST LAB HOSTS ALPHA \
        -> SUCCESS YP_TRUE ADDRESS ALPHA",
    "FIRST of two rows: FIRST ZOO HOSTS -> SUCCESS YP_TRUE 00000001 31000000 00000002 61620000",
    "FIRST of no rows: FIRST LAB EMPTY_MAP -> SUCCESS YP_NOMORE EMPTY EMPTY",
    "NEXT behind the last row: NEXT LAB HOSTS ALPHA -> SUCCESS YP_NOMORE EMPTY EMPTY",
    "NEXT behind an unknown key: NEXT LAB HOSTS 00000004 62657461 -> SUCCESS YP_NOKEY EMPTY EMPTY",
    "NEXT behind the first of two rows: NEXT ZOO HOSTS 00000002 61620000 \
        -> SUCCESS YP_TRUE 00000001 32000000 00000001 62000000",
    "NEXT in an unknown map: NEXT LAB NO_MAP ALPHA -> SUCCESS YP_NOMAP EMPTY EMPTY",
    "MASTER: MASTER LAB HOSTS -> SUCCESS YP_TRUE M1",
    "MASTER of a map without a version: MASTER LAB BARE_MAP -> SUCCESS YP_NOMAP EMPTY",
    "ORDER of a map without rows: ORDER LAB EMPTY_MAP -> SUCCESS YP_TRUE ORDER_100",
    "ORDER in a domain that isn't served: ORDER ZZZ HOSTS -> SUCCESS YP_NODOM 00000000",
    "ORDER without a map: ORDER LAB -> GARBAGE_ARGS",
    "MAPLIST of lab: MAPLIST LAB -> SUCCESS YP_TRUE MORE EMPTY_MAP MORE HOSTS END",
    "MAPLIST of zoo: MAPLIST ZOO -> SUCCESS YP_TRUE MORE HOSTS END",
    "MAPLIST of a domain that isn't served: MAPLIST ZZZ -> SUCCESS YP_NODOM END",
    "MAPLIST of no name: MAPLIST EMPTY -> SUCCESS YP_BADARGS END",
    // The board's own name is the master of each version.
    "XFR of a map of the server's own: XFR LAB HOSTS ORDER_0 PEER_X CALL_BACK \
        -> SUCCESS TRANSACTION XFR_REFUSED",
    "XFR of a map without a version: XFR LAB BARE_MAP ORDER_0 PEER_X CALL_BACK \
        -> SUCCESS TRANSACTION XFR_SUCC",
    "XFR of an unknown map: XFR LAB NO_MAP ORDER_0 PEER_X CALL_BACK \
        -> SUCCESS TRANSACTION YP_NOMAP",
    "XFR in a domain that isn't served: XFR ZZZ NO_MAP ORDER_0 PEER_X CALL_BACK \
        -> SUCCESS TRANSACTION YP_NODOM",
    "XFR from no host: XFR ZZZ HOSTS ORDER_0 EMPTY CALL_BACK -> SUCCESS TRANSACTION YP_BADARGS",
    "XFR of a map of no name: XFR LAB EMPTY ORDER_0 PEER_X CALL_BACK \
        -> SUCCESS TRANSACTION YP_BADARGS",
    "XFR without a port: XFR LAB HOSTS ORDER_0 PEER_X 00000009 40000000 -> GARBAGE_ARGS",
];

#[test]
fn answers(rt: HostRuntime) {
    let board = two_domains(&rt, rt.alloc());
    try_rows(&rt, rt.alloc(), board, OPEN_PORT, &ON_BOTH_PATHS);
}

// Calls of ALL, which a datagram can't have.
static ALL_OF: [&str; 6] = [
    "one row: ALL LAB HOSTS -> SUCCESS MORE YP_TRUE ADDRESS ALPHA END | PROC_UNAVAIL",
    "two rows: ALL ZOO HOSTS \
        -> SUCCESS MORE YP_TRUE 00000001 31000000 00000002 61620000 \
        MORE YP_TRUE 00000001 32000000 00000001 62000000 END | PROC_UNAVAIL",
    "no rows: ALL LAB EMPTY_MAP -> SUCCESS END | PROC_UNAVAIL",
    "an unknown map: ALL LAB NO_MAP -> SUCCESS MORE YP_NOMAP EMPTY EMPTY END | PROC_UNAVAIL",
    "a domain that isn't served: ALL ZZZ HOSTS \
        -> SUCCESS MORE YP_NODOM EMPTY EMPTY END | PROC_UNAVAIL",
    "without a map: ALL LAB -> GARBAGE_ARGS | PROC_UNAVAIL",
];

#[test]
fn answers_all(rt: HostRuntime) {
    let board = two_domains(&rt, rt.alloc());
    try_rows(&rt, rt.alloc(), board, OPEN_PORT, &ALL_OF);
}

// Compares the transfer that a call takes: its map, the host that has it, and how to call back.
fn assert_taken(rt: &impl Abort, board: &mut PlainBoard, call: &[u8], buf: &mut [u8])
    requires { record_max ≤ length buf.old }
{
    match answer(board, call, caller(OPEN_PORT), buf) {
        Answered::Transfer { job, .. } => {
            let call_back = (job.transid, job.prog, job.port);
            let came = (job.map, job.source, call_back);
            let source: &[u8] = b"x";
            let wanted = (2, source, (9, 0x4000_0000, 7_002));
            assert_same(rt, &came, &wanted, "XFR of a map without a version");
        }
        _ => panic!(rt; "no transfer"),
    }
}

fn take_transfer(rt: &impl Abort, board: PlainBoard, call: &[u8], buf: &mut [u8])
    requires { record_max ≤ length buf.old }
{
    let mut board = board;
    assert_taken(rt, &mut board, call, buf);
}

#[test]
fn takes_transfers(rt: HostRuntime) {
    let alloc = rt.alloc();
    let call = words(&rt, alloc, "XFR LAB BARE_MAP ORDER_0 PEER_X CALL_BACK");
    let mut buf = filled(&rt, alloc, 9, RECORD_MAX);
    take_transfer(&rt, two_domains(&rt, alloc), &call, &mut buf);
}
