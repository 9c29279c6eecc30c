//! Secure maps, whose rows are shown to ports under 1024.

use crate::answer::sample::*;
use std::alloc::Global;
use std::process::Abort;
use std::random::RandomSource;

// Calls about a secure map, and the replies to a port from 1024 on.
static OPEN: [&str; 7] = [
    "MATCH: MATCH LAB HOSTS ALPHA -> SUCCESS YP_YPERR EMPTY",
    "FIRST: FIRST LAB HOSTS -> SUCCESS YP_YPERR EMPTY EMPTY",
    "NEXT: NEXT LAB HOSTS ALPHA -> SUCCESS YP_YPERR EMPTY EMPTY",
    "ALL: ALL LAB HOSTS -> SUCCESS MORE YP_YPERR EMPTY EMPTY END | PROC_UNAVAIL",
    "MASTER: MASTER LAB HOSTS -> SUCCESS YP_TRUE M1",
    "ORDER: ORDER LAB HOSTS -> SUCCESS YP_TRUE ORDER_100",
    "MAPLIST: MAPLIST LAB -> SUCCESS YP_TRUE MORE HOSTS END",
];

// The same, and the replies to a port below.
static RESERVED: [&str; 7] = [
    "MATCH: MATCH LAB HOSTS ALPHA -> SUCCESS YP_TRUE ADDRESS",
    "FIRST: FIRST LAB HOSTS -> SUCCESS YP_TRUE ADDRESS ALPHA",
    "NEXT: NEXT LAB HOSTS ALPHA -> SUCCESS YP_NOMORE EMPTY EMPTY",
    "ALL: ALL LAB HOSTS -> SUCCESS MORE YP_TRUE ADDRESS ALPHA END | PROC_UNAVAIL",
    "MASTER: MASTER LAB HOSTS -> SUCCESS YP_TRUE M1",
    "ORDER: ORDER LAB HOSTS -> SUCCESS YP_TRUE ORDER_100",
    "MAPLIST: MAPLIST LAB -> SUCCESS YP_TRUE MORE HOSTS END",
];

fn try_secure<R: RandomSource + Abort>(rt: &R, alloc: Global, port: u16, rows: &[&str]) {
    let version = version(rt, alloc, &[HOST]).marked(true);
    try_rows(rt, alloc, board_of(rt, alloc, version), port, rows);
}

#[test]
fn secure_rows(rt: HostRuntime) {
    try_secure(&rt, rt.alloc(), 1_024, &OPEN);
    try_secure(&rt, rt.alloc(), 65_535, &OPEN);
    try_secure(&rt, rt.alloc(), 1_023, &RESERVED);
    try_secure(&rt, rt.alloc(), 0, &RESERVED);
}
