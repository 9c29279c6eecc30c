//! Transfers, by their mode, their flag and what stood.

use crate::given::try_rows;
use crate::storing::source::{
    ALL, BODY, BOTH_CELLS, BROKEN_BODY, CELLS, HOSTS_FILE, MASTER, ORDER, REFUSED, REPLIES, SECOND,
    SECURE_BODY, SECURE_FILE, SKEWED,
};
use yp_stage::{FAIR, Row, Stands};

const NEWER: &[&str] = &[
    "xfr",
    "s1",
    "newer",
    "lab/hosts.byname",
    "m1@127.0.0.1:7001",
];

const FORCED: &[&str] = &[
    "xfr",
    "s1",
    "force",
    "lab/hosts.byname",
    "m1@127.0.0.1:7001",
];

const OWN: &[&str] = &[
    "xfr",
    "m1",
    "force",
    "lab/hosts.byname",
    "m1@127.0.0.1:7001",
];

const SECURE: &[&str] = &[
    "xfr",
    "s1",
    "newer",
    "lab/hosts.byname",
    "m1@127.0.0.1:7001",
    "secure",
];

const PLAIN: &[&str] = &[
    "xfr",
    "s1",
    "force",
    "lab/hosts.byname",
    "m1@127.0.0.1:7001",
    "plain",
];

const BROKEN_FILE: &[&str] = &[CELLS, BROKEN_BODY];

const FIRST_LINE: &str = "lab/hosts.byname order 100 generation 1\n";

const SECOND_LINE: &str = "lab/hosts.byname order 100 generation 2\n";

/// Each call has 68 bytes.
const CALL_LEN: usize = 68;

const STANDS: Stands = Some((100, 1, false));

const SECURE_STANDS: Stands = Some((100, 1, true));

const FETCHED: Row = Row {
    name: "an empty file",
    words: NEWER,
    wire: REPLIES,
    output: FIRST_LINE,
    wires: 1,
    asked: 4 * CALL_LEN,
    stands: STANDS,
    left: HOSTS_FILE,
    ..FAIR
};

static TRANSFERS: [Row; 11] = [
    FETCHED,
    Row {
        name: "a source that changes",
        wire: SKEWED,
        code: 16,
        output: "",
        note: "yp: transfer -10 100 101\n",
        stands: None,
        left: &[],
        ..FETCHED
    },
    Row {
        name: "the same order",
        file: HOSTS_FILE,
        code: 16,
        output: "",
        note: "yp: transfer 2 100 100\n",
        asked: CALL_LEN,
        ..FETCHED
    },
    Row {
        name: "the same order, forced",
        words: FORCED,
        file: HOSTS_FILE,
        output: SECOND_LINE,
        left: &[BOTH_CELLS, BODY, BODY],
        ..FETCHED
    },
    Row {
        name: "an own map",
        words: OWN,
        file: HOSTS_FILE,
        code: 16,
        output: "",
        note: "yp: transfer -14\n",
        ..FETCHED
    },
    Row {
        name: "rows for ports under 1024 alone",
        wire: REFUSED,
        code: 16,
        output: "",
        note: "yp: transfer -6\n",
        asked: 3 * CALL_LEN,
        stands: None,
        left: &[],
        ..FETCHED
    },
    Row {
        name: "secure",
        words: SECURE,
        stands: SECURE_STANDS,
        left: SECURE_FILE,
        ..FETCHED
    },
    Row {
        name: "a secure one stands",
        words: FORCED,
        file: SECURE_FILE,
        output: SECOND_LINE,
        stands: SECURE_STANDS,
        left: &[BOTH_CELLS, SECURE_BODY, SECURE_BODY],
        ..FETCHED
    },
    Row {
        name: "plain, where a secure one stands",
        words: PLAIN,
        file: SECURE_FILE,
        output: SECOND_LINE,
        left: &[BOTH_CELLS, SECURE_BODY, BODY],
        ..FETCHED
    },
    Row {
        name: "a damaged file",
        file: BROKEN_FILE,
        code: 8,
        output: "",
        note: "yp: damaged lab/hosts.byname at 79 rule 5\n",
        asked: 0,
        wires: 0,
        stands: None,
        left: BROKEN_FILE,
        ..FETCHED
    },
    Row {
        name: "a source that dies in the middle of ALL",
        wire: &[
            "80000020 00000001 00000001 00000000 00000000 00000000 00000000 00000001 00000064",
            "80000024 00000002 00000001 00000000 00000000 00000000 00000000 00000001 00000002 6d310000",
            "80000044 00000003 00000001 00000000 00000000 00000000 00000000 00000001 00000001 0000000e",
        ],
        code: 16,
        output: "",
        note: "yp: transfer -4\n",
        asked: 3 * CALL_LEN,
        stands: None,
        left: &[],
        ..FETCHED
    },
];

#[test]
fn transfers(rt: HostRuntime) {
    try_rows(&rt, rt.alloc(), &TRANSFERS);
}

/// Replies of a source that lies: to ORDER, MASTER, ALL and the second ORDER.
const NOMAP: &str =
    "80000020 00000001 00000001 00000000 00000000 00000000 00000000 ffffffff 00000000";

const NODOM: &str =
    "80000020 00000001 00000001 00000000 00000000 00000000 00000000 fffffffe 00000000";

const OTHER_NUMBER: &str =
    "80000020 00000009 00000001 00000000 00000000 00000000 00000000 00000001 00000064";

const NO_MASTER: &str =
    "80000020 00000002 00000001 00000000 00000000 00000000 00000000 00000001 00000000";

const DENIED: &str = "80000014 00000002 00000001 00000001 00000001 00000002";

/// A value of 65,537 bytes, by its length; padding of 1; and a first fragment of 33,554,433 bytes.
const LONG_VALUE: &str = "80000028 00000003 00000001 00000000 00000000 00000000 00000000
    00000001 00000001 00010001 00000000";

const BAD_PADDING: &str = "80000044 00000003 00000001 00000000 00000000 00000000 00000000
    00000001 00000001 0000000e 31302e30 2e302e31 20616c70 68610001 00000005 616c7068 61000000
    00000000";

const LONG_REPLY: &str = "82000001";

const LAST_YPERR: &str =
    "80000020 00000004 00000001 00000000 00000000 00000000 00000000 fffffffa 00000000";

/// The row of `alpha`, and the row of `alpha` with the value `none` behind it.
const TWICE: &str = "80000060 00000003 00000001 00000000 00000000 00000000 00000000
    00000001 00000001 0000000e 31302e30 2e302e31 20616c70 68610000 00000005 616c7068 61000000
    00000001 00000001 00000004 6e6f6e65 00000005 616c7068 61000000 00000000";

/// Nothing is stored, whatever the source has wrong. A map of too many rows is tried in `yp_client_tests`.
const LIES: Row = Row {
    code: 16,
    output: "",
    asked: 3 * CALL_LEN,
    stands: None,
    left: &[],
    ..FETCHED
};

static HOSTILE: [Row; 10] = [
    Row {
        name: "no such map",
        wire: &[NOMAP],
        note: "yp: transfer -1\n",
        asked: CALL_LEN,
        ..LIES
    },
    Row {
        name: "no such domain",
        wire: &[NODOM],
        note: "yp: transfer -2\n",
        asked: CALL_LEN,
        ..LIES
    },
    Row {
        name: "another number",
        wire: &[OTHER_NUMBER],
        note: "yp: transfer -13\n",
        asked: CALL_LEN,
        ..LIES
    },
    Row {
        name: "no master",
        wire: &[ORDER, NO_MASTER],
        note: "yp: transfer -8\n",
        asked: 2 * CALL_LEN,
        ..LIES
    },
    Row {
        name: "denied",
        wire: &[ORDER, DENIED],
        note: "yp: transfer -6\n",
        asked: 2 * CALL_LEN,
        ..LIES
    },
    Row {
        name: "a value that is too long",
        wire: &[ORDER, MASTER, LONG_VALUE],
        note: "yp: transfer -13\n",
        ..LIES
    },
    Row {
        name: "padding that isn't zero",
        wire: &[ORDER, MASTER, BAD_PADDING],
        note: "yp: transfer -13\n",
        ..LIES
    },
    Row {
        name: "a reply that is too long",
        wire: &[ORDER, MASTER, LONG_REPLY],
        note: "yp: transfer -13\n",
        ..LIES
    },
    Row {
        name: "a status at last",
        wire: &[ORDER, MASTER, ALL, LAST_YPERR],
        note: "yp: transfer -6\n",
        asked: 4 * CALL_LEN,
        ..LIES
    },
    Row {
        name: "the first of a key stands",
        wire: &[ORDER, MASTER, TWICE, SECOND],
        ..FETCHED
    },
];

#[test]
fn hostile_sources(rt: HostRuntime) {
    try_rows(&rt, rt.alloc(), &HOSTILE);
}
