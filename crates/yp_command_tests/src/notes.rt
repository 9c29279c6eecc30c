//! Standard error that fails: each command ends as it would without, and tells nothing.

use crate::given::try_rows;
use yp_stage::{FAIR, Row};

/// The input is one byte, and each first call but those of files fails, that of the note, too.
const USAGE: Row = Row {
    name: "usage",
    words: &["frob"],
    text: "#",
    writes: 0,
    notes: 0,
    dials: 0,
    inbox: 0,
    code: 2,
    ..FAIR
};

/// No version, a record that is torn, and wires that don't come. The tables of the other commands have this row, too.
static ROWS: [Row; 12] = [
    USAGE,
    Row {
        name: "once",
        words: &["once", "lab/hosts.byname"],
        code: 5,
        ..USAGE
    },
    Row {
        name: "session",
        words: &["session", "m1", "127.0.0.1:40000", "lab/hosts.byname"],
        code: 5,
        ..USAGE
    },
    Row {
        name: "cat",
        words: &["cat", "10.0.0.1:834", "lab", "hosts.byname"],
        code: 15,
        ..USAGE
    },
    Row {
        name: "catk",
        words: &["catk", "10.0.0.1:834", "lab", "hosts.byname"],
        code: 15,
        ..USAGE
    },
    Row {
        name: "match",
        words: &["match", "10.0.0.1:834", "lab", "hosts.byname", "alpha"],
        code: 15,
        ..USAGE
    },
    Row {
        name: "which",
        words: &["which", "10.0.0.1:834", "lab", "hosts.byname"],
        code: 15,
        ..USAGE
    },
    Row {
        name: "poll",
        words: &["poll", "10.0.0.1:834", "lab", "hosts.byname"],
        code: 15,
        ..USAGE
    },
    Row {
        name: "maps",
        words: &["maps", "10.0.0.1:834", "lab"],
        code: 15,
        ..USAGE
    },
    Row {
        name: "pull",
        words: &["pull", "10.0.0.1:834", "lab", "hosts.byname", "m1"],
        code: 15,
        ..USAGE
    },
    Row {
        name: "make",
        words: &["make", "10.0.0.1:834", "lab", "hosts.byname"],
        code: 15,
        ..USAGE
    },
    Row {
        name: "innetgr",
        words: &["innetgr", "10.0.0.1:834", "lab", "a", "*", "joe", "*"],
        code: 15,
        ..USAGE
    },
];

#[test]
fn note_is_not_written(rt: HostRuntime) {
    try_rows(&rt, rt.alloc(), &ROWS);
}
