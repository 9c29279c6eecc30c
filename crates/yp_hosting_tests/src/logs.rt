//! What a server tells of what it does, and what comes where the notes fail.

use crate::bytes::{FILE, FIRST, MADE, MAKE, SENDER, UNMADE};
use crate::given::try_rows_after;
use yp_io::Peer;
use yp_stage::{Datagram, FAIR, Row};

/// A caller of another host.
const STRANGER: Peer = Peer {
    addr: [10, 0, 0, 9],
    port: 1_023,
};

/// MAKE by a datagram of the own host, and the map is made.
const MADE_TOLD: Row = Row {
    name: "a map is made",
    words: &[
        "serve",
        "m1",
        "7001",
        "1",
        "0",
        "1",
        "lab/hosts.byname",
        "log",
    ],
    brings: &[Datagram {
        peer: SENDER,
        bytes: &["00000002", MAKE],
    }],
    sources: &[("hosts", "10.0.0.1 alpha\n")],
    moment: 100,
    output: "connections 0 calls 0\n",
    note: "made lab/hosts.byname order 100 for 127.0.0.1:40000\n\
        made 1, not made by file 0, transfers 0, reached 0, \
        failed by address 0, memory 0, file 0, source 0\n",
    sends: &[Datagram {
        peer: SENDER,
        bytes: &["00000002", MADE],
    }],
    turns: 1,
    stands: FIRST,
    left: FILE,
    ..FAIR
};

/// The text isn't read.
const UNMADE_TOLD: Row = Row {
    name: "a map isn't made",
    texts: 0,
    note: "not made lab/hosts.byname -9 FILE for 127.0.0.1:40000\n\
        made 0, not made by file 1, transfers 0, reached 0, \
        failed by address 0, memory 0, file 0, source 0\n",
    sends: &[Datagram {
        peer: SENDER,
        bytes: &["00000002", UNMADE],
    }],
    stands: None,
    left: &[],
    ..MADE_TOLD
};

/// The last line where nothing was made and fetched.
const REFUSED_TOLD: Row = Row {
    name: "a stranger asks for a map to be made",
    brings: &[Datagram {
        peer: STRANGER,
        bytes: &["00000002", MAKE],
    }],
    note: "refused MAKE lab/hosts.byname -14 REFUSED for 10.0.0.9:1023\n\
        made 0, not made by file 0, transfers 0, reached 0, \
        failed by address 0, memory 0, file 0, source 0\n",
    sends: &[Datagram {
        peer: STRANGER,
        bytes: &["00000002", REFUSED],
    }],
    stands: None,
    left: &[],
    ..MADE_TOLD
};

/// The reply to MAKE with REFUSED, behind the word of its number.
const REFUSED: &str = "00000001 00000000 00000000 00000000 00000000 fffffff2";

/// XFR of the map `none` of `lab`, behind the word of its number, and its reply with NOMAP.
const XFR_OF_NONE: &str =
    "00000000 00000002 000186a4 00000002 00000006 00000000 00000000 00000000 00000000
    00000003 6c616200 00000004 6e6f6e65 00000000 00000002 6d310000
    00000009 40000000 00001b5a";

const NO_SUCH_MAP: &str = "00000001 00000000 00000000 00000000 00000000 00000009 ffffffff";

static TOLD: [Row; 5] = [
    MADE_TOLD,
    UNMADE_TOLD,
    REFUSED_TOLD,
    Row {
        name: "a map is to be fetched that isn't served",
        brings: &[Datagram {
            peer: STRANGER,
            bytes: &["00000003", XFR_OF_NONE],
        }],
        note: "refused XFR - -1 NOMAP for 10.0.0.9:1023\n\
            made 0, not made by file 0, transfers 0, reached 0, \
            failed by address 0, memory 0, file 0, source 0\n",
        sends: &[Datagram {
            peer: STRANGER,
            bytes: &["00000003", NO_SUCH_MAP],
        }],
        ..REFUSED_TOLD
    },
    Row {
        name: "nothing is told without the word",
        words: &["serve", "m1", "7001", "1", "0", "1", "lab/hosts.byname"],
        note: "",
        ..MADE_TOLD
    },
];

#[test]
fn what_is_done_is_told(rt: HostRuntime) {
    try_rows_after(&rt, rt.alloc(), &TOLD, &[]);
}

/// Each write of a note fails in turn. Nothing is told behind it but how the server ended.
static UNTOLD: [Row; 5] = [
    Row {
        name: "the first line isn't written",
        notes: 0,
        note: "",
        ..MADE_TOLD
    },
    Row {
        name: "the last line isn't written",
        notes: 1,
        note: "made lab/hosts.byname order 100 for 127.0.0.1:40000\n",
        ..MADE_TOLD
    },
    Row {
        name: "no third write of a note",
        notes: 2,
        ..MADE_TOLD
    },
    Row {
        name: "the first line isn't written, and the inbox fails",
        notes: 0,
        inbox: 1,
        outbox: 0,
        code: 22,
        output: "",
        note: "yp: inbox fault\n",
        sends: &[],
        ..MADE_TOLD
    },
    Row {
        name: "the file isn't loaded",
        disk: 0,
        code: 10,
        output: "",
        note: "yp: disk fault in lab/hosts.byname\n",
        sends: &[],
        turns: 0,
        stands: None,
        left: &[],
        ..MADE_TOLD
    },
];

#[test]
fn each_note_fails(rt: HostRuntime) {
    try_rows_after(&rt, rt.alloc(), &UNTOLD, &[]);
}
