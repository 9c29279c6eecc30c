//! Many connections that one worker serves at once.

use crate::given::assert_same;
use crate::host::{version, version_of, waiting};
use crate::run::{BOTH, Row, TWO, Versions, closed_of, try_row, visited, words};
use std::alloc::Global;
use std::process::Abort;
use std::random::RandomSource;
use std::sync::Wait;
use yp_for_server_tests::{Caller, Visit};
use yp_io::Notice;
use yp_worker::{OpenGate, Tally};

fn try_rows<R: Wait + RandomSource + Abort>(rt: &R, alloc: Global, rows: &[Row<'_>]) {
    for row in rows {
        try_row(rt, alloc, row);
    }
}

// Two callers of three records each, who are accepted both before either is ready.
const INPUTS: (&str, &str) = ("NULL XFR MATCH", "MATCH NULL XFR");

const FIRST_FIRST: &[Notice] = &[
    Notice::Door,
    Notice::Door,
    Notice::Ready { place: 0 },
    Notice::Ready { place: 1 },
];

const SECOND_FIRST: &[Notice] = &[
    Notice::Door,
    Notice::Door,
    Notice::Ready { place: 1 },
    Notice::Ready { place: 0 },
];

// Serves both, where the first three reads of the first caller, and the first three writes to him, say "not now" by the
// bits of this set. Whoever is over first is closed first.
fn try_schedule<R: Wait + RandomSource + Abort>(
    rt: &R,
    alloc: Global,
    set: u64,
    script: &[Notice],
) {
    let callers: [Caller; 2] = [(INPUTS.0, set % 8, set / 8), (INPUTS.1, 0b1010, 0b0101)];
    let visit = Visit {
        callers: &callers,
        script,
        ..TWO
    };
    let versions = Versions {
        first: version(rt, alloc, 7, b"alpha:1"),
        waiting: Vec::new(alloc),
    };
    let mut came = visited(rt, alloc, &visit, versions, OpenGate);
    came.5.sort().expect(rt, "memory to sort");
    let outputs = [(1, "NULL_REPLY TAKEN ONE"), (2, "ONE NULL_REPLY TAKEN")];
    let tally = Tally {
        connections: 2,
        calls: 6,
        listen_fault: false,
    };
    let wanted = (tally, tally, 2, 2, 0, closed_of(rt, alloc, &outputs));
    assert_same(rt, &came, &wanted, "a schedule");
}

#[test]
fn two_callers_by_every_schedule(rt: HostRuntime) {
    for set in 0..64u64 {
        try_schedule(&rt, rt.alloc(), set, FIRST_FIRST);
        try_schedule(&rt, rt.alloc(), set, SECOND_FIRST);
    }
}

// Serves a caller for each set of 8 bits, by which the first four reads of him and the first four writes to him say
// "not now". So many doors are told before anybody is ready.
fn try_crowd<R: Wait + RandomSource + Abort>(rt: &R, alloc: Global, doors: usize) {
    let mut callers = Vec::new(alloc);
    let mut outputs = Vec::new(alloc);
    for set in 0..256u16 {
        let caller = (INPUTS.0, u64::from(set % 16), u64::from(set / 16));
        callers.push(caller).expect(rt, "a caller");
        outputs
            .push((set + 1, "NULL_REPLY TAKEN ONE"))
            .expect(rt, "an output");
    }
    let script = vec![in alloc; Notice::Door; doors].expect(rt, "a script");
    let visit = Visit {
        callers: &callers,
        most: 256,
        script: &script,
        ..TWO
    };
    let versions = Versions {
        first: version(rt, alloc, 7, b"alpha:1"),
        waiting: Vec::new(alloc),
    };
    let mut came = visited(rt, alloc, &visit, versions, OpenGate);
    came.5.sort().expect(rt, "memory to sort");
    let tally = Tally {
        connections: 256,
        calls: 768,
        listen_fault: false,
    };
    let wanted = (tally, tally, 256, 256, 0, closed_of(rt, alloc, &outputs));
    assert_same(rt, &came, &wanted, "a crowd");
}

#[test]
fn a_crowd_by_every_schedule(rt: HostRuntime) {
    for doors in [0, 1, 256] {
        try_crowd(&rt, rt.alloc(), doors);
    }
}

// All of the first 64 reads or writes say "not now"; all reads behind the two by which NULL comes; and all writes but
// the first.
const ALL: u64 = u64::MAX;

const BEHIND_TWO: u64 = u64::MAX - 3;

const BEHIND_ONE: u64 = u64::MAX - 1;

// The first caller can't go on, and is told late behind the second one, who is served meanwhile.
const LATE: &[Notice] = &[
    Notice::Door,
    Notice::Ready { place: 0 },
    Notice::Door,
    Notice::Ready { place: 0 },
    Notice::Ready { place: 1 },
    Notice::Ready { place: 0 },
    Notice::Late { place: 0 },
];

const IDLE: Row<'static> = Row {
    name: "a caller who sends nothing",
    visit: Visit {
        callers: &[("NULL", ALL, 0), ("NULL MATCH", 0, 0)],
        script: LATE,
        ..TWO
    },
    tally: Tally {
        connections: 2,
        calls: 2,
        listen_fault: false,
    },
    let_go: 1,
    closed: &[(2, "NULL_REPLY ONE"), (1, "")],
    ..BOTH
};

const THREE_CALLS: Tally = Tally {
    connections: 2,
    calls: 3,
    listen_fault: false,
};

static LATE_ROWS: [Row<'static>; 3] = [
    IDLE,
    Row {
        name: "a caller who sends no more",
        visit: Visit {
            callers: &[("NULL MATCH", BEHIND_TWO, 0), ("NULL MATCH", 0, 0)],
            script: LATE,
            ..TWO
        },
        tally: THREE_CALLS,
        closed: &[(2, "NULL_REPLY ONE"), (1, "NULL_REPLY")],
        ..IDLE
    },
    Row {
        name: "a caller who takes no more",
        visit: Visit {
            callers: &[("MATCH", 0, BEHIND_ONE), ("NULL MATCH", 0, 0)],
            script: LATE,
            ..TWO
        },
        tally: THREE_CALLS,
        closed: &[
            (2, "NULL_REPLY ONE"),
            (
                1,
                "80000028 00000001 00000001 00000000 00000000 00000000 00000000 0000",
            ),
        ],
        ..IDLE
    },
];

#[test]
fn callers_that_are_late(rt: HostRuntime) {
    try_rows(&rt, rt.alloc(), &LATE_ROWS);
}

// The turn of a caller is over behind twenty steps, though he never waits, and he has more than the twelve records that
// are answered.
const MANY_RECORDS: Row<'static> = Row {
    name: "a caller of many records",
    visit: Visit {
        callers: &[
            (
                "NULL NULL NULL NULL NULL NULL NULL NULL NULL NULL NULL NULL NULL",
                0,
                0,
            ),
            ("MATCH", 0, 0),
        ],
        script: FIRST_FIRST,
        ..TWO
    },
    tally: Tally {
        connections: 2,
        calls: 13,
        listen_fault: false,
    },
    closed: &[
        (2, "ONE"),
        (
            1,
            "NULL_REPLY NULL_REPLY NULL_REPLY NULL_REPLY NULL_REPLY NULL_REPLY NULL_REPLY \
            NULL_REPLY NULL_REPLY NULL_REPLY NULL_REPLY NULL_REPLY",
        ),
    ],
    ..BOTH
};

// The third caller has the place of the first, and is served beside the second, whose second read waits.
const PLACE_AGAIN: Row<'static> = Row {
    name: "a place that is taken again",
    visit: Visit {
        callers: &[("NULL", 0, 0), ("NULL MATCH", 0b10, 0), ("MATCH", 0, 0)],
        most: 3,
        script: &[
            Notice::Door,
            Notice::Door,
            Notice::Ready { place: 1 },
            Notice::Ready { place: 0 },
            Notice::Door,
            Notice::Ready { place: 0 },
            Notice::Ready { place: 1 },
        ],
        ..TWO
    },
    tally: Tally {
        connections: 3,
        calls: 4,
        listen_fault: false,
    },
    closed: &[(1, "NULL_REPLY"), (3, "ONE"), (2, "NULL_REPLY ONE")],
    ..BOTH
};

// The watch tells of places that nobody has, before anybody came and behind that, and twice of the first. It tells the
// door where nobody comes any more.
const WRONG: Row<'static> = Row {
    name: "notices that are wrong",
    visit: Visit {
        callers: &[("NULL MATCH", 0b10, 0), ("MATCH", 0, 0)],
        script: &[
            Notice::Ready { place: 0 },
            Notice::Late { place: 0 },
            Notice::Quiet,
            Notice::Ready { place: 1 },
            Notice::Late { place: u32::MAX },
            Notice::Ready { place: 0 },
            Notice::Door,
            Notice::Ready { place: u32::MAX },
            Notice::Ready { place: 1 },
            Notice::Ready { place: 1 },
            Notice::Door,
            Notice::Door,
            Notice::Quiet,
            Notice::Late { place: 1 },
            Notice::Quiet,
            Notice::Ready { place: 0 },
        ],
        ..TWO
    },
    tally: THREE_CALLS,
    // Each that is told late is counted, also where nobody is let go.
    let_go: 3,
    closed: &[(2, "ONE"), (1, "NULL_REPLY ONE")],
    ..BOTH
};

// Both callers are in the midst of their first record as the third accept fails.
const FAILS: Row<'static> = Row {
    name: "an accept that fails beside two callers",
    visit: Visit {
        callers: &[
            ("NULL MATCH", 0b10, 0),
            ("MATCH NULL", 0b10, 0b1),
            ("NULL", 0, 0),
        ],
        most: 3,
        failing: 3,
        script: &[
            Notice::Door,
            Notice::Ready { place: 0 },
            Notice::Door,
            Notice::Ready { place: 1 },
            Notice::Door,
            Notice::Door,
        ],
        ..TWO
    },
    tally: Tally {
        connections: 2,
        calls: 4,
        listen_fault: true,
    },
    closed: &[(1, "NULL_REPLY ONE"), (2, "ONE NULL_REPLY")],
    ..BOTH
};

const UNWATCHED: Row<'static> = Row {
    name: "no watch",
    visit: Visit { failing: 0, ..TWO },
    tally: Tally {
        connections: 0,
        calls: 0,
        listen_fault: true,
    },
    closed: &[],
    ..BOTH
};

// The third caller isn't accepted any more. The first reads of the first one wait until the second is gone.
const MOST: Row<'static> = Row {
    name: "the most connections",
    visit: Visit {
        callers: &[
            ("NULL MATCH", 0b1111_0001, 0),
            ("MATCH", 0, 0),
            ("NULL", 0, 0),
        ],
        script: &[Notice::Door, Notice::Door, Notice::Door],
        ..TWO
    },
    tally: THREE_CALLS,
    closed: &[(2, "ONE"), (1, "NULL_REPLY ONE")],
    ..BOTH
};

#[test]
fn callers_beside_one_another(rt: HostRuntime) {
    let rows = [MANY_RECORDS, PLACE_AGAIN, WRONG, MOST];
    try_rows(&rt, rt.alloc(), &rows);
}

#[test]
fn halls_that_fail(rt: HostRuntime) {
    try_rows(&rt, rt.alloc(), &[FAILS, UNWATCHED]);
}

#[test]
fn halls_where_nobody_is_there_at_first(rt: HostRuntime) {
    for pausing in 0..32u64 {
        let row = Row {
            name: "a hall that says not now",
            visit: Visit { pausing, ..TWO },
            ..BOTH
        };
        try_row(&rt, rt.alloc(), &row);
    }
}

// Adds the bytes of a text of words.
fn extend(rt: &impl Abort, alloc: Global, bytes: &mut Vec<u8>, text: &str) {
    bytes
        .extend_from_slice(&words(rt, alloc, text))
        .expect(rt, "bytes");
}

// The record that replies to ALL of three rows with this value of 65,536 bytes, and of `alpha` with `alpha:1`.
fn long_record(rt: &impl Abort, alloc: Global, value: &[u8]) -> Vec<u8> {
    let mut record = words(
        rt,
        alloc,
        "00000004 00000001 00000000 00000000 00000000 00000000",
    );
    for key in [
        "00000001 31000000",
        "00000001 32000000",
        "00000001 33000000",
    ] {
        extend(rt, alloc, &mut record, "00000001 00000001 00010000");
        record.extend_from_slice(value).expect(rt, "bytes");
        extend(rt, alloc, &mut record, key);
    }
    let alpha = "00000001 00000001 00000007 616c7068 613a3100 00000005 616c7068 61000000";
    extend(rt, alloc, &mut record, alpha);
    extend(rt, alloc, &mut record, "00000000");
    record
}

// Its 196,728 bytes in fragments of 8,192, of which the last one has 120.
fn in_fragments(rt: &impl Abort, alloc: Global, record: &[u8]) -> Vec<u8> {
    let mut sent = Vec::new(alloc);
    for fragment in record.chunks(8_192) {
        let is_last = fragment.len() < 8_192;
        let head = if is_last { "80000078" } else { "00002000" };
        extend(rt, alloc, &mut sent, head);
        sent.extend_from_slice(fragment).expect(rt, "bytes");
    }
    sent
}

// The first caller takes no more than 30 bytes of ALL at first. Then a version without the long rows is shown, which
// the second caller sees, and the first one behind his stream.
const UNTAKEN: Visit<'static> = Visit {
    callers: &[("ALL MATCH", 0, BEHIND_ONE), ("MATCH", 0, 0)],
    script: &[
        Notice::Door,
        Notice::Ready { place: 0 },
        Notice::Door,
        Notice::Quiet,
        Notice::Ready { place: 1 },
    ],
    ..TWO
};

#[test]
fn a_stream_that_is_not_taken(rt: HostRuntime) {
    let alloc = rt.alloc();
    let value = vec![in alloc; b'x'; 65_536].expect(&rt, "a value");
    let rows: [(&[u8], &[u8]); 4] = [
        (b"1", &value),
        (b"2", &value),
        (b"3", &value),
        (b"alpha", b"alpha:1"),
    ];
    let versions = Versions {
        first: version_of(&rt, alloc, 7, &rows),
        waiting: waiting(&rt, alloc, &[b"alpha:2"]),
    };
    let came = visited(&rt, alloc, &UNTAKEN, versions, OpenGate);
    let record = long_record(&rt, alloc, &value);
    let mut output = in_fragments(&rt, alloc, &record);
    extend(&rt, alloc, &mut output, "TWO");
    let second = words(&rt, alloc, "TWO");
    let closed = vec![in alloc; (2, second), (1, output)].expect(&rt, "connections");
    let wanted = (THREE_CALLS, THREE_CALLS, 0, 2, 0, closed);
    assert_same(&rt, &came, &wanted, "a stream");
}
