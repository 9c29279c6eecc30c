//! Sessions over stored maps that are made anew.

use crate::given::{NEVER, assert_fits, assert_same};
use crate::sample::*;
use std::alloc::Global;
use std::process::Abort;
use yp_answer::session::{End, Session};
use yp_board::{Catalog, PlainBoard};
use yp_host::*;
use yp_io::{Peer, Trail};
use yp_memory::{MemDial, MemDisk, MemTexts, SetClock};
use yp_publisher::open_publisher;

type MemHost = LocalHost<MemDisk, PlainBoard, MemDial, MemTexts, SetClock, HostRuntime>;

// A host over the one map of a catalogue, with its file on a disk.
fn host_of(
    rt: &impl Abort,
    runtime: HostRuntime,
    alloc: Global,
    catalog: Catalog,
    disk: MemDisk,
    desk: MemDesk,
) -> MemHost {
    let disks = vec![in alloc; disk].expect(rt, "a disk");
    assert_fits(rt, disks.len(), &catalog);
    let publisher = open_publisher(alloc, &runtime, catalog, disks).expect(rt, "loaded disks");
    LocalHost::new(alloc, runtime, publisher, desk)
}

// How a session ended, and what it wrote.
type Replied = (End, Vec<u8>);

// Runs a session over a wire with this input.
fn run_session(
    rt: &impl Abort,
    alloc: Global,
    session: &mut Session,
    host: &mut MemHost,
    peer: Peer,
    input: Vec<u8>,
) -> Replied {
    let mut wire = wire_of(alloc, input);
    let mut trail = Trail::new();
    let end = session.run(&mut wire, host, peer, 9, &mut trail);
    (end, output_of(rt, alloc, &wire))
}

// The disk of a host.
fn disk_of(rt: &impl Abort, host: MemHost) -> MemDisk {
    let (publisher, _) = host.into_parts();
    let (mut disks, _) = publisher.into_parts();
    disks.pop().expect(rt, "a disk")
}

// A host, a call of MAKE and what is wanted of it: its reply, the reply to MATCH behind it, and what the file stands
// for then.
#[derive(Clone, Copy)]
struct Making<'a> {
    row: &'a str,
    own: &'a [u8],
    map: Map,
    file: &'a str,
    // The one text, and its name.
    text: &'a [u8],
    source: &'a [u8],
    // The read of the text that fails.
    failing: u64,
    moment: u32,
    peer: Peer,
    make: &'a str,
    made: &'a str,
    look_up: &'a str,
    answer: &'a str,
    stored: Stored,
}

// What came of a making: of MAKE, of MATCH, and of the file.
type Came = (Replied, Replied, Stored);

// The host of a making, before that.
fn host_before(
    rt: &impl Abort,
    runtime: HostRuntime,
    alloc: Global,
    making: &Making<'_>,
) -> MemHost {
    let disk = sound_disk(alloc, words(rt, alloc, making.file));
    let desk = desk_with(
        rt,
        alloc,
        making.source,
        making.text,
        making.moment,
        making.failing,
    );
    let catalog = catalog_of(rt, alloc, making.own, &[making.map]);
    host_of(rt, runtime, alloc, catalog, disk, desk)
}

// Makes a map, and looks up a key of it.
fn made_by(
    rt: &impl Abort,
    alloc: Global,
    host: &mut MemHost,
    making: &Making<'_>,
) -> (Replied, Replied) {
    let make = words(rt, alloc, making.make);
    let look_up = words(rt, alloc, making.look_up);
    let mut session = Session::new(alloc).expect(rt, "a session");
    let made = run_session(rt, alloc, &mut session, host, making.peer, make);
    let looked_up = run_session(rt, alloc, &mut session, host, making.peer, look_up);
    (made, looked_up)
}

// Makes a map, looks up a key of it, and looks at its file.
fn came_of(rt: &impl Abort, runtime: HostRuntime, alloc: Global, making: &Making<'_>) -> Came {
    let mut host = host_before(rt, runtime, alloc, making);
    let (made, looked_up) = made_by(rt, alloc, &mut host, making);
    let stored = stored_on(rt, &runtime, alloc, disk_of(rt, host));
    (made, looked_up, stored)
}

// Makes a map, and compares what comes.
fn try_making(rt: &impl Abort, runtime: HostRuntime, alloc: Global, making: &Making<'_>) {
    let made = words(rt, alloc, making.made);
    let looked_up = words(rt, alloc, making.answer);
    let wanted = ((End::Clean, made), (End::Clean, looked_up), making.stored);
    let came = came_of(rt, runtime, alloc, making);
    assert_same(rt, &came, &wanted, making.row);
}

// Calls of MAKE of hosts.byname, and of no kind.
const HOSTS: &str = "80000034 00000002 MAKE 00000005";

const NO_KIND: &str = "80000034 00000002 MAKE 00000063";

// The same by name: of hosts.byname, of the map `addr`, and of a map that isn't served.
const HOSTS_NAMED: &str = "80000040 00000002 NAMED HOSTS_NAME";

const ADDR_NAMED: &str = "80000038 00000002 NAMED ADDR_NAME";

const NONE_NAMED: &str = "80000038 00000002 NAMED 00000004 61646473";

// The replies to MAKE.
const SUCC: &str = "8000001c 00000002 MADE 00000001";

const AGE: &str = "8000001c 00000002 MADE 00000002";

const NOMAP: &str = "8000001c 00000002 MADE ffffffff";

const DBM: &str = "8000001c 00000002 MADE fffffff8";

const FILE: &str = "8000001c 00000002 MADE fffffff7";

const REFUSED: &str = "8000001c 00000002 MADE fffffff2";

// The replies to MATCH.
const VALUE: &str = "80000030 00000003 VALUE_OF";

const NO_MAP: &str = "80000020 00000003 NO_MAP_OF";

const YPERR: &str = "80000020 00000003 YPERR_OF";

// A map that is made, on an empty file.
const EMPTY: Making<'static> = Making {
    row: "made on an empty file",
    own: b"m1",
    map: LAB,
    file: "",
    text: TEXT,
    source: b"hosts",
    failing: NEVER,
    moment: 100,
    peer: OWN_HOST,
    make: HOSTS,
    made: SUCC,
    look_up: "8000004c 00000003 MATCH",
    answer: VALUE,
    stored: (Some((100, false)), 1),
};

// A map of no kind that is made by its name, of the rows of its text.
const EMPTY_ADDR: Making<'static> = Making {
    row: "a map of rows, made on an empty file",
    map: ADDR,
    text: b"alpha\t10.0.0.1 alpha\n",
    source: b"addr",
    make: ADDR_NAMED,
    look_up: "80000044 00000003 MATCH_ADDR",
    ..EMPTY
};

const UNMADE_ADDR: Making<'static> = Making {
    answer: NO_MAP,
    stored: (None, 0),
    ..EMPTY_ADDR
};

// One that isn't.
const UNMADE: Making<'static> = Making {
    answer: NO_MAP,
    stored: (None, 0),
    ..EMPTY
};

static MADE_MAPS: [Making<'static>; 10] = [
    EMPTY,
    Making {
        row: "the order rises where the clock does not",
        file: "HOSTS_FILE",
        stored: (Some((101, false)), 2),
        ..EMPTY
    },
    Making {
        row: "the order follows the clock",
        file: "HOSTS_FILE",
        moment: 200,
        stored: (Some((200, false)), 2),
        ..EMPTY
    },
    Making {
        row: "a secure map stays secure",
        file: "SECURE_FILE",
        answer: YPERR,
        stored: (Some((101, true)), 2),
        ..EMPTY
    },
    Making {
        row: "a map of a kind, by its name",
        make: HOSTS_NAMED,
        ..EMPTY
    },
    EMPTY_ADDR,
    Making {
        row: "rows that stand behind blanks, of which the first of a key counts",
        text: b"alpha  10.0.0.1 alpha\n\nbeta\nalpha 2",
        ..EMPTY_ADDR
    },
    Making {
        row: "the order of a map of rows rises where the clock does not",
        file: "HOSTS_FILE",
        stored: (Some((101, false)), 2),
        ..EMPTY_ADDR
    },
    Making {
        row: "the order of a map of rows follows the clock",
        file: "HOSTS_FILE",
        moment: 200,
        stored: (Some((200, false)), 2),
        ..EMPTY_ADDR
    },
    Making {
        row: "a secure map of rows stays secure",
        file: "SECURE_FILE",
        answer: YPERR,
        stored: (Some((101, true)), 2),
        ..EMPTY_ADDR
    },
];

#[test]
fn made_maps(rt: HostRuntime) {
    for making in &MADE_MAPS {
        try_making(&rt, rt, rt.alloc(), making);
    }
}

static UNMADE_MAPS: [Making<'static>; 16] = [
    Making {
        row: "netgroups by users where no netgroups are served, whatever texts there are",
        map: (b"lab", b"netgroup.byuser"),
        text: b"a\t(-,joe,)\n",
        source: b"netgroup.byuser",
        make: "80000044 00000002 NAMED 0000000f 6e657467 726f7570 2e627975 73657200",
        made: NOMAP,
        ..UNMADE
    },
    Making {
        row: "a call from another host",
        peer: Peer {
            addr: [10, 0, 0, 9],
            port: 40000,
        },
        made: REFUSED,
        ..UNMADE
    },
    Making {
        row: "an unknown kind",
        make: NO_KIND,
        made: NOMAP,
        ..UNMADE
    },
    Making {
        row: "a text that is not read",
        failing: 0,
        made: FILE,
        ..UNMADE
    },
    Making {
        row: "another master",
        own: b"m2",
        file: "HOSTS_FILE",
        made: REFUSED,
        ..EMPTY
    },
    Making {
        row: "the orders are spent",
        file: "LAST_ORDER",
        made: AGE,
        stored: (Some((u32::MAX, false)), 1),
        ..EMPTY
    },
    Making {
        row: "the orders are spent, and the text is not read",
        file: "LAST_ORDER",
        failing: 0,
        made: FILE,
        stored: (Some((u32::MAX, false)), 1),
        ..EMPTY
    },
    Making {
        row: "the generations are spent",
        file: "LAST_GENERATION",
        made: FILE,
        stored: (Some((100, false)), u64::MAX),
        ..EMPTY
    },
    Making {
        row: "a call by name from another host",
        peer: Peer {
            addr: [10, 0, 0, 9],
            port: 40000,
        },
        made: REFUSED,
        ..UNMADE_ADDR
    },
    Making {
        row: "a name that no map has",
        make: NONE_NAMED,
        made: NOMAP,
        ..UNMADE_ADDR
    },
    Making {
        row: "rows that are not read",
        failing: 0,
        made: FILE,
        ..UNMADE_ADDR
    },
    Making {
        row: "no text with the name of the map",
        source: b"hosts",
        made: FILE,
        ..UNMADE_ADDR
    },
    Making {
        row: "no text of a kind, where one has the name of the map",
        source: b"hosts.byname",
        make: HOSTS_NAMED,
        made: FILE,
        ..UNMADE
    },
    Making {
        row: "another master of a map of rows",
        own: b"m2",
        file: "HOSTS_FILE",
        made: REFUSED,
        ..EMPTY_ADDR
    },
    Making {
        row: "the orders of a map of rows are spent",
        file: "LAST_ORDER",
        made: AGE,
        stored: (Some((u32::MAX, false)), 1),
        ..EMPTY_ADDR
    },
    Making {
        row: "the generations of a map of rows are spent",
        file: "LAST_GENERATION",
        made: FILE,
        stored: (Some((100, false)), u64::MAX),
        ..EMPTY_ADDR
    },
];

#[test]
fn unmade_maps(rt: HostRuntime) {
    for making in &UNMADE_MAPS {
        try_making(&rt, rt, rt.alloc(), making);
    }
}

// A text with a key of one byte more than it may have.
fn long_text(rt: &impl Abort, alloc: Global) -> Vec<u8> {
    let mut text = Vec::from_slice(alloc, b"10.0.0.1 ").expect(rt, "a text");
    text.resize(9 + 65_537, b'a').expect(rt, "a text");
    text
}

#[test]
fn row_past_a_limit(rt: HostRuntime) {
    let text = long_text(&rt, rt.alloc());
    let making = Making {
        row: "a row past a limit",
        text: &text,
        made: DBM,
        ..UNMADE
    };
    try_making(&rt, rt, rt.alloc(), &making);
    let of_rows = Making {
        row: "a value past a limit",
        text: &text,
        made: DBM,
        ..UNMADE_ADDR
    };
    try_making(&rt, rt, rt.alloc(), &of_rows);
}
