//! Connections and datagrams that workers in threads serve.

ghost use Rattle.std.specs.Prelude.{◌≡◌, ◌≤◌, length};

use crate::behind::Behind;
use crate::gate::{Hold, Holding, Kind};
use crate::given::{NEVER, assert_same, hall, publisher, taken};
use crate::sample::*;
use std::alloc::Global;
use std::marker::Brand;
use std::process::Abort;
use std::random::RandomSource;
use std::sync::Wait;
use std::thread::Threads;
use yp_board::readers::{Naming, Opened};
use yp_for_server_tests::{Caller, Visit};
use yp_host::workers::{Outcomes, Totals};
use yp_memory::{MemHall, MemInbox};
use yp_server::{ServeSpec, Served, ServerResources, serve};
use yp_worker::Tally;

// What is served: the file of the map, who calls, how many are to be accepted, how many workers there are, 1 to 8, how
// these are held, the call of the hall that fails, and the read of the text. Then the datagrams that come in turn, the
// most turns, and the call of the inbox that fails; and further inboxes behind it. What is wanted: the tally, what all
// workers count, the replies, and what comes of the inbox: how many turns there are, the replies, and whether it fails,
// or a further one does. Then the replies of the carrier.
struct Case {
    name: &'static str,
    file: &'static str,
    callers: &'static [Caller],
    most: u32,
    workers: u32,
    holds: &'static [Hold],
    failing: u64,
    unread: u64,
    mail: &'static [&'static str],
    turns: u64,
    unmailed: u64,
    more: &'static [Further],
    tally: Tally,
    totals: Totals,
    output: &'static str,
    mailed: (u64, &'static str, bool),
    carried: &'static str,
}

// A further inbox: the datagrams that come to it in turn, the call of it that fails, how many turns there are, and the
// replies.
struct Further {
    mail: &'static [&'static str],
    unmailed: u64,
    mailed: (u64, &'static str),
}

// What came of it: the tally, what all workers counted, what the connections had taken that went back, one after the
// other, what came of each inbox, that of the carrier last, and whether one is said to have failed.
type Came = (Tally, Totals, Vec<u8>, Vec<Mailed>, bool);

// What came of an inbox: how many turns there were, and what it sent to the sender, one after the other.
type Mailed = (u64, Vec<u8>);

// What came of an inbox.
fn mailed(rt: &impl Abort, alloc: Global, inbox: &MemInbox) -> Mailed {
    let mut sent = Vec::new(alloc);
    for letter in inbox.letters() {
        if letter.peer == SENDER {
            sent.extend_from_slice(&letter.bytes)
                .expect(rt, "memory for bytes");
        }
    }
    (inbox.turns(), sent)
}

// What is to come of the inboxes of a case, and behind them of that of the carrier.
fn wanted_mail(rt: &impl Abort, alloc: Global, case: &Case) -> Vec<Mailed> {
    let (turns, replies, _) = case.mailed;
    let first = (turns, words(rt, alloc, replies));
    let mut all = vec![in alloc; first].expect(rt, "memory for an inbox");
    for further in case.more {
        let (turns, replies) = further.mailed;
        let mailed = (turns, words(rt, alloc, replies));
        all.push(mailed).expect(rt, "memory for an inbox");
    }
    let late = (0, words(rt, alloc, case.carried));
    all.push(late).expect(rt, "memory for an inbox");
    all
}

// The inboxes of a case at a gate, from one to eight.
fn inboxes_of<'g, 'h>(
    rt: &impl Abort,
    alloc: Global,
    case: &Case,
    gate: &'g Holding<'h>,
) -> Vec<Behind<'g, 'h, MemInbox>>
    ensures some { 1 ≤ length result.items }
    ensures few { length result.items ≤ 8 }
{
    let first = inbox(rt, alloc, case.mail, case.unmailed);
    let first = Behind::new(first, gate);
    let mut all = vec![in alloc; first].expect(rt, "memory for an inbox");
    for further in case.more {
        let inbox = inbox(rt, alloc, further.mail, further.unmailed);
        all.push(Behind::new(inbox, gate))
            .expect(rt, "memory for an inbox");
    }
    assert!(rt; !all.is_empty() && all.len() <= 8);
    all
}

// What is seen of what comes back.
fn seen<D, B, A, T, C>(
    rt: &impl Abort,
    alloc: Global,
    served: &Served<D, B, A, T, C, MemHall, Behind<'_, '_, MemInbox>>,
) -> Came {
    let output = taken(rt, alloc, &served.listen);
    let mut all_mailed = Vec::new(alloc);
    for inbox in &served.inboxes {
        let mailed = mailed(rt, alloc, inbox.inside());
        all_mailed.push(mailed).expect(rt, "memory for an inbox");
    }
    let late = mailed(rt, alloc, served.outbox.inside());
    all_mailed.push(late).expect(rt, "memory for an inbox");
    (
        served.tally,
        served.totals,
        output,
        all_mailed,
        served.inbox_fault,
    )
}

// Serves a case at a gate, from the opening of a board on.
fn served<J: Naming + Send + Sync, R: Threads + Wait + RandomSource + Abort + Sync>(
    rt: &R,
    alloc: Global,
    opened: Opened,
    case: &Case,
    gate: &Holding<'_>,
) -> Came
    requires opened { opened ≡ J.book }
{
    let spec = ServeSpec {
        workers: case.workers.max(1).min(8),
        most: 9,
        turns: case.turns,
    };
    let file = words(rt, alloc, case.file);
    let visit = Visit {
        callers: case.callers,
        most: case.most,
        failing: case.failing,
        pausing: 0,
        script: &[],
    };
    let listen = hall(rt, alloc, NAMES, &visit);
    let inboxes = inboxes_of(rt, alloc, case, gate);
    let desk = desk_of(rt, alloc, case.unread, gate);
    let count = spec.workers + 3 + inboxes.len() as u32;
    let (publisher, readers) = publisher::<J, R>(rt, alloc, opened, b"m1", file, count);
    let resources = ServerResources {
        publisher,
        readers,
        desk,
        listen,
        inboxes,
        outbox: Behind::new(inbox(rt, alloc, &[], NEVER), gate),
    };
    let served = serve(alloc, rt, resources, &spec, None, gate);
    seen(rt, alloc, &served.ok().expect(rt, "memory for workers"))
}

// Serves a case, and compares what came. No worker is held for too long.
fn try_case<R: Threads + Wait + RandomSource + Abort + Sync>(rt: &R, alloc: Global, case: &Case) {
    let (_, _, fault) = case.mailed;
    let mailed = wanted_mail(rt, alloc, case);
    let output = words(rt, alloc, case.output);
    let wanted = (case.tally, case.totals, output, mailed, fault);
    let gate = Holding::new(rt, alloc, case.holds);
    let came = served::<Brand, R>(rt, alloc, Opened::new(), case, &gate);
    assert_same(rt, &came, &wanted, case.name);
    assert_same(rt, &gate.gave_up(), &0, case.name);
}

// Nothing is counted.
const NO_OUTCOMES: Outcomes = Outcomes {
    no_address: 0,
    no_memory: 0,
    file: 0,
    source: 0,
    reached: 0,
};

const NONE: Totals = Totals {
    files: 0,
    made: 0,
    transfers: 0,
    outcomes: NO_OUTCOMES,
};

const ONE_MADE: Totals = Totals { made: 1, ..NONE };

const TWO_WORKERS: Case = Case {
    name: "two workers",
    file: "FILE",
    callers: &[("MATCH MATCH", 0, 0), ("MATCH", 0, 0)],
    most: 2,
    workers: 2,
    holds: &[],
    failing: NEVER,
    unread: NEVER,
    mail: &[],
    turns: 0,
    unmailed: NEVER,
    more: &[],
    tally: Tally {
        connections: 2,
        calls: 3,
        listen_fault: false,
    },
    totals: NONE,
    output: "OLD OLD OLD",
    mailed: (0, "", false),
    carried: "",
};

// The text isn't read at the first MAKE, behind which the second connection comes.
static TRANSFER_AND_MAKES: Case = Case {
    name: "a transfer and two makes",
    file: "",
    callers: &[("XFR MAKE", 0, 0), ("MAKE", 0, 0)],
    workers: 1,
    holds: &[
        ((Kind::Accepted, 1, 1), (Kind::Begun, 0, 2)),
        ((Kind::Accepted, 2, 1), (Kind::Replied, 1, 2)),
    ],
    unread: 0,
    totals: Totals {
        files: 1,
        made: 1,
        transfers: 1,
        outcomes: Outcomes {
            no_address: 1,
            ..NO_OUTCOMES
        },
    },
    output: "TAKEN NOT_READ MADE",
    ..TWO_WORKERS
};

#[test]
fn totals_of_a_worker(rt: HostRuntime) {
    try_case(&rt, rt.alloc(), &TRANSFER_AND_MAKES);
}

static SERVED: Case = TWO_WORKERS;

#[test]
fn two_workers(rt: HostRuntime) {
    try_case(&rt, rt.alloc(), &SERVED);
}

// The first worker is held until the map is made, which the second connection asks for. Who has made it is held in its
// turn until the third connection was served, which comes once the map is made.
static LATER: Case = Case {
    name: "a later connection",
    file: "",
    callers: &[("", 0, 0), ("MAKE", 0, 0), ("MATCH", 0, 0)],
    most: 3,
    holds: &[
        ((Kind::Accepted, 1, 1), (Kind::Replied, 2, 1)),
        ((Kind::Accepted, 3, 1), (Kind::Replied, 2, 1)),
        ((Kind::Replied, 2, 1), (Kind::Replied, 3, 1)),
    ],
    tally: Tally {
        connections: 3,
        calls: 2,
        listen_fault: false,
    },
    totals: ONE_MADE,
    output: "MADE NEW",
    ..TWO_WORKERS
};

#[test]
fn later_connection_sees_build(rt: HostRuntime) {
    try_case(&rt, rt.alloc(), &LATER);
}

static IDLE: Case = Case {
    name: "an idle connection",
    callers: &[("MATCH MATCH", 0, 0), ("MAKE", 0, 0)],
    holds: &[
        ((Kind::Accepted, 2, 1), (Kind::Replied, 1, 1)),
        ((Kind::Replied, 1, 1), (Kind::Replied, 2, 1)),
    ],
    totals: ONE_MADE,
    output: "OLD NEW MADE",
    ..TWO_WORKERS
};

#[test]
fn idle_connection_sees_newer(rt: HostRuntime) {
    try_case(&rt, rt.alloc(), &IDLE);
}

// The hall is asked for a watch first.
static FIRST_ACCEPT: Case = Case {
    name: "the first accept fails",
    file: "",
    callers: &[("MATCH", 0, 0), ("MATCH", 0, 0)],
    workers: 1,
    failing: 1,
    tally: Tally {
        connections: 0,
        calls: 0,
        listen_fault: true,
    },
    output: "",
    ..TWO_WORKERS
};

#[test]
fn listen_fault(rt: HostRuntime) {
    try_case(&rt, rt.alloc(), &FIRST_ACCEPT);
}

// One more is to be accepted than calls.
static SECOND_ACCEPT: Case = Case {
    name: "the second accept fails",
    file: "",
    callers: &[("MATCH", 0, 0)],
    tally: Tally {
        connections: 1,
        calls: 1,
        listen_fault: true,
    },
    output: "NO_MAP",
    ..TWO_WORKERS
};

#[test]
fn later_listen_fault(rt: HostRuntime) {
    try_case(&rt, rt.alloc(), &SECOND_ACCEPT);
}

// Each worker has one of the two connections, and the first is held before the second write of ALL.
static HELD: Case = Case {
    name: "a held stream",
    callers: &[("ALL MATCH", 0, 0), ("MATCH MAKE", 0, 0)],
    holds: &[
        ((Kind::Accepted, 1, 1), (Kind::Accepted, 2, 1)),
        ((Kind::Accepted, 2, 1), (Kind::Piece, 1, 1)),
        ((Kind::Piece, 1, 2), (Kind::Replied, 2, 2)),
    ],
    tally: Tally {
        connections: 2,
        calls: 4,
        listen_fault: false,
    },
    totals: ONE_MADE,
    output: "OLD_ALL NEW OLD MADE",
    ..TWO_WORKERS
};

#[test]
fn held_stream(rt: HostRuntime) {
    try_case(&rt, rt.alloc(), &HELD);
}

// Each worker has one connection. Seven are held before the second write of ALL, until the eighth has been served,
// which begins once each of them has come to its first write.
static SEVEN_HELD: Case = Case {
    name: "seven held streams",
    callers: &[
        ("ALL", 0, 0),
        ("ALL", 0, 0),
        ("ALL", 0, 0),
        ("ALL", 0, 0),
        ("ALL", 0, 0),
        ("ALL", 0, 0),
        ("ALL", 0, 0),
        ("MATCH MAKE", 0, 0),
    ],
    most: 8,
    workers: 8,
    holds: &[
        ((Kind::Accepted, 1, 1), (Kind::Accepted, 8, 1)),
        ((Kind::Accepted, 2, 1), (Kind::Accepted, 8, 1)),
        ((Kind::Accepted, 3, 1), (Kind::Accepted, 8, 1)),
        ((Kind::Accepted, 4, 1), (Kind::Accepted, 8, 1)),
        ((Kind::Accepted, 5, 1), (Kind::Accepted, 8, 1)),
        ((Kind::Accepted, 6, 1), (Kind::Accepted, 8, 1)),
        ((Kind::Accepted, 7, 1), (Kind::Accepted, 8, 1)),
        ((Kind::Accepted, 8, 1), (Kind::Piece, 1, 1)),
        ((Kind::Accepted, 8, 1), (Kind::Piece, 2, 1)),
        ((Kind::Accepted, 8, 1), (Kind::Piece, 3, 1)),
        ((Kind::Accepted, 8, 1), (Kind::Piece, 4, 1)),
        ((Kind::Accepted, 8, 1), (Kind::Piece, 5, 1)),
        ((Kind::Accepted, 8, 1), (Kind::Piece, 6, 1)),
        ((Kind::Accepted, 8, 1), (Kind::Piece, 7, 1)),
        ((Kind::Piece, 1, 2), (Kind::Replied, 8, 2)),
        ((Kind::Piece, 2, 2), (Kind::Replied, 8, 2)),
        ((Kind::Piece, 3, 2), (Kind::Replied, 8, 2)),
        ((Kind::Piece, 4, 2), (Kind::Replied, 8, 2)),
        ((Kind::Piece, 5, 2), (Kind::Replied, 8, 2)),
        ((Kind::Piece, 6, 2), (Kind::Replied, 8, 2)),
        ((Kind::Piece, 7, 2), (Kind::Replied, 8, 2)),
    ],
    tally: Tally {
        connections: 8,
        calls: 9,
        listen_fault: false,
    },
    totals: ONE_MADE,
    output: "OLD_ALL OLD_ALL OLD_ALL OLD_ALL OLD_ALL OLD_ALL OLD_ALL OLD MADE",
    ..TWO_WORKERS
};

#[test]
fn held_streams_of_seven(rt: HostRuntime) {
    try_case(&rt, rt.alloc(), &SEVEN_HELD);
}

// Both connections come to the one worker. The first is left to the one who makes, which is held behind its reply until
// the second, which comes once the map is made, was served.
static MADE_MEANWHILE: Case = Case {
    name: "a call while a map is made",
    callers: &[("MAKE MATCH", 0, 0), ("MATCH", 0, 0)],
    workers: 1,
    holds: &[
        ((Kind::Accepted, 1, 1), (Kind::Begun, 0, 2)),
        ((Kind::Accepted, 2, 1), (Kind::Replied, 1, 1)),
        ((Kind::Replied, 1, 1), (Kind::Replied, 2, 1)),
    ],
    totals: ONE_MADE,
    output: "MADE NEW NEW",
    ..TWO_WORKERS
};

#[test]
fn served_while_a_map_is_made(rt: HostRuntime) {
    try_case(&rt, rt.alloc(), &MADE_MEANWHILE);
}

// The same of a transfer, behind which the one who carries it out answers the next call of its connection.
static CARRIED_MEANWHILE: Case = Case {
    name: "a call while a transfer is carried out",
    file: "",
    callers: &[("XFR MATCH", 0, 0), ("MATCH", 0, 0)],
    workers: 1,
    holds: &[
        ((Kind::Accepted, 1, 1), (Kind::Begun, 0, 2)),
        ((Kind::Replied, 1, 2), (Kind::Replied, 2, 1)),
    ],
    totals: Totals {
        transfers: 1,
        outcomes: Outcomes {
            no_address: 1,
            ..NO_OUTCOMES
        },
        ..NONE
    },
    output: "TAKEN NO_MAP NO_MAP",
    ..TWO_WORKERS
};

#[test]
fn served_while_a_transfer_is_carried_out(rt: HostRuntime) {
    try_case(&rt, rt.alloc(), &CARRIED_MEANWHILE);
}

// A map is made while the one who carries transfers is held behind the reply to its next call.
static MADE_BESIDE_A_TRANSFER: Case = Case {
    name: "a map is made beside a transfer",
    file: "",
    callers: &[("XFR NULL_STREAM", 0, 0), ("MAKE MATCH", 0, 0)],
    workers: 1,
    holds: &[
        ((Kind::Accepted, 1, 1), (Kind::Begun, 0, 2)),
        ((Kind::Replied, 1, 2), (Kind::Replied, 2, 1)),
    ],
    tally: Tally {
        connections: 2,
        calls: 4,
        listen_fault: false,
    },
    totals: Totals {
        transfers: 1,
        outcomes: Outcomes {
            no_address: 1,
            ..NO_OUTCOMES
        },
        ..ONE_MADE
    },
    output: "TAKEN NULL_STREAM_DONE MADE NEW",
    ..TWO_WORKERS
};

#[test]
fn made_beside_a_transfer(rt: HostRuntime) {
    try_case(&rt, rt.alloc(), &MADE_BESIDE_A_TRANSFER);
}

// The connection is held before its first write until the inbox was asked to send a reply, and the datagram comes once
// the connection is held.
static BESIDE: Case = Case {
    name: "a datagram",
    callers: &[("MATCH", 0, 0)],
    most: 1,
    workers: 1,
    holds: &[
        ((Kind::Piece, 1, 1), (Kind::Asked, 0, 1)),
        ((Kind::Turn, 0, 1), (Kind::Piece, 1, 1)),
    ],
    mail: &["NULL"],
    turns: 1,
    tally: Tally {
        connections: 1,
        calls: 1,
        listen_fault: false,
    },
    output: "OLD",
    mailed: (1, "NULL_DONE", false),
    ..TWO_WORKERS
};

#[test]
fn datagram_beside(rt: HostRuntime) {
    try_case(&rt, rt.alloc(), &BESIDE);
}

// The second turn fails. The connection is served all the same.
static UNMAILED: Case = Case {
    name: "an inbox that fails",
    callers: &[("MATCH", 0, 0)],
    most: 1,
    workers: 1,
    mail: &["NULL", "NULL"],
    turns: 3,
    unmailed: 2,
    tally: Tally {
        connections: 1,
        calls: 1,
        listen_fault: false,
    },
    output: "OLD",
    mailed: (1, "NULL_DONE", true),
    ..TWO_WORKERS
};

#[test]
fn inbox_fault(rt: HostRuntime) {
    try_case(&rt, rt.alloc(), &UNMAILED);
}

// The transfer that a datagram asks for is carried out by the carrier.
static TRANSFER_MAILED: Case = Case {
    name: "a datagram that asks for a transfer",
    file: "",
    callers: &[("MATCH", 0, 0)],
    most: 1,
    workers: 1,
    mail: &["XFR_MAIL", "NULL"],
    turns: 2,
    tally: Tally {
        connections: 1,
        calls: 1,
        listen_fault: false,
    },
    totals: Totals {
        transfers: 1,
        outcomes: Outcomes {
            no_address: 1,
            ..NO_OUTCOMES
        },
        ..NONE
    },
    output: "NO_MAP",
    mailed: (2, "TAKEN_MAIL NULL_DONE", false),
    ..TWO_WORKERS
};

#[test]
fn transfer_of_a_datagram(rt: HostRuntime) {
    try_case(&rt, rt.alloc(), &TRANSFER_MAILED);
}

// No map is shown yet, since one of the own host is fetched from nowhere. The carrier is held where it dials for the
// transfer until the inbox was asked to send the last reply. So the map, which the second datagram asks for, is made by
// the one who takes the datagrams, and shown to the third.
static MAKE_MAILED: Case = Case {
    name: "a datagram makes a map beside a transfer",
    file: "",
    callers: &[],
    most: 0,
    workers: 1,
    holds: &[
        ((Kind::Turn, 0, 2), (Kind::Dialed, 0, 1)),
        ((Kind::Dialed, 0, 1), (Kind::Asked, 0, 3)),
    ],
    mail: &["FETCH_MAIL", "MAKE_MAIL", "MATCH_MAIL"],
    turns: 3,
    tally: Tally {
        connections: 0,
        calls: 0,
        listen_fault: false,
    },
    totals: Totals {
        made: 1,
        transfers: 1,
        outcomes: Outcomes {
            source: 1,
            ..NO_OUTCOMES
        },
        ..NONE
    },
    output: "",
    mailed: (3, "TAKEN_MAIL MADE_MAIL NEW_MAIL", false),
    ..TWO_WORKERS
};

#[test]
fn datagram_makes_a_map_beside_a_transfer(rt: HostRuntime) {
    try_case(&rt, rt.alloc(), &MAKE_MAILED);
}

// Each inbox has turns of its own.
static TWO_INBOXES: Case = Case {
    name: "two inboxes",
    callers: &[("MATCH", 0, 0)],
    most: 1,
    workers: 1,
    mail: &["NULL"],
    turns: 1,
    more: &[Further {
        mail: &["MATCH_MAIL"],
        unmailed: NEVER,
        mailed: (1, "OLD_MAIL"),
    }],
    tally: Tally {
        connections: 1,
        calls: 1,
        listen_fault: false,
    },
    output: "OLD",
    mailed: (1, "NULL_DONE", false),
    ..TWO_WORKERS
};

#[test]
fn two_inboxes(rt: HostRuntime) {
    try_case(&rt, rt.alloc(), &TWO_INBOXES);
}

// Each takes all turns: datagrams that come, in turn, and quiet ones.
static THREE_INBOXES: Case = Case {
    name: "three inboxes",
    mail: &["MATCH_MAIL", "NULL"],
    turns: 3,
    more: &[
        Further {
            mail: &[],
            unmailed: NEVER,
            mailed: (3, ""),
        },
        Further {
            mail: &["NULL", "MATCH_MAIL", "NULL", "NULL"],
            unmailed: NEVER,
            mailed: (3, "NULL_DONE OLD_MAIL NULL_DONE"),
        },
    ],
    mailed: (3, "OLD_MAIL NULL_DONE", false),
    ..TWO_WORKERS
};

#[test]
fn three_inboxes(rt: HostRuntime) {
    try_case(&rt, rt.alloc(), &THREE_INBOXES);
}

// The reply of the second one isn't sent. The others take all their turns, and the connections are served.
static ONE_UNMAILED: Case = Case {
    name: "one of three inboxes fails",
    mail: &["NULL", "NULL"],
    turns: 2,
    more: &[
        Further {
            mail: &["NULL", "NULL"],
            unmailed: 1,
            mailed: (1, ""),
        },
        Further {
            mail: &["MATCH_MAIL"],
            unmailed: NEVER,
            mailed: (2, "OLD_MAIL"),
        },
    ],
    mailed: (2, "NULL_DONE NULL_DONE", true),
    ..TWO_WORKERS
};

#[test]
fn one_of_three_inboxes_fails(rt: HostRuntime) {
    try_case(&rt, rt.alloc(), &ONE_UNMAILED);
}
