//! A worker that serves the connections of a hall in memory.

ghost use Rattle.std.specs.Prelude.{◌≡◌, ◌<◌, [], ◌+◌, is_some};
ghost use Rattle.yp_board.specs.Views.{IsFront};
ghost use Rattle.yp_answer.specs.inside.session.Hosts.{conduct_by};
ghost use Rattle.yp_worker.specs.Receptions.{opening_by};
ghost use Rattle.yp_worker.specs.inside.Receptions.{terms_by};
ghost use Rattle.yp_worker.specs.Summing.{SumsUp, counting_of};

use crate::given::{NEVER, assert_same, closed, hall, named, taken};
use crate::host::{version, waiting};
use crate::reader::{Handed, ReaderHost, host, known, two_readers};
use std::alloc::Global;
use std::marker::Brand;
use std::process::Abort;
use std::random::RandomSource;
use std::sync::ledger::{Blank, Ledger};
use std::sync::{Arc, Mutex, Wait};
use std::thread::Threads;
use yp_answer::session::Buffers;
use yp_board::Tell;
use yp_board::readers::{Naming, Opened, Reader, Writer};
use yp_for_server_tests::{Closed, Visit};
use yp_io::Hall;
use yp_memory::MemHall;
use yp_version::Version;
use yp_worker::{
    Gate, HandsOver, ListenerBooks, Listening, LongWork, OpenGate, Pass, Reception, Tally, Worker,
    laws, run_beside,
};

// NULL of YP (RFC 5531 section 9, yp.x), and its reply; MATCH of `alpha` in passwd.byname of `d`, and its replies with
// the values `alpha:1` and `alpha:2`; XFR of hosts.byname of `d` from the host `m2`, and its reply with SUCC; ALL of
// passwd.byname of `d`.
static NAMES: &str = "\
NULL = 80000028 00000001 00000000 00000002 000186a4 00000002 00000000 00000000 00000000 00000000 \
    00000000
NULL_REPLY = 80000018 00000001 00000001 00000000 00000000 00000000 00000000
MATCH = 80000050 00000001 00000000 00000002 000186a4 00000002 00000003 00000000 00000000 00000000 \
    00000000 00000001 64000000 0000000d 70617373 77642e62 796e616d 65000000 00000005 616c7068 \
    61000000
ONE = 80000028 00000001 00000001 00000000 00000000 00000000 00000000 00000001 00000007 616c7068 \
    613a3100
TWO = 80000028 00000001 00000001 00000000 00000000 00000000 00000000 00000001 00000007 616c7068 \
    613a3200
XFR = 80000058 00000005 00000000 00000002 000186a4 00000002 00000006 00000000 00000000 00000000 \
    00000000 00000001 64000000 0000000c 686f7374 732e6279 6e616d65 00000000 00000002 6d320000 \
    00000009 40000000 00000400
TAKEN = 80000020 00000005 00000001 00000000 00000000 00000000 00000000 00000009 00000001
ALL = 80000044 00000004 00000000 00000002 000186a4 00000002 00000008 00000000 00000000 00000000 \
    00000000 00000001 64000000 0000000d 70617373 77642e62 796e616d 65000000
";

// The bytes of a text of these names and of other words.
pub fn words(rt: &impl Abort, alloc: Global, text: &str) -> Vec<u8> {
    named(rt, alloc, NAMES, text)
}

// What came of the connections of a hall: what the lock kept, how many transfers hosts carried out, and the hall.
type Ran = (Tally, u64, MemHall);

// What the ledgers of a run are opened from: of the connections that are out, and of those that have ended.
struct Blanks {
    out: Blank,
    ended: Blank,
}

// Runs a worker that reads a board, and does all itself, over a hall to the end.
fn served<'r, J: Reception, E: Ledger, N: Naming, G, R: Wait + RandomSource + Abort>(
    rt: &R,
    alloc: Global,
    blanks: Blanks,
    listen: MemHall,
    host: ReaderHost<'r, N, R>,
    gate: G,
) -> (Tally, Ran)
where
    G: Gate + Copy + Drop,
    requires out { (blanks.out.name ≡ J.name) × (blanks.out.parts ≡ J.parts) × (blanks.out.parts ≡ 2) }
    requires ended { (blanks.ended.name ≡ E.name) × (blanks.ended.parts ≡ E.parts) × (0 < blanks.ended.parts) }
    requires opening { opening_by ⟦<MemHall as Hall>⟧ listen ≡ J.opening }
    requires catalogue { host.reader.catalogue ≡ J.catalogue }
    requires knows { IsFront J.starts host.reader.known }
    requires none { host.transfers ≡ 0 }
    requires most { 12 ≡ J.most }
{
    let Blanks { out, ended } = blanks;
    let (book, mut share) = out.open::<J>();
    let (ends, mine) = ended.open::<E>();
    let books = ListenerBooks {
        out: book,
        held: share.split_off(1, 0),
        ended: ends,
    };
    let mut pass = Pass::new(share, mine);
    let none = none_of::<N, R>(&host.reader);
    let mut worker = worker(rt, alloc, host, gate, Some(LongWork::Makes));
    let listening = Mutex::new(Listening::<J, E, ReaderHost<'r, N, R>, MemHall, G>::new(
        alloc, listen, books, none, 0,
    ));
    let own = worker.run(rt, &listening, &mut pass);
    let mut writer = worker.into_host().writer.expect(rt, "a writer");
    let ran = ended_with::<J, E, N, G, R>(rt, listening.into_inner(), &mut pass, &mut writer);
    (own, ran)
}

// Runs two workers that read a board, each in a thread, over a hall to the end. The second does what takes long.
fn shared<'r, J, E, N, R: Threads + Wait + Sync + RandomSource + Abort>(
    rt: &R,
    alloc: Global,
    blanks: Blanks,
    listen: MemHall,
    writer: &mut Writer<N, &'r R>,
    hosts: (ReaderHost<'r, N, R>, ReaderHost<'r, N, R>),
) -> Ran
where
    J: Reception + Send + Sync,
    E: Ledger + Send + Sync,
    N: Naming + Send + Sync,
    requires out { (blanks.out.name ≡ J.name) × (blanks.out.parts ≡ J.parts) × (blanks.out.parts ≡ 3) }
    requires ended { (blanks.ended.name ≡ E.name) × (blanks.ended.parts ≡ E.parts) × (blanks.ended.parts ≡ 2) }
    requires opening { opening_by ⟦<MemHall as Hall>⟧ listen ≡ J.opening }
    requires first { hosts.0.reader.catalogue ≡ J.catalogue }
    requires second { hosts.1.reader.catalogue ≡ J.catalogue }
    requires none { (hosts.0.transfers ≡ 0) × (hosts.1.transfers ≡ 0) }
    requires starts { J.starts ≡ [] }
    requires most { 12 ≡ J.most }
{
    let Blanks { out, ended } = blanks;
    let (book, mut mine) = out.open::<J>();
    let (ends, mut my_ends) = ended.open::<E>();
    let (theirs, their_ends) = (mine.split_off(1, 0), my_ends.split_off(1, 0));
    let books = ListenerBooks {
        out: book,
        held: mine.split_off(1, 0),
        ended: ends,
    };
    let none = none_of::<N, R>(&hosts.0.reader);
    let listening = Mutex::new(Listening::<J, E, ReaderHost<'r, N, R>, MemHall, OpenGate>::new(
        alloc, listen, books, none, 1,
    ));
    let first = (
        worker(rt, alloc, hosts.0, OpenGate, None),
        Pass::new(mine, my_ends),
    );
    let second = (
        worker(rt, alloc, hosts.1, OpenGate, Some(LongWork::Makes)),
        Pass::new(theirs, their_ends),
    );
    let ((mut pass, _), (other, _)) = run_beside(rt, &listening, first, second);
    pass.merge(other);
    ended_with::<J, E, N, OpenGate, R>(rt, listening.into_inner(), &mut pass, writer)
}

// Closes what workers listened on, once all of them have ended, and nobody waits between two of them.
fn ended_with<'r, J: Reception, E: Ledger, N: Naming, G: Drop, R: Wait + Abort>(
    rt: &R,
    listening: Listening<J, E, ReaderHost<'r, N, R>, MemHall, G>,
    pass: &mut Pass<J, E>,
    writer: &mut Writer<N, &'r R>,
) -> Ran
    requires all { pass.old.parts + 1 ≡ J.parts }
    requires none_out { pass.old.out ≡ 0 }
    requires ended { 0 < pass.old.ended }
{
    assert_drained(rt, &listening);
    let (listen, tally, sum) = listening.close(pass);
    cover::<J, ReaderHost<'r, N, R>, MemHall, Writer<N, &'r R>>(
        writer, &listen, &tally, &sum, &sum.front,
    );
    (tally, sum.transfers, listen)
}

// Nobody waits between two workers.
fn assert_drained<J: Reception, E: Ledger, H: HandsOver, L: Hall, G>(
    rt: &impl Abort,
    listening: &Listening<J, E, H, L, G>,
)
    ensures { listening.now.waiting ≡ 0 }
{
    assert!(rt; listening.is_drained());
}

// What nobody has counted, with what this reader knows.
fn none_of<N: Naming, R: Wait>(reader: &Reader<N>) -> Handed<N>
    ensures { result.transfers ≡ 0 }
{
    Handed {
        transfers: 0,
        front: known::<N, R>(reader),
    }
}

// A worker with this host, which answers at most 12 records of a connection.
fn worker<H, G>(
    rt: &impl Abort,
    alloc: Global,
    host: H,
    gate: G,
    work: Option<LongWork>,
) -> Worker<H, G>
    ensures { result ≡ record { host = host; most = 12; carries = is_some work } }
{
    let buffers = Buffers::new(alloc).expect(rt, "buffers");
    Worker::new(host, buffers, gate, 12, work)
}

// Covers what each connection was answered on: it is a front of what is shown.
fn cover<J: Reception, H: HandsOver, L: Hall, B: Tell>(
    writer: &mut B,
    listen: &L,
    tally: &Tally,
    sum: &H::Sum,
    front: &B::Front,
)
    requires reached { H.reached sum.now ≡ B.kept front.now }
    requires summed { SumsUp (conduct_by H.Host) (counting_of H.counted H.none H.plus) (terms_by J.Reception) J.opening
        (opening_by L.Hall listen.now)
        (record { calls = tally.now.calls; sum = H.summed sum.now; reached = H.reached sum.now }) }
    ensures { SumsUp (conduct_by H.Host) (counting_of H.counted H.none H.plus) (terms_by J.Reception) J.opening
        (opening_by L.Hall listen.now)
        (record { calls = tally.now.calls; sum = H.summed sum.now; reached = B.log writer.new }) }
{
    writer.covers(front);
    laws::sums_reach_further::<H>();
}

// The version that the first map has, and those that others show, the next last.
pub struct Versions {
    pub first: Arc<Version>,
    pub waiting: Vec<Arc<Version>>,
}

// Runs a worker that reads a board over this hall.
fn one<N: Naming, G: Gate + Copy + Drop, R: Wait + RandomSource + Abort>(
    rt: &R,
    alloc: Global,
    opened: Opened,
    listen: MemHall,
    versions: Versions,
    gate: G,
) -> (Tally, Ran)
    requires board { opened ≡ N.book }
{
    let Versions { first, waiting } = versions;
    let (writer, reader, _) = two_readers::<N, R>(rt, alloc, opened, first);
    let blanks = Blanks {
        out: Blank::new(2),
        ended: Blank::new(1),
    };
    let host = ReaderHost {
        reader,
        writer: Some(writer),
        waiting,
        transfers: 0,
    };
    served::<Brand, Brand, N, G, R>(rt, alloc, blanks, listen, host, gate)
}

// What came of a visit: what the worker counted, what the lock kept, how many transfers were carried out, how many
// connections were accepted, how many were let go, and those that were closed.
pub type Came = (Tally, Tally, u64, u64, u64, Vec<Closed>);

// What comes of a visit to a worker that reads a board.
pub fn visited<G: Gate + Copy + Drop, R: Wait + RandomSource + Abort>(
    rt: &R,
    alloc: Global,
    visit: &Visit<'_>,
    versions: Versions,
    gate: G,
) -> Came {
    let listen = hall(rt, alloc, NAMES, visit);
    let (own, (tally, transfers, listen)) = one::<Brand, G, R>(
        rt,
        alloc,
        Opened::new(),
        listen,
        versions,
        gate,
    );
    let closed = closed(rt, alloc, &listen);
    let accepted = u64::from(listen.accepted());
    (own, tally, transfers, accepted, listen.let_go(), closed)
}

// A visit, and the values of `alpha` that others show behind `alpha:1`, each where the worker catches up. What comes of
// it: what was counted, how many transfers were carried out, how many connections were let go, and of each that was
// closed its port and what it had taken.
#[derive(Clone, Copy)]
pub struct Row<'v> {
    pub name: &'static str,
    pub visit: Visit<'v>,
    pub shown: &'static [&'static [u8]],
    pub tally: Tally,
    pub transfers: u64,
    pub let_go: u64,
    pub closed: &'v [(u16, &'static str)],
}

// What is to be closed.
pub fn closed_of(rt: &impl Abort, alloc: Global, wanted: &[(u16, &str)]) -> Vec<Closed> {
    let mut all = Vec::new(alloc);
    for (port, output) in wanted {
        all.push((*port, words(rt, alloc, output)))
            .expect(rt, "memory for a connection");
    }
    all
}

pub fn try_row<R: Wait + RandomSource + Abort>(rt: &R, alloc: Global, row: &Row<'_>) {
    let versions = Versions {
        first: version(rt, alloc, 7, b"alpha:1"),
        waiting: waiting(rt, alloc, row.shown),
    };
    let came = visited(rt, alloc, &row.visit, versions, OpenGate);
    let closed = closed_of(rt, alloc, row.closed);
    let wanted = (
        row.tally,
        row.tally,
        row.transfers,
        row.tally.connections,
        row.let_go,
        closed,
    );
    assert_same(rt, &came, &wanted, row.name);
}

const SERVED: Tally = Tally {
    connections: 2,
    calls: 4,
    listen_fault: false,
};

// Two callers, who never wait.
pub const TWO: Visit<'static> = Visit {
    callers: &[("NULL NULL", 0, 0), ("NULL NULL", 0, 0)],
    most: 2,
    failing: NEVER,
    pausing: 0,
    script: &[],
};

pub const BOTH: Row<'static> = Row {
    name: "two connections",
    visit: TWO,
    shown: &[],
    tally: SERVED,
    transfers: 0,
    let_go: 0,
    closed: &[(1, "NULL_REPLY NULL_REPLY"), (2, "NULL_REPLY NULL_REPLY")],
};

// The hall is asked for a watch first.
static ROWS: [Row<'static>; 4] = [
    BOTH,
    Row {
        name: "two transfers",
        visit: Visit {
            callers: &[("NULL XFR", 0, 0), ("NULL XFR", 0, 0)],
            ..TWO
        },
        transfers: 2,
        closed: &[(1, "NULL_REPLY TAKEN"), (2, "NULL_REPLY TAKEN")],
        ..BOTH
    },
    Row {
        name: "the first accept fails",
        visit: Visit { failing: 1, ..TWO },
        tally: Tally {
            connections: 0,
            calls: 0,
            listen_fault: true,
        },
        closed: &[],
        ..BOTH
    },
    Row {
        name: "the second accept fails",
        visit: Visit { failing: 2, ..TWO },
        tally: Tally {
            connections: 1,
            calls: 2,
            listen_fault: true,
        },
        closed: &[(1, "NULL_REPLY NULL_REPLY")],
        ..BOTH
    },
];

#[test]
fn all_connections_of_a_listener(rt: HostRuntime) {
    for row in &ROWS {
        try_row(&rt, rt.alloc(), row);
    }
}

// Runs two workers that read one board, each in a thread, over this hall.
fn two<N: Naming + Send + Sync, R: Threads + Wait + Sync + RandomSource + Abort>(
    rt: &R,
    alloc: Global,
    opened: Opened,
    listen: MemHall,
) -> Ran
    requires board { opened ≡ N.book }
{
    let first = version(rt, alloc, 7, b"alpha:1");
    let (mut writer, one, other) = two_readers::<N, R>(rt, alloc, opened, first);
    let blanks = Blanks {
        out: Blank::new(3),
        ended: Blank::new(2),
    };
    let hosts = (host(alloc, one), host(alloc, other));
    shared::<Brand, Brand, N, R>(rt, alloc, blanks, listen, &mut writer, hosts)
}

#[test]
fn two_workers_in_threads(rt: HostRuntime) {
    let alloc = rt.alloc();
    let listen = hall(&rt, alloc, NAMES, &BOTH.visit);
    let (tally, transfers, listen) = two::<Brand, _>(&rt, alloc, Opened::new(), listen);
    let output = words(&rt, alloc, "NULL_REPLY NULL_REPLY NULL_REPLY NULL_REPLY");
    let came = (
        tally,
        transfers,
        listen.accepted(),
        taken(&rt, alloc, &listen),
    );
    let wanted = (SERVED, 0, 2, output);
    assert_same(&rt, &came, &wanted, "the connections of two workers");
}
