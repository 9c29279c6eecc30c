//! Words of `serve`, and the port and the maps that they name.

use crate::given::assert_same;
use crate::words::sentences::{Names, Wrong, check_names, check_wrong, host_of, names_of, parsed};
use std::alloc::Global;
use std::process::Abort;
use yp_command::{Command, ServeJob, port_of};
use yp_io::Peer;

/// Words that are no sentence, and the word that is wrong: those up to the numbers.
static WRONG_NUMBERS: [Wrong; 9] = [
    (&["serve"], 1),
    (&["serve", "m@1", "7001", "1", "0", "0", "lab/a"], 1),
    (&["serve", "m1", "0", "1", "0", "0", "lab/a"], 2),
    (&["serve", "m1", "65536", "1", "0", "0", "lab/a"], 2),
    (&["serve", "m1", "7001", "0", "0", "0", "lab/a"], 3),
    (&["serve", "m1", "7001", "9", "0", "0", "lab/a"], 3),
    (&["serve", "m1", "7001", "1", "4294967296", "0", "lab/a"], 4),
    (&["serve", "m1", "7001", "1", "Forever", "0", "lab/a"], 4),
    (&["serve", "m1", "7001", "1", "0", "00", "lab/a"], 5),
];

/// The same of `log`, which is the last word, once.
static WRONG_LOGS: [Wrong; 4] = [
    (&["serve", "m1", "7001", "1", "0", "log"], 5),
    (&["serve", "m1", "7001", "1", "0", "0", "log"], 6),
    (
        &[
            "serve", "m1", "7001", "1", "0", "0", "lab/a", "log", "lab/b",
        ],
        7,
    ),
    (
        &["serve", "m1", "7001", "1", "0", "0", "lab/a", "log", "log"],
        7,
    ),
];

/// The same of the maps and hosts behind them.
static WRONG_MAPS: [Wrong; 5] = [
    (&["serve", "m1", "7001", "1", "0"], 5),
    (&["serve", "m1", "7001", "1", "0", "0"], 6),
    (&["serve", "m1", "7001", "1", "0", "0", "m2@127.0.0.1:7"], 7),
    (&["serve", "m1", "7001", "1", "0", "0", "lab/a", "lab/a"], 7),
    (
        &[
            "serve",
            "m1",
            "7001",
            "1",
            "0",
            "0",
            "lab/a",
            "m2@127.0.0.1",
        ],
        7,
    ),
];

#[test]
fn wrong_serving_numbers(rt: HostRuntime) {
    check_wrong(&rt, rt.alloc(), &WRONG_NUMBERS);
}

#[test]
fn wrong_logs(rt: HostRuntime) {
    check_wrong(&rt, rt.alloc(), &WRONG_LOGS);
}

#[test]
fn wrong_served_maps(rt: HostRuntime) {
    check_wrong(&rt, rt.alloc(), &WRONG_MAPS);
}

/// The own name, the port, how many workers, connections and turns there are, two maps, a host, and whether it tells
/// what it does.
type Serving<'a> = (
    &'a [u8],
    Option<u16>,
    (u32, u64, u64),
    [Names<'a>; 2],
    (&'a [u8], Peer),
    bool,
);

fn served<'a>(port: Option<u16>, job: &'a ServeJob) -> Option<Serving<'a>> {
    match (job.stores.as_slice(), job.hosts.as_slice()) {
        ([first, second], [host]) => Some((
            &job.name,
            port,
            (job.workers, job.connections, job.turns),
            [names_of(first), names_of(second)],
            host_of(host),
            job.log,
        )),
        _ => None,
    }
}

fn serving(command: &Command) -> Option<Serving<'_>> {
    match command {
        Command::Serve(job) => served(port_of(command), job),
        _ => None,
    }
}

static WORDS: [&str; 9] = [
    "serve",
    "m1",
    "7001",
    "8",
    "4294967295",
    "forever",
    "lab/a",
    "m2@127.0.0.1:7001",
    "dom/a",
];

static LOGGING: [&str; 10] = [
    "serve",
    "m1",
    "7001",
    "8",
    "4294967295",
    "forever",
    "lab/a",
    "m2@127.0.0.1:7001",
    "dom/a",
    "log",
];

const HOST: Peer = Peer {
    addr: [127, 0, 0, 1],
    port: 7_001,
};

/// Checks what words of `serve` are, with `log` behind them or not.
fn check_served(rt: &impl Abort, alloc: Global, words: &[&str], log: bool) {
    let command = parsed(rt, alloc, words);
    let wanted: Serving = (
        b"m1",
        Some(7_001),
        (8, 4_294_967_295, 18_446_744_073_709_551_615),
        [(b"lab", b"a"), (b"dom", b"a")],
        (b"m2", HOST),
        log,
    );
    assert_same(rt, &serving(&command), &Some(wanted), "serve");
}

#[test]
fn serve_parsed(rt: HostRuntime) {
    check_served(&rt, rt.alloc(), &WORDS, false);
    check_served(&rt, rt.alloc(), &LOGGING, true);
}

#[test]
fn serve_names_its_maps(rt: HostRuntime) {
    let words = &["serve", "m1", "7001", "1", "0", "0", "lab/a"];
    check_names(&rt, rt.alloc(), words, Some((b"lab", b"a")));
}
