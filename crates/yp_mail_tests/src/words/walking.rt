//! Words of `walk`, and the port and the map that they name.

use crate::given::assert_same;
use crate::words::sentences::{Transfer, Wrong, check_names, check_wrong, parsed, transfer_of};
use std::alloc::Global;
use std::process::Abort;
use yp_command::{Command, port_of};
use yp_io::Peer;

const HOST: &str = "m1@127.0.0.1:7001";

const SOURCE: Peer = Peer {
    addr: [127, 0, 0, 1],
    port: 7_001,
};

/// Words that are no sentence, and the word that is wrong.
static WRONG: [Wrong; 10] = [
    (&["walk"], 1),
    (&["walk", "s1", "older"], 2),
    (&["walk", "s1", "newer", "lab"], 3),
    (&["walk", "s1", "newer", "lab/a", "127.0.0.1:7001"], 4),
    (&["walk", "s1", "newer", "lab/a", HOST], 5),
    (&["walk", "s1", "newer", "lab/a", HOST, "0", "8"], 5),
    (&["walk", "s1", "newer", "lab/a", HOST, "7120"], 6),
    (&["walk", "s1", "newer", "lab/a", HOST, "7120", "08"], 6),
    (
        &["walk", "s1", "newer", "lab/a", HOST, "7120", "8", "open"],
        7,
    ),
    (
        &[
            "walk", "s1", "newer", "lab/a", HOST, "7120", "8", "plain", "x",
        ],
        8,
    ),
];

#[test]
fn wrong_walking_words(rt: HostRuntime) {
    check_wrong(&rt, rt.alloc(), &WRONG);
}

/// The port, the turns and the transfer of a walk.
type Walk<'a> = (Option<u16>, u64, Transfer<'a>);

fn walked(command: &Command) -> Option<Walk<'_>> {
    match command {
        Command::Walk(job) => Some((port_of(command), job.turns, transfer_of(&job.xfr))),
        _ => None,
    }
}

static WALKS: [(&[&str], Walk); 2] = [
    (
        &["walk", "s1", "newer", "lab/hosts.byname", HOST, "7120", "8"],
        (
            Some(7_120),
            8,
            (
                b"s1",
                false,
                (b"lab", b"hosts.byname"),
                (b"m1", SOURCE),
                None,
            ),
        ),
    ),
    (
        &[
            "walk",
            "s1",
            "force",
            "lab/a",
            HOST,
            "65535",
            "4294967295",
            "secure",
        ],
        (
            Some(65_535),
            4_294_967_295,
            (b"s1", true, (b"lab", b"a"), (b"m1", SOURCE), Some(true)),
        ),
    ),
];

fn check_walk(rt: &impl Abort, alloc: Global, words: &[&str], wanted: Walk) {
    let command = parsed(rt, alloc, words);
    let came = (words, walked(&command));
    assert_same(rt, &came, &(words, Some(wanted)), "walk");
}

#[test]
fn walk_parsed(rt: HostRuntime) {
    for (words, wanted) in &WALKS {
        check_walk(&rt, rt.alloc(), *words, *wanted);
    }
}

#[test]
fn walk_names_its_map(rt: HostRuntime) {
    let words = &["walk", "s1", "newer", "lab/a", HOST, "7120", "8"];
    check_names(&rt, rt.alloc(), words, Some((b"lab", b"a")));
}
