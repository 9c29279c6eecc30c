//! Words of the commands that ask and answer in datagrams, and the port that they name.

use crate::given::assert_same;
use crate::words::sentences::{Wrong, check_wrong, parsed};
use std::alloc::Global;
use std::process::Abort;
use yp_binding::Policy;
use yp_binding::portmap::{Mapping, PortCall};
use yp_command::{Command, HostWord, port_of};
use yp_io::Peer;

/// Words that are no sentence, and the word that is wrong.
static WRONG: [Wrong; 33] = [
    (&["portmap"], 1),
    (&["portmap", "0", "3"], 1),
    (&["portmap", "65536", "3"], 1),
    (&["portmap", "0111", "3"], 1),
    (&["portmap", "111"], 2),
    (&["portmap", "111", "4294967296"], 2),
    (&["portmap", "111", "forever "], 2),
    (&["portmap", "111", "3", "x"], 3),
    (
        &["getport", "7112", "2", "127.0.0.1", "100004", "2", "6"],
        3,
    ),
    (
        &["getport", "7112", "2", "127.0.0.1:0", "100004", "2", "6"],
        3,
    ),
    (
        &["getport", "7112", "2", "127.0.0.1:111", "yp", "2", "6"],
        4,
    ),
    (&["getport", "7112", "2", "127.0.0.1:111", "100004", "2"], 6),
    (
        &[
            "getport",
            "7112",
            "2",
            "127.0.0.1:111",
            "100004",
            "2",
            "tcp",
        ],
        6,
    ),
    (
        &[
            "setport",
            "0",
            "2",
            "127.0.0.1:111",
            "100004",
            "2",
            "6",
            "834",
        ],
        1,
    ),
    (
        &[
            "setport",
            "1",
            "-2",
            "127.0.0.1:111",
            "100004",
            "2",
            "6",
            "834",
        ],
        2,
    ),
    (&["setport", "1", "2", "z1", "100004", "2", "6", "834"], 3),
    (
        &[
            "setport",
            "1",
            "2",
            "127.0.0.1:111",
            "4294967296",
            "2",
            "6",
            "834",
        ],
        4,
    ),
    (
        &[
            "setport",
            "1",
            "2",
            "127.0.0.1:111",
            "100004",
            "",
            "6",
            "834",
        ],
        5,
    ),
    (
        &[
            "setport",
            "1",
            "2",
            "127.0.0.1:111",
            "100004",
            "2",
            "udp",
            "834",
        ],
        6,
    ),
    (
        &[
            "setport",
            "1",
            "2",
            "127.0.0.1:111",
            "100004",
            "2",
            "6",
            "0",
        ],
        7,
    ),
    (
        &["setport", "1", "2", "127.0.0.1:111", "100004", "2", "6"],
        7,
    ),
    (
        &[
            "setport",
            "1",
            "2",
            "127.0.0.1:111",
            "100004",
            "2",
            "6",
            "834",
            "1",
        ],
        8,
    ),
    (&["unsetport", "1", "2", "127.0.0.1:111", "100004"], 5),
    (
        &["unsetport", "1", "2", "127.0.0.1:111", "100004", "2", "6"],
        6,
    ),
    (&["bind", "7100"], 2),
    (&["bind", "7100", "ypSet", "2", "lab", "z1@10.0.0.2:834"], 2),
    (&["bind", "7100", "", "2", "lab", "z1@10.0.0.2:834"], 2),
    (
        &["bind", "7100", "fixed", "-1", "lab", "z1@10.0.0.2:834"],
        3,
    ),
    (&["bind", "7100", "fixed", "2", "a/b", "z1@10.0.0.2:834"], 4),
    (&["bind", "7100", "fixed", "2", "lab"], 5),
    (&["bind", "7100", "fixed", "2", "lab", "10.0.0.2:834"], 5),
    (
        &[
            "bind",
            "7100",
            "fixed",
            "2",
            "lab",
            "z1@10.0.0.2:834",
            "z2@10.0.0.2:834",
        ],
        6,
    ),
    (
        &[
            "bind",
            "7100",
            "fixed",
            "2",
            "lab",
            "z1@10.0.0.2:834",
            "z1@10.0.0.2:835",
            "lab/a",
        ],
        7,
    ),
];

#[test]
fn wrong_mailing_words(rt: HostRuntime) {
    check_wrong(&rt, rt.alloc(), &WRONG);
}

const MAPPER: Peer = Peer {
    addr: [127, 0, 0, 1],
    port: 111,
};

/// The turns, the port mapper, and the call of it.
type Asked = (u64, Peer, PortCall);

fn asked(command: &Command) -> Option<Asked> {
    match command {
        Command::CallMapper {
            turns,
            addr,
            call,
            ..
        } => Some((*turns, *addr, *call)),
        _ => None,
    }
}

/// Words, and the call that they ask for.
static MAPPER_CALLS: [(&[&str], PortCall); 3] = [
    (
        &[
            "getport",
            "65535",
            "4294967295",
            "127.0.0.1:111",
            "100004",
            "2",
            "17",
        ],
        PortCall::GetPort {
            prog: 100_004,
            vers: 2,
            prot: 17,
        },
    ),
    (
        &[
            "setport",
            "65535",
            "4294967295",
            "127.0.0.1:111",
            "100004",
            "2",
            "6",
            "65535",
        ],
        PortCall::Set {
            mapping: Mapping {
                prog: 100_004,
                vers: 2,
                prot: 6,
                port: 65_535,
            },
        },
    ),
    (
        &[
            "unsetport",
            "65535",
            "4294967295",
            "127.0.0.1:111",
            "100004",
            "2",
        ],
        PortCall::Unset {
            prog: 100_004,
            vers: 2,
        },
    ),
];

fn check_asked(rt: &impl Abort, alloc: Global, words: &[&str], call: PortCall) {
    let command = parsed(rt, alloc, words);
    let came = (port_of(&command), asked(&command));
    let wanted = (Some(65_535), Some((4_294_967_295, MAPPER, call)));
    assert_same(rt, &came, &wanted, "the call");
}

#[test]
fn mapper_calls_parsed(rt: HostRuntime) {
    for (words, call) in &MAPPER_CALLS {
        check_asked(&rt, rt.alloc(), *words, *call);
    }
}

fn mapped(command: &Command) -> Option<u64> {
    match command {
        Command::Portmap { turns, .. } => Some(*turns),
        _ => None,
    }
}

#[test]
fn portmap_parsed(rt: HostRuntime) {
    let command = parsed(&rt, rt.alloc(), &["portmap", "1", "forever"]);
    let came = (port_of(&command), mapped(&command));
    assert_same(&rt, &came, &(Some(1), Some(u64::MAX)), "portmap");
}

fn host_of(host: &HostWord) -> (&[u8], Peer) {
    (&host.name, host.peer)
}

/// The policy, the turns, the domain and two hosts.
type Bound<'a> = (Policy, u64, &'a [u8], [(&'a [u8], Peer); 2]);

fn bound(command: &Command) -> Option<Bound<'_>> {
    match command {
        Command::Bind {
            policy,
            turns,
            domain,
            hosts,
            ..
        } => match hosts.as_slice() {
            [first, second] => Some((*policy, *turns, domain, [host_of(first), host_of(second)])),
            _ => None,
        },
        _ => None,
    }
}

/// Words of `bind`, and the policy that they say.
static BINDS: [(&[&str], Policy); 3] = [
    (
        &[
            "bind",
            "7100",
            "fixed",
            "2",
            "lab",
            "z1@127.0.0.1:111",
            "z1@127.0.0.1:112",
        ],
        Policy::Fixed,
    ),
    (
        &[
            "bind",
            "7100",
            "ypsetme",
            "2",
            "lab",
            "z1@127.0.0.1:111",
            "z1@127.0.0.1:112",
        ],
        Policy::Ypsetme,
    ),
    (
        &[
            "bind",
            "7100",
            "ypset",
            "2",
            "lab",
            "z1@127.0.0.1:111",
            "z1@127.0.0.1:112",
        ],
        Policy::Ypset,
    ),
];

const NEAR: Peer = Peer {
    addr: [127, 0, 0, 1],
    port: 112,
};

const HOSTS: [(&[u8], Peer); 2] = [(b"z1", MAPPER), (b"z1", NEAR)];

fn check_bound(rt: &impl Abort, alloc: Global, words: &[&str], policy: Policy) {
    let command = parsed(rt, alloc, words);
    let domain: &[u8] = b"lab";
    assert_same(rt, &port_of(&command), &Some(7_100), "the port");
    assert_same(
        rt,
        &bound(&command),
        &Some((policy, 2, domain, HOSTS)),
        "bind",
    );
}

#[test]
fn bind_parsed(rt: HostRuntime) {
    for (words, policy) in &BINDS {
        check_bound(&rt, rt.alloc(), *words, *policy);
    }
}

/// Words of `push` that are no sentence, and the word that is wrong.
static WRONG_PUSHES: [Wrong; 10] = [
    (&["push"], 1),
    (&["push", ".m1", "7001"], 1),
    (&["push", "m1", "0", "3", "5", "lab/hosts.byname"], 2),
    (&["push", "m1", "7001", "0", "5", "lab/hosts.byname"], 3),
    (&["push", "m1", "7001", "4097", "5", "lab/hosts.byname"], 3),
    (&["push", "m1", "7001", "03", "5", "lab/hosts.byname"], 3),
    (&["push", "m1", "7001", "3", "-1", "lab/hosts.byname"], 4),
    (&["push", "m1", "7001", "3", "5"], 5),
    (&["push", "m1", "7001", "3", "5", "hosts.byname"], 5),
    (
        &[
            "push",
            "m1",
            "7001",
            "3",
            "5",
            "lab/hosts.byname",
            "s1@127.0.0.1:7011",
            "s2",
        ],
        7,
    ),
];

#[test]
fn wrong_push_words(rt: HostRuntime) {
    check_wrong(&rt, rt.alloc(), &WRONG_PUSHES);
}

/// The own name, the window, the turns, the domain, the map, and the first host.
type Pushed<'a> = (
    &'a [u8],
    u32,
    u64,
    (&'a [u8], &'a [u8]),
    Option<(&'a [u8], Peer)>,
);

fn pushed(command: &Command) -> Option<Pushed<'_>> {
    match command {
        Command::Push(job) => Some((
            &job.name,
            job.window,
            job.turns,
            (&job.store.domain, &job.store.map),
            match job.hosts.first() {
                Some(host) => Some(host_of(host)),
                None => None,
            },
        )),
        _ => None,
    }
}

fn check_pushed(rt: &impl Abort, alloc: Global, words: &[&str], wanted: Option<Pushed<'_>>) {
    let command = parsed(rt, alloc, words);
    assert_same(rt, &port_of(&command), &Some(7_001), "the port");
    assert_same(rt, &pushed(&command), &wanted, "push");
}

#[test]
fn push_parsed(rt: HostRuntime) {
    let name: &[u8] = b"m1";
    let domain: &[u8] = b"lab";
    let map: &[u8] = b"hosts.byname";
    let slave: &[u8] = b"s1";
    check_pushed(
        &rt,
        rt.alloc(),
        &["push", "m1", "7001", "1", "0", "lab/hosts.byname"],
        Some((name, 1, 0, (domain, map), None)),
    );
    check_pushed(
        &rt,
        rt.alloc(),
        &[
            "push",
            "m1",
            "7001",
            "4096",
            "5",
            "lab/hosts.byname",
            "s1@127.0.0.1:111",
        ],
        Some((name, 4_096, 5, (domain, map), Some((slave, MAPPER)))),
    );
}

#[test]
fn a_command_without_a_port(rt: HostRuntime) {
    let command = parsed(&rt, rt.alloc(), &["sample", "0", "3"]);
    assert_same(&rt, &port_of(&command), &None, "sample");
}
