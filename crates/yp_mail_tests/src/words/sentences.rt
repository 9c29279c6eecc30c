//! Words and what they ask for, reckoned by hand from the sentences of docs/FORMATS.md.

ghost use Rattle.std.specs.Prelude.{◌≤◌};

use crate::given::assert_same;
use std::alloc::Global;
use std::process::Abort;
use yp_board::MapName;
use yp_command::{Command, HostWord, KeyValue, ParseFault, XfrJob, disk_names, parse};
use yp_io::Peer;

fn strings(rt: &impl Abort, alloc: Global, words: &[&str]) -> Vec<String> {
    let mut owned = Vec::new(alloc);
    for word in words {
        let word = String::from_str(alloc, *word).expect(rt, "memory for a word");
        owned.push(word).expect(rt, "memory for words");
    }
    owned
}

/// Whether words are those of a session, where they are a sentence.
fn is_session(alloc: Global, words: &[String]) -> Result<bool, ParseFault> {
    match parse(alloc, words) {
        Ok(command) => Ok(matches!(command, Command::Session { .. })),
        Err(fault) => Err(fault),
    }
}

/// What words ask for.
pub fn parsed(rt: &impl Abort, alloc: Global, words: &[&str]) -> Command {
    let words = strings(rt, alloc, words);
    parse(alloc, &words).expect(rt, "the words are a sentence")
}

/// A name of 64 bytes, and one of 65.
pub const LONGEST: &str = "0123456789abcdef0123456789abcdef0123456789abcdef0123456789abcdef";

pub const LONGEST_BYTES: &[u8] =
    b"0123456789abcdef0123456789abcdef0123456789abcdef0123456789abcdef";

pub const TOO_LONG: &str = "0123456789abcdef0123456789abcdef0123456789abcdef0123456789abcdefg";

pub const TOO_LONG_BYTES: &[u8] =
    b"0123456789abcdef0123456789abcdef0123456789abcdef0123456789abcdefg";

/// Words that are no sentence, and the word that is wrong.
pub type Wrong = (&'static [&'static str], usize);

/// Words that are no sentence.
static WRONG: [Wrong; 42] = [
    (&[], 0),
    (&["Check", "lab/hosts.byname"], 0),
    (&["check"], 1),
    (&["check", "lab"], 1),
    (&["check", "/hosts.byname"], 1),
    (&["check", "lab/"], 1),
    (&["check", "lab/hosts.byname", "x"], 2),
    (&["dump"], 1),
    (&["dump", "lab"], 1),
    (&["dump", "/auto.home"], 1),
    (&["dump", "lab/"], 1),
    (&["dump", "lab/auto.home", "x"], 2),
    (&["build"], 1),
    (&["build", TOO_LONG, "lab/hosts.byname"], 1),
    (&["build", "a/b", "lab/hosts.byname"], 1),
    (&["build", "a@b", "lab/hosts.byname"], 1),
    (&["build", ".m1", "lab/hosts.byname"], 1),
    (&["build", "", "lab/hosts.byname"], 1),
    (&["build", "m1"], 2),
    (&["build", "m1", "hosts.byname"], 2),
    (&["build", "m1", "lab/nokind"], 2),
    (&["build", "m1", "lab/hosts"], 2),
    (&["build", "m1", "lab/a/netgroup"], 2),
    (&["build", "m1", "lab/hosts.byname", "open"], 3),
    (&["build", "m1", "lab/hosts.byname", "Secure"], 3),
    (&["build", "m1", "lab/hosts.byname", "secure", "x"], 4),
    (&["build", "m1", "lab/hosts.byname", "plain", "plain"], 4),
    (&["load"], 1),
    (&["load", TOO_LONG, "lab/auto.home"], 1),
    (&["load", "a/b", "lab/auto.home"], 1),
    (&["load", "m1"], 2),
    (&["load", "m1", "auto.home"], 2),
    (&["load", "m1", "lab/.home"], 2),
    (&["load", "m1", "lab/a/auto.home"], 2),
    (&["load", "m1", "lab/auto.home", "open"], 3),
    (&["load", "m1", "lab/auto.home", ""], 3),
    (&["load", "m1", "lab/auto.home", "secure", "x"], 4),
    (&["load", "m1", "lab/auto.home", "plain", "plain"], 4),
    (&["revnet"], 1),
    (&["revnet", "m1"], 2),
    (&["revnet", "m1", "lab/netgroup"], 2),
    (&["revnet", "m1", "lab/netgroup.byuser", "secure"], 3),
];

/// The same of sentences with addresses and hosts.
static WRONG_ADDRESSES: [Wrong; 50] = [
    (&["match", "127.0.0.1:700"], 2),
    (&["match", "127.0.0.1:700", "lab", "hosts.byname"], 4),
    (&["match", "127.0.0.1:0", "lab", "hosts.byname", "a"], 1),
    (&["match", "127.0.0.1:65536", "lab", "hosts.byname", "a"], 1),
    (&["cat", "127.0.0.1", "lab", "hosts.byname"], 1),
    (&["cat", "127.0.0.256:7", "lab", "hosts.byname"], 1),
    (&["cat", "127.0.0.01:7", "lab", "hosts.byname"], 1),
    (&["cat", "127.0.0:7", "lab", "hosts.byname"], 1),
    (&["cat", "127.0.0.1.1:7", "lab", "hosts.byname"], 1),
    (&["cat", "127.0.0.+1:7", "lab", "hosts.byname"], 1),
    (&["cat", " 127.0.0.1:7", "lab", "hosts.byname"], 1),
    (&["cat", "localhost:7", "lab", "hosts.byname"], 1),
    (&["catk", "127.0.0.1:7", "", "hosts.byname"], 2),
    (&["which", "127.0.0.1:7", "lab", TOO_LONG], 3),
    (&["poll", "127.0.0.1:7", "lab", "hosts.byname", "x"], 4),
    (&["maps", "127.0.0.1:7", "lab", "hosts.byname"], 3),
    (&["pull"], 1),
    (&["pull", "m1", "lab", "hosts.byname", "m1"], 1),
    (&["pull", "127.0.0.1:7", "", "hosts.byname", "m1"], 2),
    (&["pull", "127.0.0.1:7", "lab", TOO_LONG, "m1"], 3),
    (&["pull", "127.0.0.1:7", "lab", "hosts.byname"], 4),
    (&["pull", "127.0.0.1:7", "lab", "hosts.byname", ""], 4),
    (&["pull", "127.0.0.1:7", "lab", "hosts.byname", TOO_LONG], 4),
    (
        &["pull", "127.0.0.1:7", "lab", "hosts.byname", "m1", "x"],
        5,
    ),
    (&["make"], 1),
    (&["make", "m1", "lab", "hosts.byname"], 1),
    (&["make", "127.0.0.1:7", "", "hosts.byname"], 2),
    (&["make", "127.0.0.1:7", "lab"], 3),
    (&["make", "127.0.0.1:7", "lab", TOO_LONG], 3),
    (&["make", "127.0.0.1:7", "lab", "hosts.byname", "x"], 4),
    (&["orders"], 1),
    (&["orders", "lab"], 1),
    (&["orders", "127.0.0.1:7"], 2),
    (&["orders", "127.0.0.1:7", ""], 2),
    (&["orders", "127.0.0.1:7", TOO_LONG], 2),
    (&["orders", "127.0.0.1:7", "lab", "127.0.0.2:7"], 3),
    (&["orders", "127.0.0.1:7", "127.0.0.2:0", "lab"], 3),
    (&["orders", "127.0.0.1:7", "127.0.0.2:7", ""], 3),
    (&["orders", "127.0.0.1:7", "127.0.0.2:7", "lab", "x"], 4),
    (&["innetgr", "127.0.0.1:7", TOO_LONG, "a", "*", "*", "*"], 2),
    (&["innetgr", "127.0.0.1:7", "lab", "a", "*", "*"], 6),
    (
        &["innetgr", "127.0.0.1:7", "lab", "a", "*", "*", "*", "*"],
        7,
    ),
    (&["session", "m1"], 2),
    (&["session", "m1", "127.0.0.1:40000"], 3),
    (
        &["session", "m1", "127.0.0.1:40000", "m2@127.0.0.1:7001"],
        4,
    ),
    (&["session", "m1", "127.0.0.1:40000", "lab/a", "lab"], 4),
    (
        &[
            "session",
            "m1",
            "127.0.0.1:40000",
            "lab/a",
            "lab/b",
            "lab/a",
        ],
        5,
    ),
    (
        &["session", "m1", "127.0.0.1:40000", "lab/a", "@127.0.0.1:7"],
        4,
    ),
    (
        &["session", "m1", "127.0.0.1:40000", "lab/a", "m2@127.0.0.1"],
        4,
    ),
    (&["session", "m@1", "127.0.0.1:40000", "lab/a"], 1),
];

/// The same of transfers.
static WRONG_TRANSFERS: [Wrong; 9] = [
    (&["xfr"], 1),
    (&["xfr", ".s1"], 1),
    (&["xfr", "s1"], 2),
    (&["xfr", "s1", "older"], 2),
    (&["xfr", "s1", "newer", "lab"], 3),
    (&["xfr", "s1", "newer", "lab/hosts.byname"], 4),
    (
        &["xfr", "s1", "newer", "lab/hosts.byname", "m1@127.0.0.1"],
        4,
    ),
    (
        &[
            "xfr",
            "s1",
            "force",
            "lab/hosts.byname",
            "m1@127.0.0.1:700",
            "open",
        ],
        5,
    ),
    (
        &[
            "xfr",
            "s1",
            "force",
            "lab/hosts.byname",
            "m1@127.0.0.1:700",
            "plain",
            "x",
        ],
        6,
    ),
];

fn check_word(rt: &impl Abort, alloc: Global, words: &[&str], word: usize) {
    let owned = strings(rt, alloc, words);
    let came = is_session(alloc, &owned);
    assert_same(
        rt,
        &(words, came),
        &(words, Err(ParseFault::Usage { word })),
        "words that are no sentence",
    );
}

pub fn check_wrong(rt: &impl Abort, alloc: Global, rows: &[Wrong]) {
    for (words, word) in rows {
        check_word(rt, alloc, *words, *word);
    }
}

#[test]
fn wrong_addresses(rt: HostRuntime) {
    check_wrong(&rt, rt.alloc(), &WRONG_ADDRESSES);
}

#[test]
fn wrong_transfers(rt: HostRuntime) {
    check_wrong(&rt, rt.alloc(), &WRONG_TRANSFERS);
}

#[test]
fn wrong_words(rt: HostRuntime) {
    check_wrong(&rt, rt.alloc(), &WRONG);
}

/// A domain and a map, or a key and a value.
pub type Names<'a> = (&'a [u8], &'a [u8]);

pub fn names_of(store: &MapName) -> Names<'_> {
    (&store.domain, &store.map)
}

fn row_of(row: &KeyValue) -> Names<'_> {
    (&row.key, &row.value)
}

fn two_rows(command: &Command) -> Option<(Names<'_>, [Names<'_>; 2])> {
    match command {
        Command::Once { store, rows } => match rows.as_slice() {
            [first, second] => Some((names_of(store), [row_of(first), row_of(second)])),
            _ => None,
        },
        _ => None,
    }
}

#[test]
fn once_parsed(rt: HostRuntime) {
    let command = parsed(
        &rt,
        rt.alloc(),
        &["once", "lab/hosts.byname", "a=b=c", "x="],
    );
    let named: Names = (b"lab", b"hosts.byname");
    let rows: [Names; 2] = [(b"a", b"b=c"), (b"x", b"")];
    assert_same(&rt, &two_rows(&command), &Some((named, rows)), "once");
}

fn checked(command: &Command) -> Option<(&'static str, Names<'_>)> {
    match command {
        Command::Check { store } => Some(("check", names_of(store))),
        Command::Dump { store } => Some(("dump", names_of(store))),
        _ => None,
    }
}

fn check_checked(rt: &impl Abort, alloc: Global, said: &'static str) {
    let command = parsed(rt, alloc, &[said, "lab/nokind"]);
    let named: Names = (b"lab", b"nokind");
    assert_same(rt, &checked(&command), &Some((said, named)), said);
}

#[test]
fn check_and_dump_parsed(rt: HostRuntime) {
    check_checked(&rt, rt.alloc(), "check");
    check_checked(&rt, rt.alloc(), "dump");
}

/// The command, and the master, the map and the mark of a version to be built.
type Built<'a> = (&'static str, &'a [u8], Names<'a>, Option<bool>);

static BUILT: [(&[&str], Built); 8] = [
    (
        &["build", "m1", "lab/hosts.byname"],
        ("build", b"m1", (b"lab", b"hosts.byname"), None),
    ),
    (
        &["build", LONGEST, "lab/ypservers"],
        ("build", LONGEST_BYTES, (b"lab", b"ypservers"), None),
    ),
    (
        &["build", "m1", "lab/passwd.byuid", "secure"],
        ("build", b"m1", (b"lab", b"passwd.byuid"), Some(true)),
    ),
    (
        &["build", "build", "lab/netgroup", "plain"],
        ("build", b"build", (b"lab", b"netgroup"), Some(false)),
    ),
    (
        &["load", "m1", "lab/auto.home"],
        ("load", b"m1", (b"lab", b"auto.home"), None),
    ),
    (
        &["load", LONGEST, "lab/hosts.byname"],
        ("load", LONGEST_BYTES, (b"lab", b"hosts.byname"), None),
    ),
    (
        &["load", "m1", "lab/nokind", "secure"],
        ("load", b"m1", (b"lab", b"nokind"), Some(true)),
    ),
    (
        &["load", "load", "lab/netgroup", "plain"],
        ("load", b"load", (b"lab", b"netgroup"), Some(false)),
    ),
];

fn built(command: &Command) -> Option<Built<'_>> {
    match command {
        Command::Build { name, store, flag } => Some(("build", name, names_of(store), *flag)),
        Command::Load { name, store, flag } => Some(("load", name, names_of(store), *flag)),
        _ => None,
    }
}

fn check_built(rt: &impl Abort, alloc: Global, words: &[&str], wanted: Built) {
    let command = parsed(rt, alloc, words);
    let came = (words, built(&command));
    assert_same(rt, &came, &(words, Some(wanted)), "build or load");
}

#[test]
fn build_and_load_parsed(rt: HostRuntime) {
    for (words, wanted) in &BUILT {
        check_built(&rt, rt.alloc(), *words, *wanted);
    }
}

fn sampled(command: Command) -> Option<(u32, u32)> {
    match command {
        Command::Sample { start, count } => Some((start, count)),
        _ => None,
    }
}

#[test]
fn sample_parsed(rt: HostRuntime) {
    let command = parsed(&rt, rt.alloc(), &["sample", "4294967295", "0"]);
    let wanted = Some((4_294_967_295, 0));
    assert_same(&rt, &sampled(command), &wanted, "sample");
}

/// The address of a peer on port 700.
pub const PEER: Peer = Peer {
    addr: [127, 0, 0, 1],
    port: 700,
};

const FAR: Peer = Peer {
    addr: [10, 0, 0, 255],
    port: 65_535,
};

pub fn host_of(host: &HostWord) -> (&[u8], Peer) {
    (&host.name, host.peer)
}

/// The name of the host that answers and its caller, two maps, and two hosts.
type Session<'a> = ((&'a [u8], Peer), [Names<'a>; 2], [(&'a [u8], Peer); 2]);

fn two_and_two(command: &Command) -> Option<Session<'_>> {
    match command {
        Command::Session {
            name,
            addr,
            stores,
            hosts,
        } => match (stores.as_slice(), hosts.as_slice()) {
            ([first, second], [far, near]) => Some((
                (name, *addr),
                [names_of(first), names_of(second)],
                [host_of(far), host_of(near)],
            )),
            _ => None,
        },
        _ => None,
    }
}

static SESSION: [&str; 7] = [
    "session",
    "m1",
    "127.0.0.1:700",
    "lab/a",
    "m2@10.0.0.255:65535",
    "dom/a",
    "m2@127.0.0.1:700",
];

#[test]
fn session_parsed(rt: HostRuntime) {
    let command = parsed(&rt, rt.alloc(), &SESSION);
    let wanted: Session = (
        (b"m1", PEER),
        [(b"lab", b"a"), (b"dom", b"a")],
        [(b"m2", FAR), (b"m2", PEER)],
    );
    assert_same(&rt, &two_and_two(&command), &Some(wanted), "session");
}

/// The own name, whether it is forced, the map, its host, and the mark of a transfer.
pub type Transfer<'a> = (&'a [u8], bool, Names<'a>, (&'a [u8], Peer), Option<bool>);

static TRANSFERS: [(&[&str], Transfer); 3] = [
    (
        &["xfr", "s1", "newer", "lab/nokind", "m1@127.0.0.1:700"],
        (b"s1", false, (b"lab", b"nokind"), (b"m1", PEER), None),
    ),
    (
        &[
            "xfr",
            "s1",
            "force",
            "lab/a",
            "m2@10.0.0.255:65535",
            "secure",
        ],
        (b"s1", true, (b"lab", b"a"), (b"m2", FAR), Some(true)),
    ),
    (
        &[
            "xfr",
            "newer",
            "newer",
            "lab/a",
            "force@127.0.0.1:700",
            "plain",
        ],
        (
            b"newer",
            false,
            (b"lab", b"a"),
            (b"force", PEER),
            Some(false),
        ),
    ),
];

pub fn transfer_of(job: &XfrJob) -> Transfer<'_> {
    (
        &job.name,
        job.force,
        names_of(&job.store),
        host_of(&job.host),
        job.flag,
    )
}

fn transferred(command: &Command) -> Option<Transfer<'_>> {
    match command {
        Command::Xfr(job) => Some(transfer_of(job)),
        _ => None,
    }
}

fn check_transfer(rt: &impl Abort, alloc: Global, words: &[&str], wanted: Transfer) {
    let command = parsed(rt, alloc, words);
    let came = (words, transferred(&command));
    assert_same(rt, &came, &(words, Some(wanted)), "xfr");
}

#[test]
fn xfr_parsed(rt: HostRuntime) {
    for (words, wanted) in &TRANSFERS {
        check_transfer(&rt, rt.alloc(), *words, *wanted);
    }
}

/// The words of a session of this many maps.
fn session_of(rt: &impl Abort, alloc: Global, count: usize) -> Vec<String>
    requires { count ≤ 1000 }
{
    let mut words = strings(rt, alloc, &["session", "m1", "127.0.0.1:700"]);
    for i in 0..count {
        let map = format!(in alloc; "lab/m{i}").expect(rt, "memory for a word");
        words.push(map).expect(rt, "memory for words");
    }
    words
}

/// Whether the words of a session of this many maps are one, and how many files they name.
fn session_judged(rt: &impl Abort, alloc: Global, count: usize) -> (Result<bool, ParseFault>, usize)
    requires { count ≤ 1000 }
{
    let words = session_of(rt, alloc, count);
    let names = disk_names(alloc, &words).expect(rt, "memory for names");
    (is_session(alloc, &words), names.len())
}

#[test]
fn at_most_64_maps(rt: HostRuntime) {
    let judged = session_judged(&rt, rt.alloc(), 64);
    assert_same(&rt, &judged, &(Ok(true), 64), "64 maps");
    let (judged, _names) = session_judged(&rt, rt.alloc(), 65);
    assert_same(
        &rt,
        &judged,
        &Err(ParseFault::Usage { word: 67 }),
        "65 maps",
    );
}

/// What `revnet` is made of, and the maps whose files it reads or writes, in their order.
#[test]
fn revnet_parsed(rt: HostRuntime) {
    let words = ["revnet", "m1", "lab/netgroup.byhost"];
    let alloc = rt.alloc();
    let command = parsed(&rt, alloc, &words);
    let names = disk_names(alloc, &strings(&rt, alloc, &words)).expect(&rt, "memory");
    assert_same(&rt, &reversed(&command), &REVERSED, "what is made");
    assert_same(&rt, &two_of(&names), &READ, "the files");
}

/// The maps whose files `push` reads, in their order, and that it reads one alone where they are the same.
#[test]
fn push_files(rt: HostRuntime) {
    let alloc = rt.alloc();
    let words = strings(
        &rt,
        alloc,
        &["push", "m1", "7001", "3", "5", "lab/hosts.byname"],
    );
    let names = disk_names(alloc, &words).expect(&rt, "memory");
    assert_same(&rt, &two_of(&names), &PUSHED, "two files");
    let words = strings(
        &rt,
        alloc,
        &["push", "m1", "7001", "3", "5", "lab/ypservers"],
    );
    let names = disk_names(alloc, &words).expect(&rt, "memory");
    assert_same(&rt, &names.len(), &1, "one file");
}

const PUSHED: Option<(Names, Names)> = Some(((b"lab", b"hosts.byname"), (b"lab", b"ypservers")));

const REVERSED: Option<(&[u8], Names)> = Some((b"m1", (b"lab", b"netgroup.byhost")));

const READ: Option<(Names, Names)> = Some(((b"lab", b"netgroup.byhost"), (b"lab", b"netgroup")));

fn reversed(command: &Command) -> Option<(&[u8], Names<'_>)> {
    match command {
        Command::Revnet { name, store } => Some((name, names_of(store))),
        _ => None,
    }
}

fn two_of(names: &[MapName]) -> Option<(Names<'_>, Names<'_>)> {
    match names {
        [first, second] => Some((names_of(first), names_of(second))),
        _ => None,
    }
}

/// Words, and the map whose file their command reads or writes.
static NAMED: [(&[&str], Option<(&[u8], &[u8])>); 17] = [
    (&[], None),
    (&["frob"], None),
    (&["check", "lab"], None),
    (&["check", "lab/nokind"], Some((b"lab", b"nokind"))),
    (&["dump", "lab/nokind"], Some((b"lab", b"nokind"))),
    (&["dump", "lab"], None),
    (&["build", "m1", "lab/nokind"], None),
    (
        &["load", "m1", "lab/nokind", "plain"],
        Some((b"lab", b"nokind")),
    ),
    (&["load", "m1", "lab/nokind", "open"], None),
    (
        &["build", "m1", "lab/netgroup"],
        Some((b"lab", b"netgroup")),
    ),
    (
        &["build", "m1", "lab/netgroup", "plain"],
        Some((b"lab", b"netgroup")),
    ),
    (
        &["xfr", "s1", "newer", "lab/nokind", "m1@127.0.0.1:700"],
        Some((b"lab", b"nokind")),
    ),
    (&["once", "lab/hosts.byname", "a=b"], None),
    (&["cat", "127.0.0.1:700", "lab", "hosts.byname"], None),
    (&["orders", "127.0.0.1:700", "127.0.0.1:701", "lab"], None),
    (&["session", "m1", "127.0.0.1:700"], None),
    (
        &["session", "m1", "127.0.0.1:700", "m2@127.0.0.1:7", "lab/a"],
        Some((b"lab", b"a")),
    ),
];

fn first_of(names: &[MapName]) -> Option<Names<'_>> {
    match names {
        [first, ..] => Some(names_of(first)),
        [] => None,
    }
}

pub fn check_names(rt: &impl Abort, alloc: Global, words: &[&str], named: Option<Names>) {
    let owned = strings(rt, alloc, words);
    let names = disk_names(alloc, &owned).expect(rt, "memory for names");
    let came = (words, names.len(), first_of(&names));
    let wanted = (words, usize::from(named.is_some()), named);
    assert_same(rt, &came, &wanted, "words, and the map that they name");
}

#[test]
fn disks_named(rt: HostRuntime) {
    for (words, named) in &NAMED {
        check_names(&rt, rt.alloc(), *words, *named);
    }
}
