//! Walks under schedules of mail that is lost, repeated and reordered, and that comes from others. Calls and replies
//! are written out by hand, from RFC 5531 and yp.x.

ghost use Rattle.std.specs.Prelude.{◌≡◌, Ok};
ghost use Rattle.yp_transfer.specs.walk.Standings.{IsAsking};
ghost use Rattle.yp_transfer.specs.inside.walk.Walks.{WalkGoesOn, WalkIsDone};

use crate::given::{assert_same, bytes};
use std::alloc::Global;
use std::process::Abort;
use std::random::RandomSource;
use yp_io::Peer;
use yp_messages::YpStat;
use yp_transfer::walk::{Walk, Walked};
use yp_transfer::{FetchRequest, XfrFault};
use yp_version::Order;

const SOURCE: Peer = Peer {
    addr: [127, 0, 0, 1],
    port: 7001,
};

/// The same host at another port, and another host at the same port.
const OTHER_PORT: Peer = Peer {
    addr: [127, 0, 0, 1],
    port: 7002,
};

const OTHER_HOST: Peer = Peer {
    addr: [127, 0, 0, 2],
    port: 7001,
};

/// A mail: its sender, and its words.
type Mail<'a> = (Peer, [&'a str; 3]);

// The front of a reply that is SUCCESS, behind its number.
const SUCCESS: &str = "00000001 00000000 00000000 00000000 00000000";

const ORDER_100: &str = "00000001 00000064";

const MASTER_M1: &str = "00000001 00000002 6d310000";

// The row `alpha`, and one of the key `beta`.
const ALPHA: &str =
    "00000001 0000000e 31302e30 2e302e31 20616c70 68610000 00000005 616c7068 61000000";

const BETA: &str = "00000001 00000001 32000000 00000004 62657461";

const NOMORE: &str = "00000002 00000000 00000000";

const NOKEY: &str = "fffffffd 00000000 00000000";

// The replies of a source with the one row `alpha`.
const REPLY_1: Mail<'static> = (SOURCE, ["00000001", SUCCESS, ORDER_100]);

const REPLY_2: Mail<'static> = (SOURCE, ["00000002", SUCCESS, MASTER_M1]);

const REPLY_3: Mail<'static> = (SOURCE, ["00000003", SUCCESS, ALPHA]);

const REPLY_4: Mail<'static> = (SOURCE, ["00000004", SUCCESS, NOMORE]);

const REPLY_5: Mail<'static> = (SOURCE, ["00000005", SUCCESS, ORDER_100]);

// The body of that version, of order 100 and the master `m1`.
const BODY: &str = "00000001 00000064 00000002 6d310000 00000001 00000005 616c7068 61000000 \
    0000000e 31302e30 2e302e31 20616c70 68610000";

// How a walk ended, and the call that is then outstanding.
#[derive(Debug, PartialEq, Drop)]
enum End {
    /// It still asks, by a call of so many bytes.
    Asks(usize),
    /// The body of its version.
    Gives(Vec<u8>),
    Refuses(XfrFault),
}

// How many mails a walk ignored, how many led on, and its end, if there was one.
#[derive(Clone, Copy)]
struct Heard {
    ignored: usize,
    onward: usize,
    end: Option<Result<(), XfrFault>>,
}

// What a mail is to a walk.
fn hear<R: RandomSource + Abort>(
    rt: &R,
    alloc: Global,
    walk: &mut Walk,
    mail: &Mail<'_>,
) -> Result<Walked, XfrFault>
    requires { IsAsking walk.old.standing }
    ensures { WalkGoesOn result walk.new.standing }
{
    let (from, words) = *mail;
    let mail = bytes(rt, alloc, &words);
    walk.on_mail(rt, from, &mail)
}

fn hear_all<R: RandomSource + Abort>(
    rt: &R,
    alloc: Global,
    walk: &mut Walk,
    mails: &[Mail<'_>],
) -> Heard
    requires { IsAsking walk.old.standing }
    ensures done { result.end ≡ Some (Ok tt) → WalkIsDone walk.new.standing }
    ensures none { result.end ≡ None → IsAsking walk.new.standing }
{
    let mut heard = Heard {
        ignored: 0,
        onward: 0,
        end: None,
    };
    for mail in mails {
        match hear(rt, alloc, walk, mail) {
            Ok(Walked::Ignored) => heard.ignored = heard.ignored.saturating_add(1),
            Ok(Walked::Onward) => heard.onward = heard.onward.saturating_add(1),
            Ok(Walked::Done) => {
                heard.end = Some(Ok(()));
                return heard;
            }
            Err(fault) => {
                heard.end = Some(Err(fault));
                return heard;
            }
        }
    }
    heard
}

// The body of the version of a walk that is done.
fn body_of<R: Abort>(rt: &R, alloc: Global, walk: Walk) -> End
    requires { WalkIsDone walk.standing }
{
    match walk.finish() {
        Ok(version) => End::Gives(version.body().to_vec(alloc).expect(rt, "a body")),
        Err(fault) => End::Refuses(fault),
    }
}

// How many of these mails a walk ignores, how many lead on, and its end.
fn come_of<R: RandomSource + Abort>(
    rt: &R,
    alloc: Global,
    walk: Walk,
    mails: &[Mail<'_>],
) -> (usize, usize, End)
    requires { IsAsking walk.standing }
{
    let mut walk = walk;
    let heard = hear_all(rt, alloc, &mut walk, mails);
    let end = match heard.end {
        None => asks(&walk),
        Some(Ok(())) => body_of(rt, alloc, walk),
        Some(Err(fault)) => End::Refuses(fault),
    };
    (heard.ignored, heard.onward, end)
}

// The call by which a walk asks.
fn asks(walk: &Walk) -> End {
    let mut buf = [0; 8_192];
    End::Asks(walk.ask(&mut buf))
}

// A walk over `hosts.byname` of `lab`.
fn hosts_walk<R: Abort>(rt: &R, alloc: Global, shown: Option<Order>, force: bool) -> Walk
    ensures { IsAsking result.standing }
{
    let request = FetchRequest {
        domain: b"lab",
        map: b"hosts.byname",
        shown,
        force,
    };
    Walk::new(alloc, SOURCE, &request).expect(rt, "a walk")
}

// How a walk should end: asking, with a body of these words, or refused.
#[derive(Clone, Copy)]
enum Wanted {
    Asks(usize),
    Gives(&'static str),
    Refuses(XfrFault),
}

fn end_of<R: Abort>(rt: &R, alloc: Global, wanted: Wanted) -> End {
    match wanted {
        Wanted::Asks(len) => End::Asks(len),
        Wanted::Gives(words) => End::Gives(bytes(rt, alloc, &[words])),
        Wanted::Refuses(fault) => End::Refuses(fault),
    }
}

// The mails to a walk where nothing is shown, how many of them are ignored and lead on, and the end.
struct Row {
    name: &'static str,
    mails: &'static [Mail<'static>],
    ignored: usize,
    onward: usize,
    end: Wanted,
}

fn check_row<R: RandomSource + Abort>(rt: &R, alloc: Global, row: &Row) {
    let wanted = (row.ignored, row.onward, end_of(rt, alloc, row.end));
    let walk = hosts_walk(rt, alloc, None, false);
    let came = come_of(rt, alloc, walk, row.mails);
    assert_same(rt, &came, &wanted, row.name);
}

fn check_rows<R: RandomSource + Abort>(rt: &R, alloc: Global, rows: &[Row]) {
    for row in rows {
        check_row(rt, alloc, row);
    }
}

const SKEW: XfrFault = XfrFault::Skew {
    first: 100,
    second: 101,
};

const ORDER_101: &str = "00000001 00000065";

// A whole walk.
static WALKED: [Row; 3] = [
    Row {
        name: "a map of one row",
        mails: &[
            REPLY_1, REPLY_1, REPLY_2, REPLY_3, REPLY_3, REPLY_4, REPLY_5,
        ],
        ignored: 2,
        onward: 4,
        end: Wanted::Gives(BODY),
    },
    Row {
        name: "without the last reply",
        mails: &[REPLY_1, REPLY_1, REPLY_2, REPLY_3, REPLY_3, REPLY_4],
        ignored: 2,
        onward: 4,
        end: Wanted::Asks(64),
    },
    Row {
        name: "another order in the last reply",
        mails: &[
            REPLY_1,
            REPLY_1,
            REPLY_2,
            REPLY_3,
            REPLY_3,
            REPLY_4,
            (SOURCE, ["00000005", SUCCESS, ORDER_101]),
        ],
        ignored: 2,
        onward: 4,
        end: Wanted::Refuses(SKEW),
    },
];

#[test]
fn walked(rt: HostRuntime) {
    check_rows(&rt, rt.alloc(), &WALKED);
}

// What the network does.
static SCHEDULES: [Row; 7] = [
    Row {
        name: "each reply twice",
        mails: &[
            REPLY_1, REPLY_1, REPLY_2, REPLY_2, REPLY_3, REPLY_3, REPLY_4, REPLY_4, REPLY_5,
        ],
        ignored: 4,
        onward: 4,
        end: Wanted::Gives(BODY),
    },
    Row {
        name: "a reply before its call",
        mails: &[
            REPLY_2, REPLY_1, REPLY_3, REPLY_2, REPLY_5, REPLY_3, REPLY_4, REPLY_5,
        ],
        ignored: 3,
        onward: 4,
        end: Wanted::Gives(BODY),
    },
    Row {
        name: "all replies late, and again",
        mails: &[
            REPLY_5, REPLY_4, REPLY_3, REPLY_2, REPLY_1, REPLY_1, REPLY_2, REPLY_1, REPLY_3,
            REPLY_2, REPLY_4, REPLY_3, REPLY_5,
        ],
        ignored: 8,
        onward: 4,
        end: Wanted::Gives(BODY),
    },
    Row {
        name: "replies of other peers",
        mails: &[
            (OTHER_PORT, ["00000001", SUCCESS, ORDER_101]),
            (OTHER_HOST, ["00000001", SUCCESS, ORDER_101]),
            REPLY_1,
            (OTHER_HOST, ["00000002", SUCCESS, NOMORE]),
            REPLY_2,
            REPLY_3,
            (OTHER_PORT, ["00000004", SUCCESS, BETA]),
            REPLY_4,
            REPLY_5,
        ],
        ignored: 4,
        onward: 4,
        end: Wanted::Gives(BODY),
    },
    Row {
        name: "a call, and mails without two words",
        mails: &[
            (
                SOURCE,
                ["00000001 00000000", "00000002 000186a4", "00000002"],
            ),
            (SOURCE, ["00000001 000000", "", ""]),
            (SOURCE, ["", "", ""]),
            REPLY_1,
        ],
        ignored: 3,
        onward: 1,
        end: Wanted::Asks(64),
    },
    Row {
        name: "rows in another order",
        mails: &[
            REPLY_1,
            REPLY_2,
            (SOURCE, ["00000003", SUCCESS, BETA]),
            (SOURCE, ["00000004", SUCCESS, ALPHA]),
            (SOURCE, ["00000005", SUCCESS, NOMORE]),
            (SOURCE, ["00000006", SUCCESS, ORDER_100]),
        ],
        ignored: 0,
        onward: 5,
        end: Wanted::Gives(
            "00000001 00000064 00000002 6d310000 00000002 00000005 616c7068 61000000 \
            0000000e 31302e30 2e302e31 20616c70 68610000 00000004 62657461 00000001 32000000",
        ),
    },
    Row {
        name: "no rows",
        mails: &[
            REPLY_1,
            REPLY_2,
            (SOURCE, ["00000003", SUCCESS, NOMORE]),
            (SOURCE, ["00000004", SUCCESS, ORDER_100]),
        ],
        ignored: 0,
        onward: 3,
        end: Wanted::Gives("00000001 00000064 00000002 6d310000 00000000"),
    },
];

#[test]
fn any_schedule(rt: HostRuntime) {
    check_rows(&rt, rt.alloc(), &SCHEDULES);
}

// Rows that a map doesn't have at the end: the order decides what that means.
static LOST_ROWS: [Row; 5] = [
    Row {
        name: "a row twice, and the same order",
        mails: &[
            REPLY_1,
            REPLY_2,
            REPLY_3,
            (SOURCE, ["00000004", SUCCESS, ALPHA]),
            REPLY_5,
        ],
        ignored: 0,
        onward: 4,
        end: Wanted::Refuses(XfrFault::Xfrerr { at: 0 }),
    },
    Row {
        name: "a row twice, and another order",
        mails: &[
            REPLY_1,
            REPLY_2,
            REPLY_3,
            (SOURCE, ["00000004", SUCCESS, BETA]),
            (SOURCE, ["00000005", SUCCESS, ALPHA]),
            (SOURCE, ["00000006", SUCCESS, ORDER_101]),
        ],
        ignored: 0,
        onward: 5,
        end: Wanted::Refuses(SKEW),
    },
    Row {
        name: "NOKEY, and the same order",
        mails: &[
            REPLY_1,
            REPLY_2,
            REPLY_3,
            (SOURCE, ["00000004", SUCCESS, NOKEY]),
            REPLY_5,
        ],
        ignored: 0,
        onward: 4,
        end: Wanted::Refuses(XfrFault::Yperr {
            stat: Some(YpStat::Nokey),
        }),
    },
    Row {
        name: "NOKEY, and another order",
        mails: &[
            REPLY_1,
            REPLY_2,
            REPLY_3,
            (SOURCE, ["00000004", SUCCESS, NOKEY]),
            (SOURCE, ["00000005", SUCCESS, ORDER_101]),
        ],
        ignored: 0,
        onward: 4,
        end: Wanted::Refuses(SKEW),
    },
    Row {
        name: "NOKEY to FIRST",
        mails: &[REPLY_1, REPLY_2, (SOURCE, ["00000003", SUCCESS, NOKEY])],
        ignored: 0,
        onward: 2,
        end: Wanted::Refuses(XfrFault::Yperr {
            stat: Some(YpStat::Nokey),
        }),
    },
];

#[test]
fn lost_rows(rt: HostRuntime) {
    check_rows(&rt, rt.alloc(), &LOST_ROWS);
}

// Other refusals, each by the mail that it comes with.
static REFUSED: [Row; 8] = [
    Row {
        name: "no such map",
        mails: &[(SOURCE, ["00000001", SUCCESS, "ffffffff 00000000"])],
        ignored: 0,
        onward: 0,
        end: Wanted::Refuses(XfrFault::Nomap),
    },
    Row {
        name: "no such domain",
        mails: &[
            REPLY_1,
            (SOURCE, ["00000002", SUCCESS, "fffffffe 00000000"]),
        ],
        ignored: 0,
        onward: 1,
        end: Wanted::Refuses(XfrFault::Nodom),
    },
    Row {
        name: "refused by RPC",
        mails: &[(
            SOURCE,
            ["00000001", "00000001 00000001", "00000001 00000002"],
        )],
        ignored: 0,
        onward: 0,
        end: Wanted::Refuses(XfrFault::Yperr { stat: None }),
    },
    Row {
        name: "rows that aren't shown to this caller",
        mails: &[
            REPLY_1,
            REPLY_2,
            (SOURCE, ["00000003", SUCCESS, "fffffffa 00000000 00000000"]),
        ],
        ignored: 0,
        onward: 2,
        end: Wanted::Refuses(XfrFault::Yperr {
            stat: Some(YpStat::Yperr),
        }),
    },
    Row {
        name: "a master without a name",
        mails: &[
            REPLY_1,
            (SOURCE, ["00000002", SUCCESS, "00000001 00000000"]),
        ],
        ignored: 0,
        onward: 1,
        end: Wanted::Refuses(XfrFault::Dbm),
    },
    Row {
        name: "an order that isn't whole",
        mails: &[(SOURCE, ["00000001", SUCCESS, "00000001 0000"])],
        ignored: 0,
        onward: 0,
        end: Wanted::Refuses(XfrFault::Xfrerr { at: 28 }),
    },
    Row {
        name: "two words alone",
        mails: &[(SOURCE, ["00000001", "00000001", ""])],
        ignored: 0,
        onward: 0,
        end: Wanted::Refuses(XfrFault::Xfrerr { at: 8 }),
    },
    Row {
        name: "padding that isn't zero",
        mails: &[
            REPLY_1,
            REPLY_2,
            (
                SOURCE,
                ["00000003", SUCCESS, "00000001 00000001 32000001 00000000"],
            ),
        ],
        ignored: 0,
        onward: 2,
        end: Wanted::Refuses(XfrFault::Xfrerr { at: 35 }),
    },
];

#[test]
fn refused(rt: HostRuntime) {
    check_rows(&rt, rt.alloc(), &REFUSED);
}

const OLDER: XfrFault = XfrFault::Age {
    shown: 100,
    offered: 100,
};

// What is shown, whether the walk is forced, and its end behind the first reply.
type Shown = (&'static str, u32, bool, Wanted);

static SHOWN: [Shown; 4] = [
    ("an older one is shown", 99, false, Wanted::Asks(64)),
    ("the same is shown", 100, false, Wanted::Refuses(OLDER)),
    ("the same, forced", 100, true, Wanted::Asks(64)),
    ("a newer one, forced", 101, true, Wanted::Asks(64)),
];

fn check_shown<R: RandomSource + Abort>(rt: &R, alloc: Global, row: &Shown) {
    let (name, shown, force, end) = *row;
    let wanted = end_of(rt, alloc, end);
    let walk = hosts_walk(rt, alloc, Some(Order(shown)), force);
    let (_, _, came) = come_of(rt, alloc, walk, &[REPLY_1]);
    assert_same(rt, &came, &wanted, name);
}

#[test]
fn age_and_force(rt: HostRuntime) {
    for row in &SHOWN {
        check_shown(&rt, rt.alloc(), row);
    }
}

// The calls, each with the mails that it comes behind.
const FRONT: &str = "00000000 00000002 000186a4 00000002";

const BEHIND: &str =
    "00000000 00000000 00000000 00000000 00000003 6c616200 0000000c 686f7374 732e6279 6e616d65";

static CALLS: [(&[Mail<'static>], [&str; 5]); 5] = [
    (&[], ["00000001", FRONT, "0000000a", BEHIND, ""]),
    (&[REPLY_1], ["00000002", FRONT, "00000009", BEHIND, ""]),
    (
        &[REPLY_1, REPLY_2],
        ["00000003", FRONT, "00000004", BEHIND, ""],
    ),
    (
        &[REPLY_1, REPLY_2, REPLY_3],
        [
            "00000004",
            FRONT,
            "00000005",
            BEHIND,
            "00000005 616c7068 61000000",
        ],
    ),
    (
        &[REPLY_1, REPLY_2, REPLY_3, REPLY_4],
        ["00000005", FRONT, "0000000a", BEHIND, ""],
    ),
];

// Ends the test where a walk doesn't ask by these words, behind these mails.
fn check_call<R: RandomSource + Abort>(
    rt: &R,
    alloc: Global,
    mails: &[Mail<'_>],
    words: &[&str; 5],
) {
    let call = bytes(rt, alloc, words);
    let mut walk = hosts_walk(rt, alloc, None, false);
    let _heard = hear_all(rt, alloc, &mut walk, mails);
    let mut buf = [0; 8_192];
    let len = walk.ask(&mut buf);
    assert_same(rt, &buf.get(..len), &Some(call.as_slice()), words[0]);
}

#[test]
fn calls_asked(rt: HostRuntime) {
    for (mails, words) in &CALLS {
        check_call(&rt, rt.alloc(), *mails, words);
    }
}

// The words of a row with a key of so many bytes, multiples of four, and no value.
fn long_row<R: Abort>(rt: &R, alloc: Global, len: u32) -> String {
    let key = "00".repeat(alloc, len as usize).expect(rt, "a key");
    format!(in alloc; "00000001 00000000 {len:08x} {key}").expect(rt, "a row")
}

fn check_long<R: RandomSource + Abort>(rt: &R, alloc: Global, len: u32, end: Wanted) {
    let row = long_row(rt, alloc, len);
    let wanted = end_of(rt, alloc, end);
    let walk = hosts_walk(rt, alloc, None, false);
    let mails = [REPLY_1, REPLY_2, (SOURCE, ["00000003", SUCCESS, &row])];
    let (_, _, came) = come_of(rt, alloc, walk, &mails);
    assert_same(rt, &came, &wanted, "a long key");
}

#[test]
fn longest_key(rt: HostRuntime) {
    check_long(&rt, rt.alloc(), 8_124, Wanted::Asks(8_192));
    check_long(&rt, rt.alloc(), 8_128, Wanted::Refuses(XfrFault::Dbm));
}

fn check_empty<R: Abort>(rt: &R, alloc: Global, domain: &[u8], map: &[u8]) {
    assert!(rt; domain.len() <= 64);
    assert!(rt; map.len() <= 64);
    let request = FetchRequest {
        domain,
        map,
        shown: None,
        force: false,
    };
    let fault = Walk::new(alloc, SOURCE, &request).err();
    assert_same(rt, &fault, &Some(XfrFault::Badargs), "an empty name");
}

#[test]
fn empty_names(rt: HostRuntime) {
    check_empty(&rt, rt.alloc(), b"", b"hosts.byname");
    check_empty(&rt, rt.alloc(), b"lab", b"");
}
