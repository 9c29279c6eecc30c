//! Netgroups by users and by hosts that a session makes by their name: of the netgroups that are shown, as revnet makes
//! them of those that stand.

use crate::given::try_rows;
use crate::storing::source::{
    BY_USER_FILE, HOSTS_FILE, LAST_ORDER_FILE, NETGROUP_FILE, SECURE_FILE,
};
use yp_stage::{FAIR, Row, Words};

/// The map of the users, the netgroups behind it, and a caller on the own host.
const USERS: Words = &[
    "session",
    "m1",
    "127.0.0.1:40000",
    "lab/netgroup.byuser",
    "lab/netgroup",
];

/// The making of the netgroups by users by their name, number 1, and that by hosts.
const MAKE_USERS: &str = "80000044 00000001 00000000 00000002 20004e49 00000001 00000002
    00000000 00000000 00000000 00000000
    00000003 6c616200 0000000f 6e657467 726f7570 2e627975 73657200";

const MAKE_HOSTS: &str = "80000044 00000001 00000000 00000002 20004e49 00000001 00000002
    00000000 00000000 00000000 00000000
    00000003 6c616200 0000000f 6e657467 726f7570 2e627968 6f737400";

/// MATCH of `joe.*` in the netgroups by users, number 2.
const MATCH_JOE: &str = "80000050 00000002 00000000 00000002 000186a4 00000002 00000003
    00000000 00000000 00000000 00000000
    00000003 6c616200 0000000f 6e657467 726f7570 2e627975 73657200 00000005 6a6f652e 2a000000";

/// Replies of the make program to call 1: SUCC, AGE, NOMAP and REFUSED.
const MADE: &str = "8000001c 00000001 00000001 00000000 00000000 00000000 00000000 00000001";

const AGED: &str = "8000001c 00000001 00000001 00000000 00000000 00000000 00000000 00000002";

const NO_NETGROUPS: &str =
    "8000001c 00000001 00000001 00000000 00000000 00000000 00000000 ffffffff";

const REFUSED: &str = "8000001c 00000001 00000001 00000000 00000000 00000000 00000000 fffffff2";

/// Replies to MATCH: the groups of `joe`, and no such map.
const GROUPS: &str = "80000024 00000002 00000001 00000000 00000000 00000000 00000000
    00000001 00000003 612c6200";

const UNSHOWN: &str =
    "80000020 00000002 00000001 00000000 00000000 00000000 00000000 ffffffff 00000000";

/// Made, then matched. The groups name each other in a circle, and there is no text.
const FIRST: Row = Row {
    name: "users, then match",
    words: USERS,
    input: &[MAKE_USERS, MATCH_JOE],
    other: NETGROUP_FILE,
    replies: &[MADE, GROUPS],
    stands: Some((500, 1, false)),
    left: BY_USER_FILE,
    ..FAIR
};

/// Nothing is made.
const UNMADE: Row = Row {
    name: "for another host",
    words: &[
        "session",
        "m1",
        "10.0.0.9:700",
        "lab/netgroup.byuser",
        "lab/netgroup",
    ],
    replies: &[REFUSED, UNSHOWN],
    stands: None,
    left: &[],
    ..FIRST
};

static ROWS: [Row; 9] = [
    FIRST,
    UNMADE,
    Row {
        name: "no hosts",
        words: &[
            "session",
            "m1",
            "127.0.0.1:40000",
            "lab/netgroup.byhost",
            "lab/netgroup",
        ],
        input: &[MAKE_HOSTS],
        replies: &[MADE],
        stands: Some((500, 0, false)),
        torn: true,
        ..FIRST
    },
    Row {
        name: "behind a secure version",
        file: SECURE_FILE,
        input: &[MAKE_USERS],
        replies: &[MADE],
        stands: Some((500, 1, true)),
        torn: true,
        ..FIRST
    },
    Row {
        name: "nothing is shown of the netgroups, whatever their text is",
        words: USERS,
        other: &[],
        sources: &[("netgroup", "a (-,joe,)\n"), ("netgroup.byuser", "a b\n")],
        replies: &[NO_NETGROUPS, UNSHOWN],
        ..UNMADE
    },
    Row {
        name: "the netgroups aren't served",
        words: &["session", "m1", "127.0.0.1:40000", "lab/netgroup.byuser"],
        other: &[],
        replies: &[NO_NETGROUPS, UNSHOWN],
        ..UNMADE
    },
    Row {
        name: "the netgroups are another domain's",
        words: &[
            "session",
            "m1",
            "127.0.0.1:40000",
            "lab/netgroup.byuser",
            "lan/netgroup",
        ],
        replies: &[NO_NETGROUPS, UNSHOWN],
        ..UNMADE
    },
    Row {
        name: "another master, before netgroups that aren't shown",
        words: &[
            "session",
            "m2",
            "127.0.0.1:40000",
            "lab/netgroup.byuser",
            "lab/netgroup",
        ],
        input: &[MAKE_USERS],
        file: HOSTS_FILE,
        other: &[],
        replies: &[REFUSED],
        stands: Some((100, 1, false)),
        left: HOSTS_FILE,
        ..UNMADE
    },
    Row {
        name: "a spent order",
        words: USERS,
        input: &[MAKE_USERS],
        file: LAST_ORDER_FILE,
        replies: &[AGED],
        stands: Some((4_294_967_295, 1, false)),
        left: LAST_ORDER_FILE,
        ..UNMADE
    },
];

#[test]
fn netgroups_made_by_name(rt: HostRuntime) {
    try_rows(&rt, rt.alloc(), &ROWS);
}
