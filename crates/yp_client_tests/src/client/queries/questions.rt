//! The questions that are asked, and whom each asks.

use crate::client::asked::{Fixed, SERVER, asked_peer};
use crate::given::assert_same;
use yp_client::Question;
use yp_io::Peer;

pub const CAT: Fixed = Question::Cat {
    domain: b"lab",
    map: b"hosts.byname",
};

pub const CATK: Fixed = Question::Catk {
    domain: b"lab",
    map: b"hosts.byname",
};

pub const ALPHA: Fixed = Question::Match {
    domain: b"lab",
    map: b"hosts.byname",
    key: b"alpha",
};

pub const WHICH: Fixed = Question::Which {
    domain: b"lab",
    map: b"hosts.byname",
};

pub const POLL: Fixed = Question::Poll {
    domain: b"lab",
    map: b"hosts.byname",
};

pub const MAPS: Fixed = Question::Maps { domain: b"lab" };

pub const PULL: Fixed = Question::Pull {
    domain: b"lab",
    map: b"hosts.byname",
    source: b"m1",
};

pub const MAKE: Fixed = Question::Make {
    domain: b"lab",
    map: b"hosts.byname",
};

/// The call of XFR for `hosts.byname` in `lab` from `m1`: order, transaction, program and port are 0.
pub const PULL_CALL: &str =
    "80000058 00000001 00000000 00000002 000186a4 00000002 00000006 00000000 00000000 \
    00000000 00000000 00000003 6c616200 0000000c 686f7374 732e6279 6e616d65 00000000 00000002 6d310000 \
    00000000 00000000 00000000";

pub const ALPHA_REPLY: &str =
    "80000030 00000001 00000001 00000000 00000000 00000000 00000000 00000001 \
    0000000e 31302e30 2e302e31 20616c70 68610000";

const OTHER_SERVER: Peer = Peer {
    addr: [192, 168, 7, 254],
    port: 65_535,
};

static QUESTIONS: [(&str, Fixed); 8] = [
    ("CAT", CAT),
    ("CATK", CATK),
    ("MATCH", ALPHA),
    ("WHICH", WHICH),
    ("POLL", POLL),
    ("MAPS", MAPS),
    ("PULL", PULL),
    ("MAKE", MAKE),
];

#[test]
fn server_that_is_asked(rt: HostRuntime) {
    for (row, question) in &QUESTIONS {
        let own = asked_peer(&rt, rt.alloc(), question, SERVER);
        let other = asked_peer(&rt, rt.alloc(), question, OTHER_SERVER);
        assert_same(
            &rt,
            &(own, other),
            &(Some(SERVER), Some(OTHER_SERVER)),
            *row,
        );
    }
}
