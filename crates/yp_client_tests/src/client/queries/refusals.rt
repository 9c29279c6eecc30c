//! Replies that refuse, and such as no server sends: nothing is printed of them.

use crate::client::asked::{FAIR, Fixed, ask};
use crate::client::queries::questions::{ALPHA, CAT, CATK, MAKE, MAPS, POLL, PULL, WHICH};
use crate::given::{assert_same, bytes};
use std::alloc::Global;
use std::process::Abort;
use std::random::RandomSource;
use yp_client::ClientFault;
use yp_client::query::QueryFault;
use yp_messages::YpStat;
use yp_rpc::ReplyHead;

const ORDER_REPLY: &str =
    "80000020 00000001 00000001 00000000 00000000 00000000 00000000 00000001 00000064";

const NOKEY_REPLY: &str =
    "80000020 00000001 00000001 00000000 00000000 00000000 00000000 fffffffd 00000000";

const NOMAP_REPLY: &str =
    "80000020 00000001 00000001 00000000 00000000 00000000 00000000 ffffffff 00000000";

const OTHER_REPLY: &str =
    "80000020 00000009 00000001 00000000 00000000 00000000 00000000 00000001 00000064";

const DENIED_REPLY: &str = "80000014 00000001 00000001 00000001 00000001 00000002";

const NOMAP_ROWS_REPLY: &str = "8000002c 00000001 00000001 00000000 00000000 00000000 00000000 \
    00000001 ffffffff 00000000 00000000 00000000";

/// The front of a reply with three rows.
const TORN_REPLY: &str = "80000064 00000001 00000001 00000000 00000000 00000000 00000000 \
    00000001 00000001 00000001 32000000 00000001 62000000 00000001 00000001 00000001 31000000 00000001 61000000 \
    00000001 00000001 00000001 33";

const NO_MAP: QueryFault = QueryFault::Client(ClientFault::Yp(YpStat::Nomap));

const NO_KEY: QueryFault = QueryFault::Client(ClientFault::Yp(YpStat::Nokey));

const DENIED: QueryFault = QueryFault::Client(ClientFault::Denied(ReplyHead::AuthError {
    stat: 2,
}));

const OTHER_XID: QueryFault = QueryFault::Client(ClientFault::BadXid { want: 1, got: 9 });

/// Input ended in the first reply, and behind that of ORDER.
const TORN: QueryFault = QueryFault::Client(ClientFault::Torn { at: 0 });

const TORN_BEHIND_ORDER: QueryFault = QueryFault::Client(ClientFault::Torn { at: 36 });

/// A status that no transfer has, and a reply that ends before its status.
const NO_STATUS: &str =
    "80000020 00000001 00000001 00000000 00000000 00000000 00000000 00000000 00000003";

const SHORT_REPLY: &str = "8000001c 00000001 00000001 00000000 00000000 00000000 00000000 00000000";

const BAD_STATUS: QueryFault = QueryFault::Client(ClientFault::BadReply { at: 28 });

/// The same of a map that is made.
const NOT_MADE: &str = "8000001c 00000001 00000001 00000000 00000000 00000000 00000000 00000003";

const BAD_MADE: QueryFault = QueryFault::Client(ClientFault::BadReply { at: 24 });

/// The question, the input, the fault, and how many bytes were sent. A call has 68 bytes, 80 with the key, 92 of XFR.
type Refusal = (&'static str, Fixed, &'static str, QueryFault, usize);

static REFUSALS: [Refusal; 19] = [
    ("CAT, no map", CAT, NOMAP_ROWS_REPLY, NO_MAP, 68),
    ("CATK, torn", CATK, TORN_REPLY, TORN, 68),
    ("MATCH, no key", ALPHA, NOKEY_REPLY, QueryFault::NoKey, 80),
    ("MATCH, no map", ALPHA, NOMAP_REPLY, NO_MAP, 80),
    ("WHICH, no key", WHICH, NOKEY_REPLY, NO_KEY, 68),
    ("POLL, no map", POLL, NOMAP_REPLY, NO_MAP, 68),
    ("POLL, torn", POLL, ORDER_REPLY, TORN_BEHIND_ORDER, 136),
    ("POLL, other reply", POLL, OTHER_REPLY, OTHER_XID, 68),
    ("MAPS, torn", MAPS, "", TORN, 52),
    ("MAPS, denied", MAPS, DENIED_REPLY, DENIED, 52),
    ("MAPS, no key", MAPS, NOKEY_REPLY, NO_KEY, 52),
    ("PULL, torn", PULL, "", TORN, 92),
    ("PULL, denied", PULL, DENIED_REPLY, DENIED, 92),
    ("PULL, other reply", PULL, OTHER_REPLY, OTHER_XID, 92),
    ("PULL, no such status", PULL, NO_STATUS, BAD_STATUS, 92),
    ("PULL, no status", PULL, SHORT_REPLY, BAD_STATUS, 92),
    ("MAKE, torn", MAKE, "", TORN, 68),
    ("MAKE, denied", MAKE, DENIED_REPLY, DENIED, 68),
    ("MAKE, no such status", MAKE, NOT_MADE, BAD_MADE, 68),
];

fn try_refusal<R: RandomSource + Abort>(rt: &R, alloc: Global, refusal: &Refusal) {
    let (row, question, input, fault, sent) = refusal;
    let input = bytes(rt, alloc, &[*input]);
    let asked = ask(rt, alloc, question, input, 4, &FAIR);
    let came = (asked.0, asked.1, asked.2.len(), asked.3.len());
    assert_same(rt, &came, &(Err(*fault), 1, *sent, 0), *row);
}

#[test]
fn refusals_print_nothing(rt: HostRuntime) {
    for refusal in &REFUSALS {
        try_refusal(&rt, rt.alloc(), refusal);
    }
}
