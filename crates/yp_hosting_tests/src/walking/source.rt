//! A source with the one row `alpha`: the calls to it and its replies, written out by hand from RFC 5531 and yp.x; and
//! files of its version.

use yp_io::Peer;
use yp_stage::Datagram;

pub const SOURCE: Peer = Peer {
    addr: [127, 0, 0, 1],
    port: 7_001,
};

/// Another port of the same host.
pub const OTHER: Peer = Peer {
    addr: [127, 0, 0, 1],
    port: 7_002,
};

/// The arguments of all calls but NEXT: the domain `lab` and the map `hosts.byname`.
const MAP: &str = "00000003 6c616200 0000000c 686f7374 732e6279 6e616d65";

/// The front of a reply that is SUCCESS, behind its number.
const SUCCESS: &str = "00000001 00000000 00000000 00000000 00000000";

/// ORDER, MASTER, FIRST, NEXT behind `alpha`, and ORDER.
pub const CALL_1: Datagram = Datagram {
    peer: SOURCE,
    bytes: &[
        "00000001 00000000 00000002 000186a4 00000002 0000000a 00000000 00000000 00000000 00000000",
        MAP,
    ],
};

pub const CALL_2: Datagram = Datagram {
    peer: SOURCE,
    bytes: &[
        "00000002 00000000 00000002 000186a4 00000002 00000009 00000000 00000000 00000000 00000000",
        MAP,
    ],
};

pub const CALL_3: Datagram = Datagram {
    peer: SOURCE,
    bytes: &[
        "00000003 00000000 00000002 000186a4 00000002 00000004 00000000 00000000 00000000 00000000",
        MAP,
    ],
};

pub const CALL_4: Datagram = Datagram {
    peer: SOURCE,
    bytes: &[
        "00000004 00000000 00000002 000186a4 00000002 00000005 00000000 00000000 00000000 00000000",
        MAP,
        "00000005 616c7068 61000000",
    ],
};

pub const CALL_5: Datagram = Datagram {
    peer: SOURCE,
    bytes: &[
        "00000005 00000000 00000002 000186a4 00000002 0000000a 00000000 00000000 00000000 00000000",
        MAP,
    ],
};

/// Order 100, the master `m1`, the row, YP_NOMORE, and order 100 again.
pub const REPLY_1: Datagram = Datagram {
    peer: SOURCE,
    bytes: &["00000001", SUCCESS, "00000001 00000064"],
};

pub const REPLY_2: Datagram = Datagram {
    peer: SOURCE,
    bytes: &["00000002", SUCCESS, "00000001 00000002 6d310000"],
};

pub const REPLY_3: Datagram = Datagram {
    peer: SOURCE,
    bytes: &[
        "00000003",
        SUCCESS,
        "00000001 0000000e 31302e30 2e302e31 20616c70 68610000 00000005 616c7068 61000000",
    ],
};

pub const REPLY_4: Datagram = Datagram {
    peer: SOURCE,
    bytes: &["00000004", SUCCESS, "00000002 00000000 00000000"],
};

pub const REPLY_5: Datagram = Datagram {
    peer: SOURCE,
    bytes: &["00000005", SUCCESS, "00000001 00000064"],
};

/// Order 101 in its place.
pub const LATER_5: Datagram = Datagram {
    peer: SOURCE,
    bytes: &["00000005", SUCCESS, "00000001 00000065"],
};

/// The first reply from another port, with order 1.
pub const FOREIGN_1: Datagram = Datagram {
    peer: OTHER,
    bytes: &["00000001", SUCCESS, "00000001 00000001"],
};

/// No such map.
pub const NOMAP_1: Datagram = Datagram {
    peer: SOURCE,
    bytes: &["00000001", SUCCESS, "ffffffff 00000000"],
};

/// The cells of a file: the first is open, with generation 1 and a body of 52 bytes at 64.
const CELLS: &str = "01000000 00000000 00000000 00000001 00000000 00000040 00000000 00000034
    00000000 00000000 00000000 00000000 00000000 00000000 00000000 00000000";

/// Both are open, the second with generation 2 and a body of 52 bytes at 116.
const BOTH_CELLS: &str = "01000000 00000000 00000000 00000001 00000000 00000040 00000000 00000034
    01000000 00000000 00000000 00000002 00000000 00000074 00000000 00000034";

/// A body: order 100, master `m1`, and the row.
const BODY: &str = "00000001 00000064 00000002 6d310000 00000001
    00000005 616c7068 61000000 0000000e 31302e30 2e302e31 20616c70 68610000";

/// The same, secure, and with padding that isn't zero.
const SECURE_BODY: &str = "00000002 00000064 00000002 6d310000 00000001
    00000005 616c7068 61000000 0000000e 31302e30 2e302e31 20616c70 68610000";

const BROKEN_BODY: &str = "00000001 00000064 00000002 6d310001 00000001
    00000005 616c7068 61000000 0000000e 31302e30 2e302e31 20616c70 68610000";

pub const HOSTS_FILE: &[&str] = &[CELLS, BODY];

pub const SECURE_FILE: &[&str] = &[CELLS, SECURE_BODY];

pub const BROKEN_FILE: &[&str] = &[CELLS, BROKEN_BODY];

pub const TWICE_FILE: &[&str] = &[BOTH_CELLS, BODY, BODY];
