//! Calls, replies and files, written out by hand from RFC 5531 sections 9 and 11, yp.x and docs/FORMATS.md.

use yp_io::Peer;
use yp_stage::{Stands, Words};

/// Who sends datagrams.
pub const SENDER: Peer = Peer {
    addr: [127, 0, 0, 1],
    port: 40_000,
};

/// NULL of the NIS program, number 7, and its reply, as datagrams.
pub const NULL: &str = "00000007
    00000000 00000002 000186a4 00000002 00000000 00000000 00000000 00000000 00000000";

pub const NULL_REPLY: &str = "00000007
    00000001 00000000 00000000 00000000 00000000";

/// MATCH of `alpha` in hosts.byname of `lab`, behind the word of its number.
pub const MATCH: &str =
    "00000000 00000002 000186a4 00000002 00000003 00000000 00000000 00000000 00000000
    00000003 6c616200 0000000c 686f7374 732e6279 6e616d65 00000005 616c7068 61000000";

/// MAKE of that map, behind the word of its number.
pub const MAKE: &str =
    "00000000 00000002 20004e49 00000001 00000001 00000000 00000000 00000000 00000000
    00000003 6c616200 00000005";

/// Replies to MATCH, behind the word of their number: the row of `alpha`, and no such map.
pub const ADDRESS: &str = "00000001 00000000 00000000 00000000 00000000
    00000001 0000000e 31302e30 2e302e31 20616c70 68610000";

pub const NOMAP: &str = "00000001 00000000 00000000 00000000 00000000 ffffffff 00000000";

/// Replies to MAKE, behind the word of their number: SUCC, and FILE.
pub const MADE: &str = "00000001 00000000 00000000 00000000 00000000 00000001";

pub const UNMADE: &str = "00000001 00000000 00000000 00000000 00000000 fffffff7";

/// The file of the map with one row, at order 100, made by m1.
pub const FILE: Words = &[
    "01000000 00000000 00000000 00000001 00000000 00000040 00000000 00000034",
    "00000000 00000000 00000000 00000000 00000000 00000000 00000000 00000000",
    VERSION_100,
];

pub const VERSION_100: &str = "00000001 00000064 00000002 6d310000 00000001
    00000005 616c7068 61000000 0000000e 31302e30 2e302e31 20616c70 68610000";

/// What it stands for, and what the next order stands for.
pub const FIRST: Stands = Some((100, 1, false));

pub const NEXT: Stands = Some((101, 1, false));
