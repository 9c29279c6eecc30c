//! A server of datagrams that leaves what takes long for a carrier.

ghost use Rattle.std.specs.Prelude.{◌≡◌};

use crate::given::{NEVER, assert_same, named};
use crate::mail::{Mail, NAMES, OWN_HOST, mail_of, sent};
use crate::reader::{Knew, ReaderHost, two_hosts};
use std::alloc::Global;
use std::marker::Brand;
use std::process::Abort;
use std::random::RandomSource;
use std::sync::Wait;
use yp_board::readers::{Naming, Opened};
use yp_memory::MemInbox;
use yp_publisher::sharing::Site;
use yp_rpc::{DATAGRAM_MAX, Room};
use yp_worker::datagrams::{Carrier, DeferredQueue, MailServer, serve_mail};

// How many transfers a carrier and a server carried out, and the inboxes of the server and of the carrier.
type Came = (u64, u64, MemInbox, MemInbox);

// An inbox with these datagrams, of which no call fails.
fn inbox_of(rt: &impl Abort, alloc: Global, mail: &[Mail]) -> MemInbox {
    let failing = vec![in alloc; NEVER].expect(rt, "memory for a number");
    MemInbox::new(alloc, mail_of(rt, alloc, mail), failing)
}

// The datagrams, whether a carrier attends before they come, what is answered in the turns, and what by the carrier.
struct Row {
    name: &'static str,
    mail: &'static [Mail],
    attends: bool,
    turns: &'static str,
    behind: &'static str,
}

const MAKE: Mail = (OWN_HOST, 700, "MAKE", 0);

const TRANSFER: Mail = (OWN_HOST, 701, "XFR", 0);

const LOOK_UP: Mail = (OWN_HOST, 701, "NULL", 0);

static BESIDE_A_CARRIER: Row = Row {
    name: "a make holds up no look-up",
    mail: &[MAKE, TRANSFER, LOOK_UP],
    attends: true,
    turns: "TO_701 TAKEN TO_701 NULL_REPLY",
    behind: "TO_700 NOT_MADE",
};

static BEFORE_A_CARRIER: Row = Row {
    name: "a make where no carrier attends",
    mail: &[MAKE, TRANSFER, LOOK_UP],
    attends: false,
    turns: "TO_700 NOT_MADE TO_701 TAKEN TO_701 NULL_REPLY",
    behind: "",
};

static BEHIND_A_TRANSFER: Row = Row {
    name: "a make that doesn't wait for a transfer",
    mail: &[TRANSFER, MAKE, LOOK_UP],
    attends: true,
    turns: "TO_701 TAKEN TO_700 NOT_MADE TO_701 NULL_REPLY",
    behind: "",
};

// Runs a server for all of these turns, and then a carrier, which attends already where that is said.
fn run_both<'r, J: Site, N: Naming, R: Wait + Abort>(
    rt: &'r R,
    alloc: Global,
    hosts: (ReaderHost<'r, N, R>, ReaderHost<'r, N, R>),
    mail: &[Mail],
    attends: bool,
) -> Came
    requires first { hosts.0.reader.catalogue ≡ J.catalogue }
    requires second { hosts.1.reader.catalogue ≡ J.catalogue }
{
    let (host, other) = hosts;
    let made = DeferredQueue::<J, Knew<N>>::new(alloc, 0);
    let (pending, mut pass) = made.expect(rt, "memory for a queue");
    let part = pending.split_off(&mut pass);
    let outbox = inbox_of(rt, alloc, &[]);
    let letter = vec![in alloc; 0; DATAGRAM_MAX].expect(rt, "memory for a reply");
    let mut carrier = Carrier::new(other, &pending, pass, outbox, letter, rt);
    if attends {
        // no server is to come, so it ends at once
        carrier.carry_all_that_come();
    }
    let mut server = MailServer::new(alloc, host, &pending, part, rt);
    let mut inbox = inbox_of(rt, alloc, mail);
    let mut room = Room::new(alloc).expect(rt, "memory for turns");
    let _ = serve_mail(&mut inbox, &mut server, &mut room, 3);
    let (host, part) = server.into_parts();
    carrier.merge(part);
    carrier.carry_rest();
    let (other, _, outbox, _) = carrier.into_parts();
    (other.transfers, host.transfers, inbox, outbox)
}

fn both<N: Naming, R: RandomSource + Wait + Abort>(
    rt: &R,
    alloc: Global,
    opened: Opened,
    row: &Row,
) -> Came
    requires { opened ≡ N.book }
{
    let hosts = two_hosts::<N, R>(rt, alloc, opened, &[]);
    run_both::<Brand, N, R>(rt, alloc, hosts, row.mail, row.attends)
}

fn try_row<R: RandomSource + Wait + Abort>(rt: &R, alloc: Global, row: &Row) {
    let (carried, own, inbox, outbox) = both::<Brand, R>(rt, alloc, Opened::new(), row);
    assert_same(rt, &(carried, own), &(1, 0), row.name);
    let turns = named(rt, alloc, NAMES, row.turns);
    assert_same(rt, &sent(rt, alloc, inbox.letters()), &turns, row.name);
    let behind = named(rt, alloc, NAMES, row.behind);
    assert_same(rt, &sent(rt, alloc, outbox.letters()), &behind, row.name);
}

#[test]
fn a_make_holds_up_no_look_up(rt: HostRuntime) {
    try_row(&rt, rt.alloc(), &BESIDE_A_CARRIER);
}

#[test]
fn a_make_where_no_carrier_attends(rt: HostRuntime) {
    try_row(&rt, rt.alloc(), &BEFORE_A_CARRIER);
}

#[test]
fn a_make_waits_for_no_transfer(rt: HostRuntime) {
    try_row(&rt, rt.alloc(), &BEHIND_A_TRANSFER);
}
