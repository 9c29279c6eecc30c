//! The codes of statuses, and the notes that tell them.

ghost use Rattle.yp_board.specs.Catalogues.{name_view};
ghost use Rattle.yp_command.specs.inside.Words.{IsNamed};
ghost use Rattle.yp_command.specs.inside.office.Status.{IsTellable};

use crate::given::assert_same;
use std::alloc::Global;
use std::process::Abort;
use yp_board::MapName;
use yp_memory::MemSink;
use yp_messages::YpStat;
use yp_program::{Status, tell};
use yp_transfer::XfrFault;

/// Compares the code of a status, and the note that tells it.
fn try_note<R: Abort>(rt: &R, alloc: Global, status: Status, code: u8, note: &[u8])
    requires { IsTellable status }
{
    let mut notes = MemSink::new(alloc, 4096, Vec::new(alloc));
    tell(&mut notes, &status);
    assert_same(
        rt,
        &(status.code(), notes.taken()),
        &(code, note),
        "a code and its note",
    );
}

fn try_plain_notes<R: Abort>(rt: &R, alloc: Global) {
    try_note(rt, alloc, Status::Done, 0, b"");
    try_note(rt, alloc, Status::ReadFault, 3, b"yp: read fault\n");
    try_note(rt, alloc, Status::WriteFault, 4, b"yp: write fault\n");
    try_note(rt, alloc, Status::NoMemory, 7, b"yp: no memory\n");
}

fn try_later_notes<R: Abort>(rt: &R, alloc: Global) {
    try_note(rt, alloc, Status::OrderSpent, 18, b"yp: order spent\n");
    try_note(rt, alloc, Status::ListenFault, 21, b"yp: listen fault\n");
    try_note(rt, alloc, Status::InboxFault, 22, b"yp: inbox fault\n");
    try_note(rt, alloc, Status::Enough, 23, b"yp: enough calls\n");
}

fn try_numbers<R: Abort>(rt: &R, alloc: Global) {
    let status = Status::Usage { word: 12 };
    try_note(rt, alloc, status, 2, b"yp: usage at word 12\n");
    let note = b"yp: torn record at 18446744073709551615\n";
    try_note(rt, alloc, Status::Torn { at: u64::MAX }, 5, note);
    let status = Status::TooLong { at: 80 };
    try_note(rt, alloc, status, 6, b"yp: too long at 80\n");
    let status = Status::Rows {
        row: u32::MAX,
        rule: 3,
    };
    try_note(rt, alloc, status, 17, b"yp: row 4294967295 rule 3\n");
}

#[test]
fn codes_and_notes(rt: HostRuntime) {
    try_plain_notes(&rt, rt.alloc());
    try_later_notes(&rt, rt.alloc());
    try_numbers(&rt, rt.alloc());
}

fn try_plain_answers<R: Abort>(rt: &R, alloc: Global) {
    try_note(rt, alloc, Status::No, 1, b"");
    try_note(rt, alloc, Status::Denied, 12, b"yp: refused by rpc\n");
    try_note(rt, alloc, Status::DialFault, 15, b"yp: cannot dial\n");
}

#[test]
fn answers_in_notes(rt: HostRuntime) {
    let alloc = rt.alloc();
    try_plain_answers(&rt, alloc);
    let status = Status::Yp { stat: YpStat::Vers };
    try_note(&rt, alloc, status, 11, b"yp: server says -8\n");
    let status = Status::Yp {
        stat: YpStat::Nomore,
    };
    try_note(&rt, alloc, status, 11, b"yp: server says 2\n");
    let status = Status::BadReply { at: 47 };
    try_note(&rt, alloc, status, 13, b"yp: bad reply at 47\n");
    let status = Status::BadXid {
        want: u32::MAX,
        got: 0,
    };
    let note = b"yp: wrong xid 0 wanted 4294967295\n";
    try_note(&rt, alloc, status, 14, note);
}

/// Each fault of a transfer but want of memory, with the numbers of the push response program of yp.x.
static FAULTS: [(XfrFault, &[u8]); 13] = [
    (XfrFault::Maddr, b"yp: transfer -5\n"),
    (XfrFault::Rpc, b"yp: transfer -4\n"),
    (XfrFault::Nodom, b"yp: transfer -2\n"),
    (XfrFault::Nomap, b"yp: transfer -1\n"),
    (
        XfrFault::Yperr {
            stat: Some(YpStat::Yperr),
        },
        b"yp: transfer -6\n",
    ),
    (XfrFault::Yperr { stat: None }, b"yp: transfer -6\n"),
    (XfrFault::Xfrerr { at: u64::MAX }, b"yp: transfer -13\n"),
    (
        XfrFault::Age {
            shown: u32::MAX,
            offered: 0,
        },
        b"yp: transfer 2 4294967295 0\n",
    ),
    (
        XfrFault::Skew {
            first: 100,
            second: 101,
        },
        b"yp: transfer -10 100 101\n",
    ),
    (XfrFault::Dbm, b"yp: transfer -8\n"),
    (XfrFault::Badargs, b"yp: transfer -7\n"),
    (XfrFault::File, b"yp: transfer -9\n"),
    (XfrFault::Refused, b"yp: transfer -14\n"),
];

#[test]
fn transfers_in_notes(rt: HostRuntime) {
    for (fault, note) in &FAULTS {
        try_note(&rt, rt.alloc(), Status::Xfr { fault: *fault }, 16, *note);
    }
}

/// The map `hosts.byname` of the domain `lab`.
fn hosts<R: Abort>(rt: &R, alloc: Global) -> MapName
    ensures { IsNamed (name_view result) }
{
    let domain = Vec::from_slice(alloc, b"lab").expect(rt, "memory");
    let map = Vec::from_slice(alloc, b"hosts.byname").expect(rt, "memory");
    MapName { domain, map }
}

#[test]
fn names_in_notes(rt: HostRuntime) {
    let alloc = rt.alloc();
    let status = Status::Damaged {
        map: hosts(&rt, alloc),
        at: u64::MAX,
        rule: 9,
    };
    let note = b"yp: damaged lab/hosts.byname at 18446744073709551615 rule 9\n";
    try_note(&rt, alloc, status, 8, note);
    let map = hosts(&rt, alloc);
    let note = b"yp: no version of lab/hosts.byname\n";
    try_note(&rt, alloc, Status::NoVersion { map }, 9, note);
    let map = hosts(&rt, alloc);
    let note = b"yp: disk fault in lab/hosts.byname\n";
    try_note(&rt, alloc, Status::DiskFault { map }, 10, note);
    let master = Vec::from_slice(alloc, b"m\xff").expect(&rt, "memory");
    let note = b"yp: mastered by m\xff\n";
    try_note(&rt, alloc, Status::Refused { master }, 19, note);
    let map = hosts(&rt, alloc);
    let note = b"yp: generations spent in lab/hosts.byname\n";
    try_note(&rt, alloc, Status::GenerationsSpent { map }, 20, note);
}
