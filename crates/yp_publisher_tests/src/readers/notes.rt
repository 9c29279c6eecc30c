//! Notes that readers meet, in any order, and readers that lag.

ghost use Rattle.std.specs.Prelude.{◌≡◌};
ghost use Rattle.yp_board.specs.Logs.{Log};
ghost use Rattle.yp_board.specs.Views.{IsFront};

use crate::given::{assert_same, held, one_of};
use crate::readers::boards::*;
use std::alloc::Global;
use std::marker::Brand;
use std::process::Abort;
use std::random::RandomSource;
use std::sync::Wait;
use yp_board::readers::{Naming, Note, Opened, Reader, Writer};
use yp_board::{Tell, View};

#[test]
fn notes_in_any_order(rt: HostRuntime) {
    let came = met::<Brand, _>(&rt, rt.alloc(), Opened::new());
    // What the first holds before it meets a note, then the later one, then the earlier one; and what the second holds
    // once it has met the earlier one, and then made a read step.
    let wanted = [Some(1), Some(3), Some(3), Some(2), Some(3)];
    assert_same(&rt, &came, &wanted, "the orders that two readers hold");
}

// What two readers hold of the first map, of which two more versions are shown.
fn met<J: Naming, R: Wait + RandomSource + Abort>(
    rt: &R,
    alloc: Global,
    opened: Opened,
) -> [Option<u32>; 5]
    requires { opened ≡ J.book }
{
    let (mut writer, mut readers) = board_of::<J, R>(rt, alloc, opened, 2);
    let mut first = one_of(rt, &mut readers);
    let mut second = one_of(rt, &mut readers);
    meet(rt, alloc, &mut writer, &mut first, &mut second)
}

fn meet<J: Naming, R: Wait + Drop, H: RandomSource + Abort>(
    rt: &H,
    alloc: Global,
    writer: &mut Writer<J, R>,
    first: &mut Reader<J>,
    second: &mut Reader<J>,
) -> [Option<u32>; 5] {
    let (earlier, later) = two_notes(rt, alloc, writer);
    let before = held(first, 0);
    let at_later = held_after(first, later);
    let still = held_after(first, earlier.0);
    let at_earlier = held_after(second, earlier.1);
    cover(writer, first, second);
    second.refresh();
    [before, at_later, still, at_earlier, held(second, 0)]
}

// Two notes of the moment when a version of order 2 was shown, and one of the moment when one of order 3 was.
fn two_notes<J: Naming, R: Wait + Drop, H: RandomSource + Abort>(
    rt: &H,
    alloc: Global,
    writer: &mut Writer<J, R>,
) -> ((Note<J>, Note<J>), Note<J>) {
    shows(writer, 0, version(rt, alloc, 2));
    let earlier = (writer.tell(), writer.tell());
    shows(writer, 0, version(rt, alloc, 3));
    (earlier, writer.tell())
}

// Covers what two readers know, by the longer of their fronts.
fn cover<J: Naming, R: Wait + Drop>(writer: &mut Writer<J, R>, one: &Reader<J>, other: &Reader<J>)
    ensures { (front : Log) × IsFront one.now.known front × IsFront other.now.known front
        × IsFront front writer.new.log }
{
    let longer = Writer::<J, R>::longer(Writer::<J, R>::known(one), Writer::<J, R>::known(other));
    writer.covers(&longer);
}

// The order that a reader holds of the first map, once it has met a note.
fn held_after<J: Naming>(reader: &mut Reader<J>, note: Note<J>) -> Option<u32> {
    match reader.meet(note) {
        Ok(()) => held(reader, 0),
        Err(_) => None,
    }
}

#[test]
fn one_step_for_two_shows(rt: HostRuntime) {
    let came = lagged::<Brand, _>(&rt, rt.alloc(), Opened::new());
    // What a reader holds of both maps before it makes a read step, and behind it.
    let wanted = [(Some(1), None), (Some(2), Some(3))];
    assert_same(&rt, &came, &wanted, "the orders of two maps");
}

// What a reader holds of both maps, of each of which a version is shown.
fn lagged<J: Naming, R: Wait + RandomSource + Abort>(
    rt: &R,
    alloc: Global,
    opened: Opened,
) -> [(Option<u32>, Option<u32>); 2]
    requires { opened ≡ J.book }
{
    let (mut writer, mut readers) = board_of::<J, R>(rt, alloc, opened, 1);
    let mut reader = one_of(rt, &mut readers);
    show_surely(rt, alloc, &mut writer, 0, 2);
    show_surely(rt, alloc, &mut writer, 1, 3);
    let before = held_of_both(&reader);
    reader.refresh();
    [before, held_of_both(&reader)]
}

// Shows a version of this order until it isn't refused, so that a call that fails for memory is followed by one that
// carries it.
fn show_surely<J: Naming, R: Wait + Drop, H: RandomSource + Abort>(
    rt: &H,
    alloc: Global,
    writer: &mut Writer<J, R>,
    map: u32,
    order: u32,
) {
    if !shows(writer, map, version(rt, alloc, order)) {
        shows(writer, map, version(rt, alloc, order));
    }
}

fn held_of_both<J: Naming>(reader: &Reader<J>) -> (Option<u32>, Option<u32>) {
    (held(reader, 0), held(reader, 1))
}
