//! A reader in another thread than the writer.

ghost use Rattle.std.specs.Prelude.{◌≡◌};

use crate::given::{assert_same, held, one_of};
use crate::readers::boards::*;
use std::alloc::Global;
use std::marker::Brand;
use std::process::Abort;
use std::random::RandomSource;
use std::sync::{Mutex, Wait};
use std::thread::Threads;
use yp_board::View;
use yp_board::readers::{Naming, Opened, Reader, Writer, show_beside};

#[test]
fn read_beside_a_show(rt: HostRuntime) {
    let came = rounds::<Brand, _>(&rt, rt.alloc(), Opened::new());
    assert_same(&rt, &came, &20, "rounds in which the reader saw a front");
}

// In how many of 20 rounds the reader saw a front.
fn rounds<J: Naming + Send + Sync, R: Threads + Wait + RandomSource + Abort + Sync>(
    rt: &R,
    alloc: Global,
    opened: Opened,
) -> u32
    requires { opened ≡ J.book }
{
    let (writer, mut readers) = board_of::<J, R>(rt, alloc, opened, 1);
    let writer = Mutex::new(writer);
    let mut reader = one_of(rt, &mut readers);
    let mut rounds: u32 = 0;
    for order in 2..22 {
        let (is_front, back) = round(rt, alloc, &writer, reader, order);
        reader = back;
        rounds = rounds.saturating_add(is_front as u32);
    }
    rounds
}

// Whether a reader held the version before or the one that was shown beside its read step, and then the one that was
// shown.
fn round<
    J: Naming + Send + Sync,
    W: Wait + Drop + Send,
    R: Threads + Wait + RandomSource + Abort + Sync,
>(
    rt: &R,
    alloc: Global,
    writer: &Mutex<Writer<J, W>>,
    reader: Reader<J>,
    order: u32,
) -> (bool, Reader<J>) {
    let (shown, mut reader) = show_beside(rt, writer, 0, version(rt, alloc, order), reader);
    let saw = held(&reader, 0);
    reader.refresh();
    let front = saw == Some(order.saturating_sub(1)) || saw == Some(order);
    (shown && front && held(&reader, 0) == Some(order), reader)
}
