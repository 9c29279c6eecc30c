//! Pushes to a few slaves, and to as many as there may be.

ghost use Rattle.std.specs.Prelude.{◌≡◌, ◌<◌, ◌≤◌};

use crate::given::assert_same;
use std::alloc::Global;
use std::process::Abort;
use yp_messages::PushStat;
use yp_push::*;

// A push with ample memory.
fn new_push(rt: &impl Abort, alloc: Global, slaves: u32, first: u32, window: u32) -> Push
    requires few { slaves ≤ 4096 }
    requires some { 0 < slaves }
    requires window { 0 < window }
    ensures { result.slaves ≡ slaves }
{
    Push::new(alloc, slaves, first, window).expect(rt, "memory for a push")
}

// What came of each of three slaves, and whether the push is done.
type Came = ([Outcome; 3], bool);

fn came_of(push: &Push) -> Came
    requires { push.now.slaves ≡ 3 }
{
    (
        [push.result(0), push.result(1), push.result(2)],
        push.done(),
    )
}

// The slaves and the transactions that are asked one after another, up to four.
fn sendings(push: &mut Push) -> [Option<(u32, u32)>; 4]
    ensures { push.new.slaves ≡ push.old.slaves }
{
    [next(push), next(push), next(push), next(push)]
}

fn next(push: &mut Push) -> Option<(u32, u32)>
    ensures { push.new.slaves ≡ push.old.slaves }
{
    match push.next_send() {
        None => None,
        Some(sending) => Some((sending.slave, sending.transid)),
    }
}

// Calls for the first two slaves, one of them twice, and for none; then nothing comes.
fn called(push: &mut Push) -> [bool; 4]
    ensures { push.new.slaves ≡ push.old.slaves }
{
    let heard = [
        push.on_callback(500, PushStat::Succ),
        push.on_callback(500, PushStat::Skew),
        push.on_callback(501, PushStat::Age),
        push.on_callback(999, PushStat::Succ),
    ];
    push.on_quiet();
    heard
}

#[test]
fn push_results(rt: HostRuntime) {
    let mut push = new_push(&rt, rt.alloc(), 3, 500, 3);
    let begun = came_of(&push);
    let sent = sendings(&mut push);
    let asked = came_of(&push);
    let heard = called(&mut push);
    let quiet = came_of(&push);
    let late = push.on_callback(502, PushStat::Rsrc);
    let end = came_of(&push);

    let unsent = ([Outcome::Unsent; 3], false);
    assert_same(&rt, &begun, &unsent, "before any was asked");
    let wanted = [Some((0, 500)), Some((1, 501)), Some((2, 502)), None];
    assert_same(&rt, &sent, &wanted, "the slaves in their order");
    let unanswered = ([Outcome::Unanswered; 3], false);
    assert_same(&rt, &asked, &unanswered, "all were asked");
    assert_same(&rt, &heard, &[true, false, true, false], "calls");
    let succ = Outcome::Answered(PushStat::Succ);
    let age = Outcome::Answered(PushStat::Age);
    let wanted = ([succ, age, Outcome::Unanswered], false);
    assert_same(&rt, &quiet, &wanted, "the first call counts");
    let wanted = (true, ([succ, age, Outcome::Answered(PushStat::Rsrc)], true));
    assert_same(&rt, &(late, end), &wanted, "a call after a quiet turn");
}

// Tells that a slave couldn't be asked, or answered at once, where nothing came of it yet.
fn miss(push: &mut Push, slave: u32, missed: Missed)
    requires { slave < push.old.slaves }
    ensures { push.new.slaves ≡ push.old.slaves }
{
    if let Outcome::Unanswered = push.result(slave) {
        push.on_failed(slave, missed);
    }
}

fn refuse(push: &mut Push, slave: u32, stat: PushStat)
    requires { slave < push.old.slaves }
    ensures { push.new.slaves ≡ push.old.slaves }
{
    if let Outcome::Unanswered = push.result(slave) {
        push.on_refused(slave, stat);
    }
}

#[test]
fn slaves_missed(rt: HostRuntime) {
    let mut push = new_push(&rt, rt.alloc(), 3, 500, 3);
    let _ = sendings(&mut push);
    refuse(&mut push, 0, PushStat::Nomap);
    miss(&mut push, 1, Missed::Maddr);
    miss(&mut push, 2, Missed::Rpc);
    let missed = came_of(&push);
    let heard = [
        push.on_callback(500, PushStat::Succ),
        push.on_callback(502, PushStat::Succ),
    ];
    let end = came_of(&push);

    let nomap = Outcome::Answered(PushStat::Nomap);
    let maddr = Outcome::Missed(Missed::Maddr);
    let wanted = ([nomap, maddr, Outcome::Missed(Missed::Rpc)], true);
    assert_same(&rt, &missed, &wanted, "nothing more is expected");
    assert_same(&rt, &heard, &[false, true], "calls of two that are settled");
    let wanted = ([nomap, maddr, Outcome::Answered(PushStat::Succ)], true);
    assert_same(&rt, &end, &wanted, "a call of a slave that was missed");
}

#[test]
fn window_is_kept(rt: HostRuntime) {
    let mut push = new_push(&rt, rt.alloc(), 3, u32::MAX, 2);
    let sent = sendings(&mut push);
    let heard = push.on_callback(u32::MAX, PushStat::Succ);
    let more = sendings(&mut push);

    let wanted = [Some((0, u32::MAX)), Some((1, 0)), None, None];
    assert_same(&rt, &sent, &wanted, "two are outstanding");
    assert_same(&rt, &heard, &true, "the transaction of the first");
    let wanted = [Some((2, 1)), None, None, None];
    assert_same(&rt, &more, &wanted, "one of them answered");
}

// How many slaves are asked one at a time, a quiet turn behind each, and whether each was the next of its window.
fn pushed(push: &mut Push) -> (u32, bool) {
    let mut all = true;
    let mut count = 0;
    for slave in 0..SLAVES_MAX {
        all = all && next(push) == Some((slave, slave + 7)) && next(push).is_none();
        count = slave + 1;
        push.on_quiet();
    }
    (count, all && next(push).is_none())
}

#[test]
fn slaves_one_by_one(rt: HostRuntime) {
    let mut push = new_push(&rt, rt.alloc(), SLAVES_MAX, 7, 1);
    let came = pushed(&mut push);
    assert_same(&rt, &came, &(4_096, true), "a window of one");
}
