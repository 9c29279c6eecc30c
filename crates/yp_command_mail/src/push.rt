//! The command `push`: the slaves of a map's domain are asked to fetch it, and what came of each is told.

ghost use Rattle.std.specs.Prelude.{◌≡◌, ◌≢◌, ◌⊎◌, ◌<◌, ◌≤◌, length, map, IsTrue, IfErr, IfSome, IfOk};
ghost use Rattle.yp_io.specs.Counts.{HasRisen};
ghost use Rattle.yp_transfer.specs.inside.Dials.{dial_by};
ghost use Rattle.yp_board.specs.Catalogues.{name_view, name_max};
ghost use Rattle.yp_rpc.specs.inside.Turns.{box_by};
ghost use Rattle.yp_push.specs.inside.turns.Kept.{slave_view};
ghost use Rattle.yp_push.specs.turns.Slaves.{slaves_of};
ghost use Rattle.yp_command.specs.Words.{with_ypservers, host_view};
ghost use Rattle.yp_command.specs.inside.Words.{IsNamed};
ghost use Rattle.yp_command.specs.office.Disks.{names_of};
ghost use Rattle.yp_command.specs.office.Seeing.{seeing, IsPassedOn};
ghost use Rattle.yp_command.specs.inside.office.Status.{IsTellable};
ghost use Rattle.yp_command_mail.specs.Push.{IsPushEnd, TellsSlaves};
ghost use Rattle.yp_command_mail.specs.inside.Push.{job_view, Plans, Readies, CanStart};
ghost use Rattle.yp_command_mail.specs.Push.{outcome_of, TakesPushTurns};
ghost use Rattle.yp_command_mail.specs.Telling.{mail_tells};
ghost use Rattle.yp_command_mail.specs.inside.Push.{IsSentBy};
ghost use Rattle.yp_command_mail.specs.Push.{PushDoes, push_may_end};

use crate::finding::{Found, judge, load_maps, status_of_stop};
use crate::text::tell_text;
use std::alloc::Global;
use std::random::RandomSource;
use yp_command::office::{NamedDisk, Office, ROWS_RULE, Status, table_of};
use yp_command::{HostWord, PushJob};
use yp_io::{Clock, Dial, Disk, Failed, Inbox, NoMemory, Sink, Source, Texts};
use yp_push::turns::{PushRequest, Pusher, Slave, all_have_map, slaves_of, text_of};
use yp_push::{Push, SLAVES_MAX};
use yp_rpc::{Room, take_turns};

/// What is to be pushed, and to whom.
#[derive(Drop)]
pub struct PushPlan {
    pub push: Push,
    pub slaves: Vec<Slave>,
    pub request: PushRequest,
}

/// The slaves that the map of servers names, each with its address among these hosts.
fn find_slaves(
    alloc: Global,
    name: &[u8],
    hosts: Vec<HostWord>,
    found: &Found,
) -> Result<Vec<Slave>, NoMemory>
    ensures { IfOk result (λ slaves. map slave_view slaves.items
        ≡ slaves_of name.now (map host_view hosts.items) found.now.servers.rows) }
{
    let hosts = table_of(alloc, hosts)?;
    slaves_of(alloc, &found.servers, name, &hosts)
}

/// What is to be pushed of what was found. There is nothing where there are no slaves.
fn plan_of(alloc: Global, job: PushJob, found: &Found, now: u32) -> Result<Option<PushPlan>, Status>
    requires window { 0 < job.window }
    requires name { length job.name.items ≤ name_max }
    requires named { IsNamed (name_view job.store) }
    ensures plans { Plans (job_view job) now found.now result }
    ensures start { IfOk result (λ plan. IfSome plan CanStart) }
    ensures tellable { IfErr result IsTellable }
{
    let PushJob {
        name,
        port,
        window,
        turns: _,
        store,
        hosts,
    } = job;
    let Ok(slaves) = find_slaves(alloc, &name, hosts, found) else {
        return Err(Status::NoMemory);
    };
    if slaves.is_empty() {
        return Ok(None);
    }
    if slaves.len() > SLAVES_MAX as usize {
        return Err(Status::Rows {
            row: SLAVES_MAX + 1,
            rule: ROWS_RULE,
        });
    }
    let Ok(push) = Push::new(alloc, slaves.len() as u32, now, window) else {
        return Err(Status::NoMemory);
    };
    let request = PushRequest {
        store,
        order: found.order,
        name,
        port,
    };
    Ok(Some(PushPlan {
        push,
        slaves,
        request,
    }))
}

/// Reads what is to be pushed from the disks and the clock.
fn ready<D: Disk, C: Clock>(
    alloc: Global,
    rt: &impl RandomSource,
    job: PushJob,
    disks: &mut Vec<NamedDisk<D>>,
    clock: &mut C,
) -> Result<Option<PushPlan>, Status>
    requires window { 0 < job.window }
    requires name { length job.name.items ≤ name_max }
    requires named { IsNamed (name_view job.store) }
    requires disks { names_of disks.old.items ≡ with_ypservers (name_view job.store) }
    ensures readies { Readies D.Disk (C.moment clock.old) (job_view job) result
        disks.old.items disks.new.items }
    ensures told { C.moment clock.new ≡ C.moment clock.old }
    ensures start { IfOk result (λ plan. IfSome plan CanStart) }
    ensures tellable { IfErr result IsTellable }
{
    let loaded = load_maps(alloc, rt, &job.store, disks);
    let now = clock.now();
    match judge(loaded) {
        Ok(found) => plan_of(alloc, job, &found, now),
        Err(stop) => Err(status_of_stop(alloc, job.store, stop)),
    }
}

/// The status of slaves that have the map, or not.
fn end_of<A>(pusher: &Pusher<A>) -> Status
    ensures { IsPushEnd pusher.now result }
{
    if all_have_map(pusher) {
        Status::Done
    } else {
        Status::No
    }
}

/// Tells what came of the slaves, or that memory ran out.
fn tell_slaves<K: Sink, A>(alloc: Global, sink: &mut K, pusher: &Pusher<A>) -> Status
    ensures tells { TellsSlaves pusher.now result (K.output sink.old) (K.output sink.new)
        ⊎ ((result ≡ Status.NoMemory) × (K.output sink.new ≡ K.output sink.old)) }
    ensures flushed { result ≢ Status.WriteFault → IsTrue (K.flushed sink.old) → IsTrue (K.flushed sink.new) }
    ensures cause { result ≡ Status.WriteFault → HasRisen (K.faults sink.old) (K.faults sink.new) }
    ensures may_end { IsTrue (push_may_end result) }
    ensures heard { result ≢ Status.InboxFault }
    ensures tellable { IsTellable result }
{
    if pusher.is_starved() {
        return Status::NoMemory;
    }
    match text_of(alloc, pusher) {
        Ok(text) => tell_text(sink, &text, end_of(pusher)),
        Err(NoMemory) => Status::NoMemory,
    }
}

/// Asks the slaves in their turns, tells what came of each, and hands the dial back.
fn take<K: Sink, A: Dial, I: Inbox>(
    alloc: Global,
    turns: u64,
    room: &mut Room,
    pusher: Pusher<A>,
    inbox: &mut I,
    sink: &mut K,
) -> (Status, A)
    ensures takes { TakesPushTurns (dial_by A.Dial) turns pusher (outcome_of result.0 result.1)
        (mail_tells (box_by I.Inbox inbox.old) (K.output sink.old))
        (mail_tells (box_by I.Inbox inbox.new) (K.output sink.new)) }
    ensures flushed { result.0 ≢ Status.WriteFault → IsTrue (K.flushed sink.old) → IsTrue (K.flushed sink.new) }
    ensures write_fault { result.0 ≡ Status.WriteFault → HasRisen (K.faults sink.old) (K.faults sink.new) }
    ensures inbox_fault { result.0 ≡ Status.InboxFault → HasRisen (I.faults inbox.old) (I.faults inbox.new) }
    ensures may_end { IsTrue (push_may_end result.0) }
    ensures tellable { IsTellable result.0 }
{
    let mut pusher = pusher;
    match take_turns(inbox, &mut pusher, room, turns) {
        Ok(_) => {
            let status = tell_slaves(alloc, sink, &pusher);
            (status, pusher.into_dial())
        }
        Err(Failed) => (Status::InboxFault, pusher.into_dial()),
    }
}

/// Pushes what is planned, in at most so many turns.
fn push_plan<S: Source, K: Sink, D: Disk, C: Clock, A: Dial, I: Inbox, T: Texts>(
    alloc: Global,
    turns: u64,
    plan: PushPlan,
    office: Office<S, K, D, C, A, I, T>,
) -> (Status, Office<S, K, D, C, A, I, T>)
    requires { CanStart plan }
    ensures sent { IsSentBy (seeing S.Source K.Sink D.Disk C.Clock A.Dial I.Inbox T.Texts)
        turns plan result.0 office result.1 }
    ensures passed_on { IsPassedOn (seeing S.Source K.Sink D.Disk C.Clock A.Dial I.Inbox T.Texts)
        result.0 office result.1 }
    ensures write_fault { result.0 ≡ Status.WriteFault
        → HasRisen (K.faults office.wire.sink) (K.faults result.1.wire.sink) }
    ensures inbox_fault { result.0 ≡ Status.InboxFault
        → HasRisen (I.faults office.inbox) (I.faults result.1.inbox) }
    ensures may_end { IsTrue (push_may_end result.0) }
    ensures tellable { IsTellable result.0 }
    ensures stays { result.1 ≡ record office {
      wire = record office.wire { sink = result.1.wire.sink };
      dial = result.1.dial;
      inbox = result.1.inbox;
    } }
{
    let Ok(mut room) = Room::new(alloc) else {
        return (Status::NoMemory, office);
    };
    let PushPlan {
        push,
        slaves,
        request,
    } = plan;
    let Office {
        mut wire,
        disks,
        clock,
        dial,
        mut inbox,
        texts,
    } = office;
    let pusher = Pusher::new(alloc, dial, push, slaves, request);
    let (status, dial) = take(alloc, turns, &mut room, pusher, &mut inbox, &mut wire.sink);
    let office = Office {
        wire,
        disks,
        clock,
        dial,
        inbox,
        texts,
    };
    (status, office)
}

/// Asks the slaves of the map's domain to fetch it, in at most so many turns, and tells what came of each. The slaves
/// are the servers of the domain but the own host.
pub fn push_map<S: Source, K: Sink, D: Disk, C: Clock, A: Dial, I: Inbox, T: Texts>(
    alloc: Global,
    rt: &impl RandomSource,
    job: PushJob,
    office: Office<S, K, D, C, A, I, T>,
) -> (Status, Office<S, K, D, C, A, I, T>)
    requires window { 0 < job.window }
    requires name { length job.name.items ≤ name_max }
    requires named { IsNamed (name_view job.store) }
    requires disks { names_of office.disks.items ≡ with_ypservers (name_view job.store) }
    ensures does { PushDoes (seeing S.Source K.Sink D.Disk C.Clock A.Dial I.Inbox T.Texts)
        (job_view job) result.0 office result.1 }
    ensures may_end { IsTrue (push_may_end result.0) }
    ensures passed_on { IsPassedOn (seeing S.Source K.Sink D.Disk C.Clock A.Dial I.Inbox T.Texts)
        result.0 office result.1 }
    ensures tellable { IsTellable result.0 }
{
    let mut office = office;
    let turns = job.turns;
    match ready(alloc, rt, job, &mut office.disks, &mut office.clock) {
        Ok(Some(plan)) => push_plan(alloc, turns, plan, office),
        Ok(None) => (Status::Done, office),
        Err(status) => (status, office),
    }
}
