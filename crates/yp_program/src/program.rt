//! The one call that does all that the program does.

ghost use Rattle.std.specs.Prelude.{◌≡◌, ℕ, ◌≤◌, List, [], IsTrue};
ghost use Rattle.std.specs.Io.KnownBytes.{Appends};
ghost use Rattle.yp_io.specs.Counts.{HasRisen};
ghost use Rattle.yp_command.specs.Words.{command_of, disk_names, texts, meaning, stores_of};
ghost use Rattle.yp_command.specs.inside.Words.{HasNames};
ghost use Rattle.yp_answer.specs.session.Wires.{Wire};
ghost use Rattle.yp_command.specs.office.Disks.{names_of};
ghost use Rattle.yp_command.specs.office.Seeing.{seeing, IsPassedOn};
ghost use Rattle.yp_command.specs.office.Status.{note};
ghost use Rattle.yp_command.specs.inside.office.Status.{IsTellable};
ghost use Rattle.yp_command_serve.specs.Served.{witnessed};
ghost use Rattle.yp_command_serve.specs.serve.Hosting.{outside_by};
ghost use Rattle.yp_command_serve.specs.serve.Serve.{ServeDoes, serve_may_end};
ghost use Rattle.yp_command_serve.specs.inside.serve.Serve.{serve_job_view};
ghost use Rattle.yp_program.specs.Commands.{AloneDoes, CommandDoes, Does, IsNoted, MayEnd, may_end};
ghost use Rattle.yp_program.specs.inside.Commands.{IsAlone};
ghost use Rattle.yp_program.specs.inside.Commands.{parse_status};

use crate::ask::ask;
use crate::orders::compare;
use crate::transferring::transfer;
use crate::walking::walk;
use std::alloc::Global;
use std::random::RandomSource;
use std::sync::Wait;
use std::thread::Threads;
use std::time;
use yp_answer::session::Witness;
use yp_command::office::{Office, Status};
use yp_command::{Command, ParseFault, ServeJob, parse};
use yp_command_mail::{ask_mapper, bind_domain, push_map, serve_ports};
use yp_command_maps::{build_map, check_map, dump_map, load_map, reverse_map};
use yp_command_serve::serve::{Outside, serve_maps};
use yp_command_serve::{SessionSpec, serve_once, serve_session, tell_sample};
use yp_io::{Clock, Dial, Disk, Hall, Inbox, Sink, Source, Texts, Trail, write_all};

/// Does what a command asks for that serves no listener.
fn obey<S: Source, K: Sink, D: Disk, C: Clock, A: Dial, I: Inbox, T: Texts, W: Witness<S, K>>(
    alloc: Global,
    rt: &impl RandomSource,
    command: Command,
    office: Office<S, K, D, C, A, I, T>,
    witness: &mut W,
) -> (Status, Office<S, K, D, C, A, I, T>)
    requires alone { IsAlone (meaning command) }
    requires names { HasNames (meaning command) }
    requires disks { names_of office.disks.items ≡ stores_of (meaning command) }
    ensures does { AloneDoes (seeing S.Source K.Sink D.Disk C.Clock A.Dial I.Inbox T.Texts)
        (meaning command) result.0 (witnessed office (W.wires witness.old)) (witnessed result.1 (W.wires witness.new)) }
    ensures may_end { IsTrue (may_end (meaning command) result.0) }
    ensures passed_on { IsPassedOn (seeing S.Source K.Sink D.Disk C.Clock A.Dial I.Inbox T.Texts)
        result.0 office result.1 }
    ensures tellable { IsTellable result.0 }
{
    let mut office = office;
    let status = match command {
        Command::Once { store, rows } => serve_once(alloc, rt, store, &rows, &mut office, witness),
        Command::Sample { start, count } => tell_sample(alloc, rt, start, count, &mut office),
        Command::Check { store } => check_map(alloc, store, &mut office),
        Command::Dump { store } => dump_map(alloc, rt, store, &mut office),
        Command::Build { name, store, flag } => build_map(
            alloc,
            rt,
            name,
            store,
            flag,
            &mut office,
        ),
        Command::Load { name, store, flag } => load_map(alloc, rt, name, store, flag, &mut office),
        Command::Xfr(job) => transfer(alloc, rt, job, &mut office),
        Command::Walk(job) => walk(alloc, rt, job, &mut office),
        Command::Revnet { name, store } => reverse_map(alloc, rt, name, store, &mut office),
        Command::Bind {
            policy,
            turns,
            domain,
            hosts,
            ..
        } => bind_domain(alloc, policy, turns, domain, hosts, &mut office),
        Command::Portmap { turns, .. } => serve_ports(alloc, turns, &mut office),
        Command::CallMapper {
            turns,
            addr,
            call,
            ..
        } => ask_mapper(alloc, turns, addr, call, &mut office),
        Command::Ask { addr, question } => ask(alloc, rt, addr, question, &mut office),
        Command::Orders {
            first,
            others,
            domain,
        } => compare(alloc, first, &others, &domain, &mut office),
        Command::Session {
            name,
            addr,
            stores,
            hosts,
        } => {
            let spec = SessionSpec {
                own: name,
                peer: addr,
                stores,
            };
            return serve_session(alloc, rt, spec, hosts, office, witness);
        },
        Command::Push(job) => return push_map(alloc, rt, job, office),
        Command::Serve(_) => unreachable!(),
    };
    (status, office)
}

/// Tells a status in one line, if it has one. A failed write is dropped.
pub fn tell<K: Sink>(notes: &mut K, status: &Status)
    requires { IsTellable status.now }
    ensures note { ¬ HasRisen (K.faults notes.old) (K.faults notes.new)
        → Appends (K.output notes.old) (K.output notes.new) (note status.now) }
    ensures never_falls { K.faults notes.old ≤ K.faults notes.new }
{
    let _ = write_all(notes, &status.note());
}

/// Does all that a command asks for that serves no listener, on the outside that it hands back, and writes a note of
/// how it ended. It waits for nobody but the outside. The witness sees the wire behind each record that was answered.
pub fn run_alone<
    S: Source,
    K: Sink,
    D: Disk,
    C: Clock,
    L,
    A: Dial,
    I: Inbox,
    T: Texts,
    W: Witness<S, K>,
>(
    alloc: Global,
    rt: &impl RandomSource,
    command: Command,
    outside: Outside<S, K, D, C, L, A, I, T>,
    witness: &mut W,
) -> (Status, Outside<S, K, D, C, L, A, I, T>)
    requires alone { IsAlone (meaning command) }
    requires names { HasNames (meaning command) }
    requires disks { names_of outside.office.disks.items ≡ stores_of (meaning command) }
    ensures does { AloneDoes (seeing S.Source K.Sink D.Disk C.Clock A.Dial I.Inbox T.Texts) (meaning command) result.0
        (witnessed outside.office (W.wires witness.old)) (witnessed result.1.office (W.wires witness.new)) }
    ensures doors { result.1.doors ≡ outside.doors }
    ensures may_end { IsTrue (may_end (meaning command) result.0) }
    ensures disks { names_of result.1.office.disks.items ≡ names_of outside.office.disks.items }
    ensures clock { C.moment result.1.office.clock ≡ C.moment outside.office.clock }
    ensures passed_on { IsPassedOn (seeing S.Source K.Sink D.Disk C.Clock A.Dial I.Inbox T.Texts) result.0
        outside.office result.1.office }
    ensures note { ¬ HasRisen (K.faults outside.notes) (K.faults result.1.notes)
        → Appends (K.output outside.notes) (K.output result.1.notes) (note result.0) }
{
    let mut outside = outside;
    let (status, office) = obey(alloc, rt, command, outside.office, witness);
    outside.office = office;
    tell(&mut outside.notes, &status);
    (status, outside)
}

/// Serves all who call, on the outside that it hands back, and writes a note of how it ended.
fn run_server<S, K, D, C, L, A, I, T, R>(
    alloc: Global,
    rt: &R,
    job: ServeJob,
    outside: Outside<S, K, D, C, L, A, I, T>,
) -> (Status, Outside<S, K, D, C, L, A, I, T>)
where
    S: Source,
    K: Sink + Send + Drop,
    D: Disk + Send + Drop,
    C: Clock + Send + Drop,
    L: Hall + Send + Drop,
    L::In: Send,
    L::Out: Send,
    L::Closer: Send,
    L::Watch: Send,
    L::Waker: Send,
    A: Dial + Send + Drop,
    A::In: Send,
    A::Out: Send,
    I: Inbox + Send + Drop,
    T: Texts + Send + Drop,
    R: Threads + Wait + RandomSource + time::Clock + Sync,
    requires names { HasNames (meaning (Command.Serve job)) }
    requires disks { names_of outside.office.disks.items ≡ stores_of (meaning (Command.Serve job)) }
    ensures does { (logged : List ℕ) × ServeDoes (seeing S.Source K.Sink D.Disk C.Clock A.Dial I.Inbox T.Texts)
        (serve_job_view job) result.0 (outside_by L.Hall I.Inbox outside) (outside_by L.Hall I.Inbox result.1) logged
        × IsNoted (K.faults outside.notes) (K.faults result.1.notes) (K.output outside.notes)
        (K.output result.1.notes) logged result.0 }
    ensures may_end { IsTrue (serve_may_end result.0) }
    ensures passed_on { IsPassedOn (seeing S.Source K.Sink D.Disk C.Clock A.Dial I.Inbox T.Texts) result.0
        outside.office result.1.office }
{
    let (status, mut outside) = serve_maps(alloc, rt, job, outside);
    tell(&mut outside.notes, &status);
    (status, outside)
}

/// Does all that a command asks for, on the outside that it hands back, and writes a note of how it ended. The witness
/// sees the wire behind each record that was answered.
pub fn run_command<S, K, D, C, L, A, I, T, W, R>(
    alloc: Global,
    rt: &R,
    command: Command,
    outside: Outside<S, K, D, C, L, A, I, T>,
    witness: &mut W,
) -> (Status, Outside<S, K, D, C, L, A, I, T>)
where
    S: Source,
    K: Sink + Send + Drop,
    D: Disk + Send + Drop,
    C: Clock + Send + Drop,
    L: Hall + Send + Drop,
    L::In: Send,
    L::Out: Send,
    L::Closer: Send,
    L::Watch: Send,
    L::Waker: Send,
    A: Dial + Send + Drop,
    A::In: Send,
    A::Out: Send,
    I: Inbox + Send + Drop,
    T: Texts + Send + Drop,
    W: Witness<S, K>,
    R: Threads + Wait + RandomSource + time::Clock + Sync,
    requires names { HasNames (meaning command) }
    requires disks { names_of outside.office.disks.items ≡ stores_of (meaning command) }
    ensures does { (logged : List ℕ) × CommandDoes (seeing S.Source K.Sink D.Disk C.Clock A.Dial I.Inbox T.Texts)
        (meaning command) result.0 (witnessed (outside_by L.Hall I.Inbox outside) (W.wires witness.old))
        (witnessed (outside_by L.Hall I.Inbox result.1) (W.wires witness.new)) logged
        × IsNoted (K.faults outside.notes) (K.faults result.1.notes) (K.output outside.notes)
        (K.output result.1.notes) logged result.0 }
    ensures may_end { IsTrue (may_end (meaning command) result.0) }
    ensures disks { names_of result.1.office.disks.items ≡ names_of outside.office.disks.items }
    ensures clock { C.moment result.1.office.clock ≡ C.moment outside.office.clock }
    ensures passed_on { IsPassedOn (seeing S.Source K.Sink D.Disk C.Clock A.Dial I.Inbox T.Texts) result.0
        outside.office result.1.office }
{
    match command {
        Command::Serve(job) => run_server(alloc, rt, job, outside),
        command => run_alone(alloc, rt, command, outside, witness),
    }
}

/// Does all that the words ask for, as [`run`] does. The witness sees the wire behind each record that was answered.
pub fn run_watched<S, K, D, C, L, A, I, T, W, R>(
    alloc: Global,
    rt: &R,
    words: &[String],
    outside: Outside<S, K, D, C, L, A, I, T>,
    witness: &mut W,
) -> (Status, Outside<S, K, D, C, L, A, I, T>)
where
    S: Source,
    K: Sink + Send + Drop,
    D: Disk + Send + Drop,
    C: Clock + Send + Drop,
    L: Hall + Send + Drop,
    L::In: Send,
    L::Out: Send,
    L::Closer: Send,
    L::Watch: Send,
    L::Waker: Send,
    A: Dial + Send + Drop,
    A::In: Send,
    A::Out: Send,
    I: Inbox + Send + Drop,
    T: Texts + Send + Drop,
    W: Witness<S, K>,
    R: Threads + Wait + RandomSource + time::Clock + Sync,
    requires disks { names_of outside.office.disks.items ≡ disk_names (texts words.now) }
    ensures does { (logged : List ℕ) × Does (seeing S.Source K.Sink D.Disk C.Clock A.Dial I.Inbox T.Texts)
        (command_of (texts words.now)) result.0 (witnessed (outside_by L.Hall I.Inbox outside) (W.wires witness.old))
        (witnessed (outside_by L.Hall I.Inbox result.1) (W.wires witness.new)) logged
        × IsNoted (K.faults outside.notes) (K.faults result.1.notes) (K.output outside.notes)
        (K.output result.1.notes) logged result.0 }
    ensures may_end { MayEnd (command_of (texts words.now)) result.0 }
    ensures disks { names_of result.1.office.disks.items ≡ names_of outside.office.disks.items }
    ensures clock { C.moment result.1.office.clock ≡ C.moment outside.office.clock }
    ensures passed_on { IsPassedOn (seeing S.Source K.Sink D.Disk C.Clock A.Dial I.Inbox T.Texts) result.0
        outside.office result.1.office }
{
    match parse(alloc, words) {
        Ok(command) => run_command(alloc, rt, command, outside, witness),
        Err(fault) => {
            let mut outside = outside;
            let status = status_of(fault);
            tell(&mut outside.notes, &status);
            (status, outside)
        }
    }
}

/// The status of words that weren't parsed.
fn status_of(fault: ParseFault) -> Status
    ensures status { result ≡ parse_status fault }
    ensures tellable { IsTellable result }
{
    match fault {
        ParseFault::Usage { word } => Status::Usage { word },
        ParseFault::NoMemory => Status::NoMemory,
    }
}

/// Does all that the program does: what the words ask for, on the outside that it hands back, and a note of how it
/// ended. The records of the input are those of its one cut (RFC 5531 section 11), at most 262,144 bytes each.
pub fn run<S, K, D, C, L, A, I, T, R>(
    alloc: Global,
    rt: &R,
    words: &[String],
    outside: Outside<S, K, D, C, L, A, I, T>,
) -> (Status, Outside<S, K, D, C, L, A, I, T>)
where
    S: Source,
    K: Sink + Send + Drop,
    D: Disk + Send + Drop,
    C: Clock + Send + Drop,
    L: Hall + Send + Drop,
    L::In: Send,
    L::Out: Send,
    L::Closer: Send,
    L::Watch: Send,
    L::Waker: Send,
    A: Dial + Send + Drop,
    A::In: Send,
    A::Out: Send,
    I: Inbox + Send + Drop,
    T: Texts + Send + Drop,
    R: Threads + Wait + RandomSource + time::Clock + Sync,
    requires disks { names_of outside.office.disks.items ≡ disk_names (texts words.now) }

    // What is done for the words, by the one relation of their command, over the wires that a witness of the run saw
    // behind its answered records. What it logs stands in the notes, and then the status is told there.
    ensures does { (wires : List Wire) × (logged : List ℕ)
        × Does (seeing S.Source K.Sink D.Disk C.Clock A.Dial I.Inbox T.Texts)
        (command_of (texts words.now)) result.0 (witnessed (outside_by L.Hall I.Inbox outside) [])
        (witnessed (outside_by L.Hall I.Inbox result.1) wires) logged
        × IsNoted (K.faults outside.notes) (K.faults result.1.notes) (K.output outside.notes)
        (K.output result.1.notes) logged result.0 }

    // How it may end.
    ensures may_end { MayEnd (command_of (texts words.now)) result.0 }

    // The disks and the clock come back.
    ensures disks { names_of result.1.office.disks.items ≡ names_of outside.office.disks.items }
    ensures clock { C.moment result.1.office.clock ≡ C.moment outside.office.clock }

    // What was taken was passed on, but for a write fault.
    ensures passed_on { IsPassedOn (seeing S.Source K.Sink D.Disk C.Clock A.Dial I.Inbox T.Texts) result.0
        outside.office result.1.office }
{
    let mut trail = Trail::new();
    run_watched(alloc, rt, words, outside, &mut trail)
}
