//! The program: it reads its words, and does the command that they are on the standard streams, the files of maps, the
//! clock, connections and the texts of maps.
#![tactic(auto)]

ghost use Rattle.std.specs.Prelude.{◌≡◌, IfOk, unwrap_or};
ghost use Rattle.yp_command.specs.office.Disks.{names_of};
ghost use Rattle.yp_command.specs.inside.office.Status.{IsTellable};
ghost use Rattle.yp_command.specs.Words.{meaning, stores_of};
ghost use Rattle.yp_command.specs.inside.Words.{connections_of, port_of};

use std::alloc::{AllocError, Global};
use std::process::ExitCode;
use yp_board::MapName;
use yp_io::{Failed, Hall, NoMemory, Pair, Sink, Trail};
use yp_program::{
    Command, Doors, NamedDisk, Office, Outside, ParseFault, Status, connections_of, named_disks,
    parse, port_of, run_command, stores_of, tell,
};
use yp_system::{
    BlockReader, DirectWriter, FileDisk, LocalPorts, Locking, Patient, StandardStream, SystemClock,
    TcpDial, TcpHall, TextFolder, UdpInbox, read_words,
};

/// When a command keeps a map for itself. A server does so for life, so that each map has one writer. A session answers
/// from what it loaded, and may never write. What is checked, dumped, pushed or reversed is only read.
fn locking_of(command: &Command, name: &MapName) -> Locking {
    match command {
        Command::Build { .. } => Locking::FromReading,
        Command::Load { .. } => Locking::FromReading,
        Command::Xfr(_) => Locking::FromReading,
        Command::Walk(_) => Locking::FromReading,
        Command::Serve(_) => Locking::FromStart,
        Command::Revnet { store, .. } if store.map == name.map => Locking::FromReading,
        Command::Session { .. } => Locking::FromWriting,
        Command::Once { .. }
        | Command::Check { .. }
        | Command::Dump { .. }
        | Command::Revnet { .. }
        | Command::Sample { .. }
        | Command::Push(_)
        | Command::Bind { .. }
        | Command::Portmap { .. }
        | Command::CallMapper { .. }
        | Command::Ask { .. }
        | Command::Orders { .. } => Locking::Never,
    }
}

/// The ports from which a command opens wires. A server gives the rows of a secure map to those under 1,024 alone, and
/// what fetches maps fetches these, too. ypserv lets itself be pushed from those alone.
fn local_ports_of(command: &Command) -> LocalPorts {
    match command {
        Command::Xfr(_) | Command::Serve(_) | Command::Session { .. } | Command::Push(_) =>
            LocalPorts::Reserved,
        Command::Once { .. }
        | Command::Check { .. }
        | Command::Dump { .. }
        | Command::Build { .. }
        | Command::Load { .. }
        | Command::Walk(_)
        | Command::Revnet { .. }
        | Command::Sample { .. }
        | Command::Bind { .. }
        | Command::Portmap { .. }
        | Command::CallMapper { .. }
        | Command::Ask { .. }
        | Command::Orders { .. } => LocalPorts::Any,
    }
}

/// The files of the maps of a command.
fn disks(
    alloc: Global,
    files: HostRuntime,
    command: &Command,
) -> Result<Vec<NamedDisk<FileDisk<HostRuntime>>>, NoMemory>
    ensures { IfOk result (λ disks. names_of disks.items ≡ stores_of (meaning command.now)) }
{
    let names = stores_of(alloc, command)?;
    let make = |name: &MapName| {
        let locking = locking_of(command, name);
        FileDisk::new(alloc, files, &name.domain, &name.map, locking)
    };
    match named_disks(alloc, names, make) {
        Ok(disks) => Ok(disks),
        Err(AllocError) => Err(NoMemory),
    }
}

/// Whether a command answers calls by TCP at the port of its datagrams, too. Clients ask a binder by TCP, and a port
/// mapper by either.
fn takes_calls(command: &Command) -> bool {
    matches!(command, Command::Bind { .. } | Command::Portmap { .. })
}

/// The listener and the inbox of a command. One without a port opens none. Any other has it open before it asks
/// anybody, who may answer at once, and before it answers anybody.
fn ports(
    alloc: Global,
    net: HostRuntime,
    command: &Command,
) -> (TcpHall<HostRuntime>, UdpInbox<HostRuntime>)
    ensures most { ⟦<TcpHall<HostRuntime> as Hall>⟧.most result.0 ≡ connections_of (meaning command.now) }
    ensures accepted { ⟦<TcpHall<HostRuntime> as Hall>⟧.accepted result.0 ≡ 0 }
    ensures ports { (result.0.port ≡ unwrap_or (port_of (meaning command.now)) 0)
        × (result.1.port ≡ unwrap_or (port_of (meaning command.now)) 0) }
{
    let wanted = port_of(command);
    let port = wanted.unwrap_or(0);
    let mut listen = TcpHall::new(alloc, net, port, connections_of(command));
    let mut inbox = if takes_calls(command) {
        UdpInbox::with_calls(alloc, net, port)
    } else {
        UdpInbox::new(alloc, net, port)
    };
    if let Command::Serve(_) = command {
        listen.open();
    }
    if wanted.is_some() {
        inbox.open();
    }
    (listen, inbox)
}

/// The turns of a server that is to serve for ever.
const FOREVER: u64 = u64::MAX;

/// Further ends of the port of an inbox. A server that serves for ever has as many ends as workers, so that datagrams
/// are answered by as many as connections are. There are none for any other command, nor where they can't be opened.
fn further_ends(
    alloc: Global,
    command: &Command,
    inbox: &mut UdpInbox<HostRuntime>,
) -> Vec<UdpInbox<HostRuntime>> {
    match command {
        Command::Serve(job) if job.turns == FOREVER && job.workers > 1 => {
            match inbox.ends(alloc, job.workers - 1) {
                Ok(ends) => ends,
                Err(Failed) => Vec::new(alloc),
            }
        }
        _ => Vec::new(alloc),
    }
}

/// One more end of the port of an inbox, from which a server replies to what its inboxes leave. It is open for a server
/// alone. Where it can't be opened, its first reply tries again, and fails.
fn sending_end(
    alloc: Global,
    net: HostRuntime,
    command: &Command,
    inbox: &mut UdpInbox<HostRuntime>,
) -> UdpInbox<HostRuntime> {
    if let Command::Serve(_) = command
        && let Ok(end) = inbox.sending(alloc)
    {
        return end;
    }
    UdpInbox::new(alloc, net, port_of(command).unwrap_or(0))
}

/// Ends before anything was done.
fn end<K: Sink>(notes: &mut K, status: &Status) -> ExitCode
    requires { IsTellable status.now }
{
    tell(notes, status);
    ExitCode::from(status.code())
}

fn main(rt: HostRuntime) -> ExitCode {
    let alloc = rt.alloc();
    let mut notes = DirectWriter::new(Patient::new(StandardStream::Error(rt.stderr()), rt));
    let input = BlockReader::new(alloc, Patient::new(rt.stdin(), rt));
    let (Ok(words), Ok(input)) = (read_words(&rt, alloc), input) else {
        return end(&mut notes, &Status::NoMemory);
    };
    let command = match parse(alloc, &words) {
        Ok(command) => command,
        Err(ParseFault::Usage { word }) => return end(&mut notes, &Status::Usage { word }),
        Err(ParseFault::NoMemory) => return end(&mut notes, &Status::NoMemory),
    };
    let Ok(disks) = disks(alloc, rt, &command) else {
        return end(&mut notes, &Status::NoMemory);
    };
    let (listen, mut inbox) = ports(alloc, rt, &command);
    let more = further_ends(alloc, &command, &mut inbox);
    let outbox = sending_end(alloc, rt, &command, &mut inbox);
    let output = DirectWriter::new(Patient::new(StandardStream::Output(rt.stdout()), rt));
    let wire = Pair {
        source: input,
        sink: output,
    };
    let office = Office {
        wire,
        disks,
        clock: SystemClock::new(&rt),
        dial: TcpDial::new(alloc, rt, local_ports_of(&command)),
        inbox,
        texts: TextFolder::new(alloc, rt),
    };
    let doors = Doors {
        listen,
        more,
        outbox,
    };
    let outside = Outside {
        office,
        doors,
        notes,
    };
    let (status, _outside) = run_command(alloc, &rt, command, outside, &mut Trail::new());
    ExitCode::from(status.code())
}
