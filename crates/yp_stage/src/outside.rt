//! The outside of a row, over memory.

ghost use Rattle.std.specs.Prelude.{◌≡◌, All, IfOk};
ghost use Rattle.yp_memory.specs.inside.MemDial.{WireIsNew};
ghost use Rattle.yp_memory.specs.inside.MemHall.{EntryIsNew};
ghost use Rattle.yp_command.specs.Words.{disk_names, texts};
ghost use Rattle.yp_command.specs.office.Disks.{names_of};

use crate::hall::StageHall;
use crate::row::{Datagram, NEVER, Row, Words};
use std::alloc::{AllocError, Global};
use yp_board::MapName;
use yp_io::{CallOrigin, Called, Letter, OWN_HOST, Pair, Peer};
use yp_memory::{
    HallCall, MemDial, MemDisk, MemHall, MemInbox, MemSink, MemSource, MemTexts, MemWire,
    Scheduled, SetClock,
};
use yp_program::{Doors, NamedDisk, Office, Outside, disk_names, named_disks};

/// The outside in memory.
pub type Memory = Outside<
    MemSource,
    MemSink,
    MemDisk,
    SetClock,
    StageHall,
    MemDial,
    MemInbox,
    MemTexts,
>;

/// What a run finds beside its row: its words, its input, the file of the map, and what the first wire gives.
#[derive(Clone, Copy)]
pub struct Found<'a> {
    pub words: &'a [String],
    pub input: &'a [u8],
    pub file: &'a [u8],
    pub wire: &'a [u8],
}

/// The bytes of texts of hexadecimal words.
pub fn bytes_of(alloc: Global, words: &[&str]) -> Result<Vec<u8>, AllocError> {
    match yp_for_tests::bytes(alloc, words) {
        Some(bytes) => Ok(bytes),
        None => Err(AllocError),
    }
}

/// A list of one call.
fn plan(alloc: Global, call: u64) -> Result<Vec<u64>, AllocError> {
    Vec::from_slice(alloc, &[call])
}

fn source_of(alloc: Global, input: &[u8], row: &Row) -> Result<MemSource, AllocError> {
    let failing = plan(alloc, row.reads)?;
    let input = Vec::from_slice(alloc, input)?;
    Ok(MemSource::new(input, row.read.max(1), failing))
}

fn sink_of(alloc: Global, piece: usize, call: u64) -> Result<MemSink, AllocError> {
    let failing = plan(alloc, call)?;
    Ok(MemSink::new(alloc, piece.max(1), failing))
}

/// The disk of a map.
fn disk_of(alloc: Global, map: &[u8], row: &Row, file: &[u8]) -> Result<MemDisk, AllocError> {
    if map == b"netgroup".as_slice() || map == b"ypservers".as_slice() {
        let failing = plan(alloc, row.other_disk)?;
        let bytes = bytes_of(alloc, row.other)?;
        return Ok(MemDisk::new(alloc, bytes, None, failing));
    }
    let failing = plan(alloc, row.disk)?;
    let bytes = Vec::from_slice(alloc, file)?;
    Ok(MemDisk::new(alloc, bytes, Some(row.stop), failing))
}

/// The disks that the words name.
fn disks_of(
    alloc: Global,
    words: &[String],
    row: &Row,
    file: &[u8],
) -> Result<Vec<NamedDisk<MemDisk>>, AllocError>
    ensures { IfOk result (λ disks. names_of disks.items ≡ disk_names (texts words.now)) }
{
    let Ok(names) = disk_names(alloc, words) else {
        return Err(AllocError);
    };
    let make = |name: &MapName| disk_of(alloc, &name.map, row, file);
    named_disks(alloc, names, make)
}

fn wire_of(
    alloc: Global,
    input: &[u8],
    piece: usize,
    reads: u64,
    writes: u64,
) -> Result<MemWire, AllocError>
    ensures { IfOk result WireIsNew }
{
    let reads = plan(alloc, reads)?;
    let writes = plan(alloc, writes)?;
    let input = Vec::from_slice(alloc, input)?;
    Ok(Pair {
        source: MemSource::new(input, piece.max(1), reads),
        sink: MemSink::new(alloc, piece.max(1), writes),
    })
}

/// The wires that come.
fn wires_of(alloc: Global, row: &Row, wire: &[u8]) -> Result<Vec<MemWire>, AllocError>
    ensures { IfOk result (λ wires. All WireIsNew wires.items) }
{
    let first = wire_of(alloc, wire, row.piece, row.wire_reads, row.wire_writes)?;
    let second = bytes_of(alloc, row.second_wire)?;
    let second = wire_of(alloc, &second, row.piece, NEVER, NEVER)?;
    Ok(vec![in alloc; first, second]?)
}

/// What comes back of questions.
fn answers_of(alloc: Global, answers: &[Words]) -> Result<Vec<Option<Vec<u8>>>, AllocError> {
    let mut came = Vec::new(alloc);
    for words in answers {
        let answer = bytes_of(alloc, *words)?;
        came.push((!words.is_empty()).then_some(answer))?;
    }
    Ok(came)
}

fn dial_of(alloc: Global, row: &Row, wire: &[u8]) -> Result<MemDial, AllocError> {
    let failing = plan(alloc, row.dials)?;
    let answers = answers_of(alloc, row.answers)?;
    let wires = wires_of(alloc, row, wire)?;
    Ok(MemDial::with_answers(alloc, wires, answers, failing))
}

/// What a turn brings.
fn turn_of(alloc: Global, datagram: &Datagram) -> Result<Option<Letter>, AllocError> {
    if datagram.bytes.is_empty() {
        return Ok(None);
    }
    Ok(Some(Letter {
        peer: datagram.peer,
        bytes: bytes_of(alloc, datagram.bytes)?,
    }))
}

fn inbox_of(alloc: Global, row: &Row) -> Result<MemInbox, AllocError> {
    let failing = plan(alloc, row.inbox)?;
    let mut mail = Vec::new(alloc);
    for datagram in row.brings {
        let turn = turn_of(alloc, datagram)?;
        mail.push(turn)?;
    }
    Ok(MemInbox::new(alloc, mail, failing))
}

/// What replies are sent from that an inbox leaves.
fn outbox_of(alloc: Global, row: &Row) -> Result<MemInbox, AllocError> {
    let failing = plan(alloc, row.outbox)?;
    Ok(MemInbox::new(alloc, Vec::new(alloc), failing))
}

/// The texts that maps are made of.
fn texts_of(alloc: Global, row: &Row) -> Result<MemTexts, AllocError> {
    let failing = plan(alloc, row.texts)?;
    let mut texts = Vec::new(alloc);
    for (name, text) in row.sources {
        let name = Vec::from_slice(alloc, name.as_bytes())?;
        let text = Vec::from_slice(alloc, text.as_bytes())?;
        texts.push((name, text))?;
    }
    Ok(MemTexts::new(texts, failing))
}

/// The port from which the first connection comes. Each one behind it comes from the next port.
pub const FIRST_PORT: u16 = 40_000;

/// A connection from this port that sends these words and can always go on, and the read, and the write or flush, of it
/// that fail.
fn call_of(
    alloc: Global,
    port: u16,
    words: &[&str],
    piece: usize,
    reads: u64,
    writes: u64,
) -> Result<HallCall, AllocError>
    ensures { IfOk result EntryIsNew }
{
    let input = bytes_of(alloc, words)?;
    let Pair { source, sink } = wire_of(alloc, &input, piece, reads, writes)?;
    let wire = Pair {
        source: Scheduled::new(source, Vec::new(alloc)),
        sink: Scheduled::new(sink, Vec::new(alloc)),
    };
    let caller = Peer {
        addr: OWN_HOST,
        port,
    };
    Ok(Called {
        origin: CallOrigin::new(caller, &wire),
        wire,
    })
}

/// The listener. The first connection alone has calls that fail.
fn hall_of(alloc: Global, row: &Row) -> Result<StageHall, AllocError> {
    let failing = plan(alloc, row.accepts)?;
    let (mut reads, mut writes) = (row.call_reads, row.call_writes);
    let mut port = FIRST_PORT;
    let mut calls = Vec::new(alloc);
    for words in row.calls {
        let call = call_of(alloc, port, *words, row.piece, reads, writes)?;
        calls.push(call)?;
        (reads, writes) = (NEVER, NEVER);
        port = port.saturating_add(1);
    }
    let hall = MemHall::new(
        alloc,
        calls,
        row.most,
        failing,
        Vec::new(alloc),
        Vec::new(alloc),
    );
    Ok(StageHall::new(alloc, hall))
}

/// What any command reaches.
type MemOffice = Office<MemSource, MemSink, MemDisk, SetClock, MemDial, MemInbox, MemTexts>;

/// What any command reaches of a row.
fn office_of(alloc: Global, row: &Row, found: &Found<'_>) -> Result<MemOffice, AllocError>
    ensures disks { IfOk result (λ office. names_of office.disks.items ≡ disk_names (texts found.now.words.now)) }
{
    let texts = texts_of(alloc, row)?;
    let disks = disks_of(alloc, found.words, row, found.file)?;
    let source = source_of(alloc, found.input, row)?;
    let sink = sink_of(alloc, row.write, row.writes)?;
    let inbox = inbox_of(alloc, row)?;
    let dial = dial_of(alloc, row, found.wire)?;
    Ok(Office {
        wire: Pair { source, sink },
        disks,
        clock: SetClock { moment: row.moment },
        dial,
        inbox,
        texts,
    })
}

/// What callers of a server come by.
fn doors_of(alloc: Global, row: &Row) -> Result<Doors<StageHall, MemInbox>, AllocError> {
    let outbox = outbox_of(alloc, row)?;
    let listen = hall_of(alloc, row)?;
    Ok(Doors {
        listen,
        more: Vec::new(alloc),
        outbox,
    })
}

/// The outside of a row.
pub fn memory_of(alloc: Global, row: &Row, found: &Found<'_>) -> Result<Memory, AllocError>
    ensures disks { IfOk result (λ outside. names_of outside.office.disks.items
        ≡ disk_names (texts found.now.words.now)) }
{
    let office = office_of(alloc, row, found)?;
    let doors = doors_of(alloc, row)?;
    let notes = sink_of(alloc, 4_096, row.notes)?;
    Ok(Outside {
        office,
        doors,
        notes,
    })
}
