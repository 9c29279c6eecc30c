//! What comes of a run, and what a row wants of it.

use crate::hall::StageHall;
use crate::outside::{FIRST_PORT, Memory, bytes_of};
use crate::row::{Datagram, NEVER, Row, Stands};
use std::alloc::{AllocError, Global};
use std::random::RandomSource;
use yp_io::{Letter, Peer, Sending};
use yp_map_file::Slot;
use yp_memory::{HallCall, MemDial, MemDisk, MemInbox};
use yp_program::{NamedDisk, Status};

/// What came of a run, or what a row wants, as a text with a line for each thing that a row looks at, in one order: the
/// status, the output and the note; the letters of the inbox and those that were late, and its turns; the letters and
/// the wires of the dial, and how many bytes the first wire took; what each connection had taken that went back, in the
/// order in which they came; and what the first file stands for, and its bytes.
#[derive(Drop)]
pub struct Ended {
    text: String,
}

impl Ended {
    fn new(alloc: Global) -> Ended {
        Ended {
            text: String::new(alloc),
        }
    }

    pub fn text(&self) -> &str {
        &self.text
    }

    fn number(&mut self, alloc: Global, name: &str, number: u64) -> Result<(), AllocError> {
        let line = format!(in alloc; "{name} {number}\n")?;
        self.text.push_str(&line)
    }

    // No two lists of bytes have one line.
    fn bytes(&mut self, alloc: Global, name: &str, bytes: &[u8]) -> Result<(), AllocError> {
        let line = format!(in alloc; "{name} {}\n", bytes.escape_ascii())?;
        self.text.push_str(&line)
    }

    fn letter(
        &mut self,
        alloc: Global,
        name: &str,
        to: Peer,
        bytes: &[u8],
    ) -> Result<(), AllocError> {
        let line = format!(in alloc; "to {:?} port {} ", to.addr, to.port)?;
        self.text.push_str(&line)?;
        self.bytes(alloc, name, bytes)
    }

    fn stands(&mut self, alloc: Global, stands: &Stands) -> Result<(), AllocError> {
        let line = match stands {
            Some((order, rows, secure)) => format!(in alloc; "stands {order} {rows} {secure}\n"),
            None => format!(in alloc; "stands for none\n"),
        }?;
        self.text.push_str(&line)
    }
}

/// How many bytes the first wire took that was given back, where a row looks at them.
fn asked_of(dial: &MemDial, row: &Row) -> usize {
    match dial.past() {
        [wire, ..] if row.asked > 0 => wire.sink.taken().len(),
        _ => 0,
    }
}

/// How many turns an inbox took, where a row looks at them.
fn turns_of(inbox: &MemInbox, row: &Row) -> u64 {
    if row.turns == NEVER {
        NEVER
    } else {
        inbox.turns()
    }
}

/// The bytes of the first file.
fn first_file(disks: &[NamedDisk<MemDisk>]) -> &[u8] {
    match disks {
        [first, ..] => first.disk.bytes(),
        [] => &[],
    }
}

/// What a file stands for. One that is damaged stands for nothing.
pub fn stands_of(alloc: Global, rt: &impl RandomSource, file: &[u8]) -> Result<Stands, AllocError> {
    let file = Vec::from_slice(alloc, file)?;
    let disk = MemDisk::new(alloc, file, None, Vec::new(alloc));
    match Slot::new(disk).load(alloc, rt) {
        Ok(Some(version)) => Ok(Some((version.order().number(), version.len(), version.secure()))),
        _ => Ok(None),
    }
}

fn put_sent(ended: &mut Ended, alloc: Global, letters: &[Letter]) -> Result<(), AllocError> {
    for letter in letters {
        ended.letter(alloc, "sent", letter.peer, &letter.bytes)?;
    }
    Ok(())
}

fn put_dialed(ended: &mut Ended, alloc: Global, sendings: &[Sending]) -> Result<(), AllocError> {
    for sending in sendings {
        let (name, letter) = match sending {
            Sending::Posted { letter } => ("posted", letter),
            Sending::Asked { letter, answer: _ } => ("asked", letter),
        };
        ended.letter(alloc, name, letter.peer, &letter.bytes)?;
    }
    Ok(())
}

// What the connection from this port has taken, where it is one of these.
fn put_taken(
    ended: &mut Ended,
    alloc: Global,
    calls: &[HallCall],
    port: u16,
) -> Result<(), AllocError> {
    for call in calls {
        if call.origin.peer().port == port {
            ended.bytes(alloc, "taken", call.wire.sink.wire.taken())?;
        }
    }
    Ok(())
}

// In the order in which the connections came, whichever worker closed them.
fn put_closed(ended: &mut Ended, alloc: Global, listen: &StageHall) -> Result<(), AllocError> {
    let mut port = FIRST_PORT;
    for _ in 0..listen.accepted() {
        for closer in listen.closers() {
            put_taken(ended, alloc, closer.calls(), port)?;
        }
        port = port.saturating_add(1);
    }
    Ok(())
}

fn put_came(
    ended: &mut Ended,
    alloc: Global,
    rt: &impl RandomSource,
    row: &Row,
    outside: &Memory,
) -> Result<(), AllocError> {
    let (office, doors) = (&outside.office, &outside.doors);
    ended.bytes(alloc, "output", office.wire.sink.taken())?;
    ended.bytes(alloc, "note", outside.notes.taken())?;
    put_sent(ended, alloc, office.inbox.letters())?;
    put_sent(ended, alloc, doors.outbox.letters())?;
    ended.number(alloc, "turns", turns_of(&office.inbox, row))?;
    put_dialed(ended, alloc, office.dial.letters())?;
    ended.number(alloc, "wires", office.dial.came().len() as u64)?;
    ended.number(alloc, "taken", asked_of(&office.dial, row) as u64)?;
    put_closed(ended, alloc, &doors.listen)?;
    let file = first_file(&office.disks);
    ended.stands(alloc, &stands_of(alloc, rt, file)?)?;
    ended.bytes(alloc, "file", if row.torn { &[] } else { file })
}

/// What came of a run, as far as a row looks at it.
pub fn ended_of(
    alloc: Global,
    rt: &impl RandomSource,
    row: &Row,
    status: &Status,
    outside: &Memory,
) -> Result<Ended, AllocError> {
    let mut ended = Ended::new(alloc);
    ended.number(alloc, "status", status.code() as u64)?;
    put_came(&mut ended, alloc, rt, row, outside)?;
    Ok(ended)
}

// Words as a line of bytes.
fn put_words(
    ended: &mut Ended,
    alloc: Global,
    name: &str,
    words: &[&str],
) -> Result<(), AllocError> {
    let bytes = bytes_of(alloc, words)?;
    ended.bytes(alloc, name, &bytes)
}

fn put_datagram(
    ended: &mut Ended,
    alloc: Global,
    name: &str,
    datagram: &Datagram,
) -> Result<(), AllocError> {
    let bytes = bytes_of(alloc, datagram.bytes)?;
    ended.letter(alloc, name, datagram.peer, &bytes)
}

fn put_wanted(
    ended: &mut Ended,
    alloc: Global,
    row: &Row,
    output: &[u8],
) -> Result<(), AllocError> {
    ended.bytes(alloc, "output", output.get(..row.cut).unwrap_or(output))?;
    ended.bytes(alloc, "note", row.note.as_bytes())?;
    for datagram in row.sends {
        put_datagram(ended, alloc, "sent", datagram)?;
    }
    ended.number(alloc, "turns", row.turns)?;
    for datagram in row.asks {
        put_datagram(ended, alloc, "asked", datagram)?;
    }
    for datagram in row.posts {
        put_datagram(ended, alloc, "posted", datagram)?;
    }
    ended.number(alloc, "wires", row.wires as u64)?;
    ended.number(alloc, "taken", row.asked as u64)?;
    for words in row.takes {
        put_words(ended, alloc, "taken", *words)?;
    }
    ended.stands(alloc, &row.stands)?;
    if row.torn {
        return ended.bytes(alloc, "file", &[]);
    }
    put_words(ended, alloc, "file", row.left)
}

/// What a row wants, with this output.
pub fn wanted_of(alloc: Global, row: &Row, output: &[u8]) -> Result<Ended, AllocError> {
    let mut ended = Ended::new(alloc);
    ended.number(alloc, "status", row.code as u64)?;
    put_wanted(&mut ended, alloc, row, output)?;
    Ok(ended)
}
