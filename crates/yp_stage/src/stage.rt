//! Rows that are tried.

ghost use Rattle.std.specs.Prelude.{◌≡◌, IfOk};
ghost use Rattle.yp_command.specs.Words.{disk_names, texts};
ghost use Rattle.yp_command.specs.office.Disks.{names_of};

use crate::ended::{Ended, ended_of, stands_of, wanted_of};
use crate::outside::{Found, Memory, bytes_of, memory_of};
use crate::row::{After, DiskCalls, FAIR, Row, Stands};
use std::alloc::{AllocError, Global};
use std::random::RandomSource;
use std::sync::Wait;
use std::thread::Threads;
use std::time::Clock;
use yp_memory::MemDisk;
use yp_program::{NamedDisk, Status, run};

/// What is wrong with a row.
#[derive(Debug, Drop)]
pub enum Wrong {
    /// Memory ran out, or a word isn't hexadecimal.
    NotMade,
    /// Something else came of it; the text says what.
    Came(String),
    /// A file that a crash may leave stands for something else.
    Crashed(Stands),
}

impl From<AllocError> for Wrong {
    fn from(_: AllocError) -> Wrong {
        Wrong::NotMade
    }
}

pub fn strings_of(alloc: Global, words: &[&str]) -> Result<Vec<String>, AllocError> {
    let mut owned = Vec::new(alloc);
    for word in words {
        let word = String::from_str(alloc, word)?;
        owned.push(word)?;
    }
    Ok(owned)
}

/// Bytes, and a text behind them.
fn joined(alloc: Global, words: &[&str], text: &str) -> Result<Vec<u8>, AllocError> {
    let mut bytes = bytes_of(alloc, words)?;
    bytes.extend_from_slice(text.as_bytes())?;
    Ok(bytes)
}

/// A crash may keep each of the last three writes, or drop it.
const CRASHES: u64 = 8;

/// The files that a crash may leave of the first disk, each once.
fn images_of(alloc: Global, disks: &[NamedDisk<MemDisk>]) -> Result<Vec<Vec<u8>>, AllocError> {
    let mut images = Vec::new(alloc);
    let Some((first, _)) = disks.split_first() else {
        return Ok(images);
    };
    for kept in 0..CRASHES {
        let Ok(image) = first.disk.crashed(kept) else {
            return Err(AllocError);
        };
        if !images.contains(&image) {
            images.push(image)?;
        }
    }
    Ok(images)
}

/// What came of a run, and the files that a crash may leave.
#[derive(Drop)]
struct Played {
    ended: Ended,
    images: Vec<Vec<u8>>,
}

fn run_over<R: Threads + Wait + RandomSource + Clock + Sync>(
    alloc: Global,
    rt: &R,
    row: &Row,
    found: &Found<'_>,
) -> Result<(Status, Memory), AllocError> {
    let outside = memory_of(alloc, row, found)?;
    Ok(run(alloc, rt, found.words, outside))
}

/// What the server of a row sends for its calls.
fn served<R: Threads + Wait + RandomSource + Clock + Sync>(
    alloc: Global,
    rt: &R,
    row: &Row,
) -> Result<Vec<u8>, AllocError> {
    let words = strings_of(alloc, row.server)?;
    let calls = bytes_of(alloc, row.wire)?;
    let found = Found {
        words: &words,
        input: &calls,
        file: &[],
        wire: &[],
    };
    let (_status, outside) = run_over(alloc, rt, &FAIR, &found)?;
    Vec::from_slice(alloc, outside.office.wire.sink.taken())
}

/// What the first wire of a row gives.
fn wire_of<R: Threads + Wait + RandomSource + Clock + Sync>(
    alloc: Global,
    rt: &R,
    row: &Row,
) -> Result<Vec<u8>, AllocError> {
    if row.server.is_empty() {
        bytes_of(alloc, row.wire)
    } else {
        served(alloc, rt, row)
    }
}

fn play<R: Threads + Wait + RandomSource + Clock + Sync>(
    alloc: Global,
    rt: &R,
    row: &Row,
    words: &[String],
    input: &[u8],
    file: &[u8],
) -> Result<Played, AllocError> {
    let wire = wire_of(alloc, rt, row)?;
    let found = Found {
        words,
        input,
        file,
        wire: &wire,
    };
    let (status, outside) = run_over(alloc, rt, row, &found)?;
    what_came(alloc, rt, row, &status, &outside)
}

/// What came of a run, seen at its end.
fn what_came(
    alloc: Global,
    rt: &impl RandomSource,
    row: &Row,
    status: &Status,
    outside: &Memory,
) -> Result<Played, AllocError> {
    let images = images_of(alloc, &outside.office.disks)?;
    let ended = ended_of(alloc, rt, row, status, outside)?;
    Ok(Played { ended, images })
}

/// Tells what came, where it isn't what is wanted.
fn compare(alloc: Global, came: &Ended, wanted: &Ended) -> Result<(), Wrong> {
    let (came, wanted) = (came.text(), wanted.text());
    if came == wanted {
        return Ok(());
    }
    let text = format!(in alloc; "{came}came, not\n{wanted}")?;
    Err(Wrong::Came(text))
}

/// What a row finds outside: its words, and all that the program reaches.
#[derive(Drop)]
pub struct SetUp {
    pub words: Vec<String>,
    pub outside: Memory,
}

/// Sets a row up for a run that isn't [`run`] itself.
pub fn set_up<R: Threads + Wait + RandomSource + Clock + Sync>(
    alloc: Global,
    rt: &R,
    row: &Row,
) -> Result<SetUp, AllocError>
    ensures { IfOk result (λ it. names_of it.outside.office.disks.items ≡ disk_names (texts it.words.items)) }
{
    let words = strings_of(alloc, row.words)?;
    let input = joined(alloc, row.input, row.text)?;
    let file = bytes_of(alloc, row.file)?;
    let wire = wire_of(alloc, rt, row)?;
    let found = Found {
        words: &words,
        input: &input,
        file: &file,
        wire: &wire,
    };
    let outside = memory_of(alloc, row, &found)?;
    Ok(SetUp { words, outside })
}

/// Compares what came of a row that was set up.
pub fn try_ended(
    alloc: Global,
    rt: &impl RandomSource,
    row: &Row,
    status: &Status,
    outside: &Memory,
) -> Result<(), Wrong> {
    let output = joined(alloc, row.replies, row.output)?;
    let wanted = wanted_of(alloc, row, &output)?;
    let ended = ended_of(alloc, rt, row, status, outside)?;
    compare(alloc, &ended, &wanted)
}

/// Runs a row over this file, and compares what came of it. The files are those that a crash may leave then.
fn try_over<R: Threads + Wait + RandomSource + Clock + Sync>(
    alloc: Global,
    rt: &R,
    row: &Row,
    file: &[u8],
) -> Result<Vec<Vec<u8>>, Wrong> {
    let words = strings_of(alloc, row.words)?;
    let input = joined(alloc, row.input, row.text)?;
    let output = joined(alloc, row.replies, row.output)?;
    let wanted = wanted_of(alloc, row, &output)?;
    let Played { ended, images } = play(alloc, rt, row, &words, &input, file)?;
    compare(alloc, &ended, &wanted)?;
    Ok(images)
}

/// Runs these words over this input, in place of those of a row, and compares what came with this output and with what
/// else the row wants.
pub fn try_made<R: Threads + Wait + RandomSource + Clock + Sync>(
    alloc: Global,
    rt: &R,
    row: &Row,
    words: &[String],
    input: &[u8],
    output: &[u8],
) -> Result<(), Wrong> {
    let file = bytes_of(alloc, row.file)?;
    let wanted = wanted_of(alloc, row, output)?;
    let Played { ended, .. } = play(alloc, rt, row, words, input, &file)?;
    compare(alloc, &ended, &wanted)
}

/// Runs a row, and compares what came of it.
pub fn try_row<R: Threads + Wait + RandomSource + Clock + Sync>(
    alloc: Global,
    rt: &R,
    row: &Row,
) -> Result<(), Wrong> {
    try_crash(alloc, rt, row, &[])
}

/// Runs what belongs to a file that a crash left.
fn try_image<R: Threads + Wait + RandomSource + Clock + Sync>(
    alloc: Global,
    rt: &R,
    image: &[u8],
    after: &[After],
) -> Result<(), Wrong> {
    let stands = stands_of(alloc, rt, image)?;
    for one in after {
        if one.stands == stands {
            let _ = try_over(alloc, rt, &one.again, image)?;
            return Ok(());
        }
    }
    Err(Wrong::Crashed(stands))
}

/// Runs a row, and compares what came of it. Where rows are given for behind a crash, each file that one may leave has
/// to stand for one of theirs, and that row is run over it.
pub fn try_crash<R: Threads + Wait + RandomSource + Clock + Sync>(
    alloc: Global,
    rt: &R,
    row: &Row,
    after: &[After],
) -> Result<(), Wrong> {
    let file = bytes_of(alloc, row.file)?;
    let images = try_over(alloc, rt, row, &file)?;
    if after.is_empty() {
        return Ok(());
    }
    for image in &images {
        try_image(alloc, rt, image, after)?;
    }
    Ok(())
}

/// Runs a row for each call of the disk, which fails alone.
pub fn try_alone<R: Threads + Wait + RandomSource + Clock + Sync>(
    alloc: Global,
    rt: &R,
    calls: &DiskCalls,
) -> Result<(), Wrong> {
    for call in calls.first..=calls.last {
        let row = Row {
            disk: call,
            ..calls.row
        };
        try_crash(alloc, rt, &row, calls.after)?;
    }
    Ok(())
}

/// Runs a row for each call of the disk, which fails, and all behind it do.
pub fn try_stops<R: Threads + Wait + RandomSource + Clock + Sync>(
    alloc: Global,
    rt: &R,
    calls: &DiskCalls,
) -> Result<(), Wrong> {
    for call in calls.first..=calls.last {
        let row = Row {
            stop: call,
            ..calls.row
        };
        try_crash(alloc, rt, &row, calls.after)?;
    }
    Ok(())
}

/// Runs a row for each call of the disk in both ways.
pub fn try_disk<R: Threads + Wait + RandomSource + Clock + Sync>(
    alloc: Global,
    rt: &R,
    calls: &DiskCalls,
) -> Result<(), Wrong> {
    try_alone(alloc, rt, calls)?;
    try_stops(alloc, rt, calls)
}

/// Runs a row for each of the first reads of its wire, which fails, with rows for behind a crash.
pub fn try_reads<R: Threads + Wait + RandomSource + Clock + Sync>(
    alloc: Global,
    rt: &R,
    row: &Row,
    count: u64,
    after: &[After],
) -> Result<(), Wrong> {
    for call in 0..count {
        let row = Row {
            wire_reads: call,
            ..*row
        };
        try_crash(alloc, rt, &row, after)?;
    }
    Ok(())
}

/// Runs a row for each of the first writes and flushes of its wire, which fails, with rows for behind a crash.
pub fn try_writes<R: Threads + Wait + RandomSource + Clock + Sync>(
    alloc: Global,
    rt: &R,
    row: &Row,
    count: u64,
    after: &[After],
) -> Result<(), Wrong> {
    for call in 0..count {
        let row = Row {
            wire_writes: call,
            ..*row
        };
        try_crash(alloc, rt, &row, after)?;
    }
    Ok(())
}
