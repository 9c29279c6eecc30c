//! The command `sample`: a map of sample rows, and what is answered on it.

ghost use Rattle.std.specs.Prelude.{◌≡◌, ◌<◌, ◌≤◌, ◌⊎◌, IsTrue, length, take, count_by, IfOk, IfErr, OnOk};
ghost use Rattle.std.specs.Arc.{arc_value};
ghost use Rattle.yp_version.specs.Limits.{key_max, value_max, rows_max};
ghost use Rattle.yp_texts.specs.Samples.{sampled};
ghost use Rattle.yp_answer.specs.Numbers.{record_max};
ghost use Rattle.yp_answer.specs.Maps.{maps_of};
ghost use Rattle.yp_command.specs.office.Seeing.{seeing, IsPassedOn};
ghost use Rattle.yp_command.specs.office.Rows.{rows_rule};
ghost use Rattle.yp_command.specs.inside.office.Status.{IsTellable};
ghost use Rattle.yp_command_serve.specs.Callers.{reply_to};
ghost use Rattle.yp_command_serve.specs.Sample.{sample_maps, is_matched, reply_len, sample_all, tally_of, first_over};
ghost use Rattle.yp_command_serve.specs.Sample.{SampleDoes, sample_may_end};

use crate::calls::{SAMPLE, ask, set_all, set_match, set_value};
use crate::once::shown_on;
use crate::tally::SampleTally;
use std::alloc::Global;
use std::random::RandomSource;
use std::sync::Arc;
use yp_answer::RECORD_MAX;
use yp_board::{MapName, PlainBoard};
use yp_command::office::{Office, ROWS_RULE, Status};
use yp_io::{
    Clock, Dial, Disk, Failed, Inbox, NoMemory, Sink, Source, Texts, write_through, zeros,
};
use yp_texts::BuildFault;
use yp_version::Version;

/// Whether MATCH has this value for this key.
fn is_matched(
    board: &mut PlainBoard,
    key: &[u8],
    value: &[u8],
    message: &mut [u8],
    piece: &mut [u8],
    reply: &mut Vec<u8>,
) -> Result<bool, NoMemory>
    requires message { record_max ≤ length message.old }
    requires piece { record_max ≤ length piece.old }
    requires key { length key.now ≤ key_max }
    requires value { length value.now ≤ value_max }
    ensures matched { IfOk result (λ matched. matched ≡ is_matched (maps_of board.old) (key.now, value.now)) }
    ensures maps { maps_of board.new ≡ maps_of board.old }
{
    let len = set_match(message, key);
    if !ask(board, &message[..len], piece, reply)? {
        return Ok(false);
    }
    let len = set_value(message, value);
    Ok(reply.as_slice() == &message[..len])
}

/// How many rows MATCH has.
fn count_matched(
    board: &mut PlainBoard,
    version: &Version,
    message: &mut [u8],
    piece: &mut [u8],
    reply: &mut Vec<u8>,
) -> Result<usize, NoMemory>
    requires message { record_max ≤ length message.old }
    requires piece { record_max ≤ length piece.old }
    ensures matched { IfOk result (λ matched. matched ≡ count_by (is_matched (maps_of board.old)) version.now.rows) }
    ensures maps { maps_of board.new ≡ maps_of board.old }
{
    let mut matched = 0;
    for i in 0..version.len() {
        if let Some((key, value)) = version.row(i) {
            if is_matched(board, key, value, message, piece, reply)? {
                matched += 1;
            }
        }
    }
    Ok(matched)
}

/// Room for a call, or a piece of a reply.
fn room(alloc: Global) -> Result<Vec<u8>, NoMemory>
    ensures { IfOk result (λ bytes. length bytes.items ≡ record_max) }
{
    zeros(alloc, RECORD_MAX)
}

/// The bytes of the reply to ALL.
fn all_len(
    board: &mut PlainBoard,
    message: &mut [u8],
    piece: &mut [u8],
    reply: &mut Vec<u8>,
) -> Result<usize, NoMemory>
    requires message { record_max ≤ length message.old }
    requires piece { record_max ≤ length piece.old }
    ensures { IfOk result (λ len. len ≡ reply_len (reply_to (maps_of board.old) sample_all)) }
{
    let len = set_all(message);
    if !ask(board, &message[..len], piece, reply)? {
        return Ok(0);
    }
    Ok(reply.len())
}

/// The numbers of a version that the board shows.
fn tally(alloc: Global, board: PlainBoard, version: &Version) -> Result<SampleTally, NoMemory>
    requires { maps_of board ≡ sample_maps version.now }
    ensures { IfOk result (λ tally. tally ≡ tally_of version.now) }
{
    let mut board = board;
    let mut message = room(alloc)?;
    let mut piece = room(alloc)?;
    let mut reply = Vec::new(alloc);
    let matched = count_matched(&mut board, version, &mut message, &mut piece, &mut reply)?;
    let all = all_len(&mut board, &mut message, &mut piece, &mut reply)?;
    Ok(SampleTally {
        rows: version.len(),
        body: version.body_len(),
        all,
        matched,
    })
}

/// The board of the one map, with the version beside it.
fn board_of(alloc: Global, version: Arc<Version>) -> Result<PlainBoard, NoMemory>
    ensures { IfOk result (λ board. maps_of board ≡ sample_maps (arc_value version)) }
{
    let store = MapName {
        domain: Vec::from_slice(alloc, SAMPLE).map_err(|_| NoMemory)?,
        map: Vec::from_slice(alloc, SAMPLE).map_err(|_| NoMemory)?,
    };
    shown_on(alloc, SAMPLE, store, version)
}

/// The numbers of a version.
fn tally_of(alloc: Global, version: Version) -> Result<SampleTally, NoMemory>
    ensures { IfOk result (λ tally. tally ≡ tally_of version) }
{
    let Ok(version) = Arc::new(alloc, version) else {
        return Err(NoMemory);
    };
    let Ok(shown) = Arc::try_clone(&version) else {
        return Err(NoMemory);
    };
    let board = board_of(alloc, shown)?;
    tally(alloc, board, &version)
}

/// The numbers of so many sample rows, or the status that tells why there are none.
fn sampled(
    alloc: Global,
    rt: &impl RandomSource,
    start: u32,
    count: u32,
) -> Result<SampleTally, Status>
    ensures tally { IfOk result (λ tally. tally ≡ tally_of (sampled start count)) }
    ensures few { OnOk result (count ≤ rows_max) }
    ensures cause { IfErr result (λ status. ((rows_max < count) × (status ≡ Status.Rows first_over rows_rule))
        ⊎ ((count ≤ rows_max) × (status ≡ Status.NoMemory))) }
{
    let version = match yp_texts::sample(alloc, rt, start, count) {
        Ok(version) => version,
        Err(BuildFault::TooManyRows { line }) => {
            return Err(Status::Rows {
                row: line,
                rule: ROWS_RULE,
            });
        }
        Err(_) => return Err(Status::NoMemory),
    };
    match tally_of(alloc, version) {
        Ok(tally) => Ok(tally),
        Err(NoMemory) => Err(Status::NoMemory),
    }
}

/// Tells the numbers of so many sample rows.
pub fn tell_sample<S: Source, K: Sink, D: Disk, C: Clock, A: Dial, I: Inbox, T: Texts>(
    alloc: Global,
    rt: &impl RandomSource,
    start: u32,
    count: u32,
    office: &mut Office<S, K, D, C, A, I, T>,
) -> Status
    ensures does { SampleDoes (seeing S.Source K.Sink D.Disk C.Clock A.Dial I.Inbox T.Texts)
        start count result office.old office.new }
    ensures may_end { IsTrue (sample_may_end result) }
    ensures passed_on { IsPassedOn (seeing S.Source K.Sink D.Disk C.Clock A.Dial I.Inbox T.Texts)
        result office.old office.new }
    ensures tellable { IsTellable result }
{
    match sampled(alloc, rt, start, count) {
        Err(status) => status,
        Ok(tally) => match write_through(&mut office.wire.sink, tally.line().as_bytes()) {
            Ok(()) => Status::Done,
            Err(Failed) => Status::WriteFault,
        },
    }
}
