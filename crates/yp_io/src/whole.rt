//! Sources that are read whole.

ghost use Rattle.std.specs.Prelude.{◌≡◌, ◌<◌, ◌≤◌, length, replicate, IfOk, IfErr, OnOk};
ghost use Rattle.std.specs.Io.KnownBytes.{Consumes, IsAtEnd};
ghost use Rattle.yp_io.specs.Counts.{HasRisen};
ghost use Rattle.yp_io.specs.inside.Streams.{ReadsMore, ReadingStopped};

use crate::stream::{NoMemory, Source};
use std::alloc::Global;

/// How many bytes one read asks for.
const BLOCK: usize = 65_536;

/// Why a source was not read whole.
#[derive(Clone, Copy, Debug, PartialEq, Eq)]
pub enum Unread {
    /// The source failed.
    Failed,
    /// It has more bytes than wanted.
    TooLong,
    /// Memory ran out.
    NoMemory,
}

impl From<NoMemory> for Unread {
    ghost use Rattle.std.specs.Prelude.{◌≡◌};
    ghost use Rattle.yp_io.specs.declared.whole.Unread.TheVariants as unread;

    ghost from_gives = { λ _ given. given ≡ unread.NoMemory };

    fn from(_memory: NoMemory) -> Unread {
        Unread::NoMemory
    }
}

/// So many bytes, each zero.
pub fn zeros(alloc: Global, len: usize) -> Result<Vec<u8>, NoMemory>
    ensures zeros { IfOk result (λ bytes. bytes.items ≡ replicate len 0) }
    ensures len { IfOk result (λ bytes. length bytes.items ≡ len) }
{
    match vec![in alloc; 0; len] {
        Ok(bytes) => Ok(bytes),
        Err(_) => Err(NoMemory),
    }
}

/// Reads the next bytes behind those that are there, and answers how many: none at the end.
fn read_more<S: Source>(
    source: &mut S,
    buf: &mut [u8],
    text: &mut Vec<u8>,
    most: usize,
) -> Result<usize, Unread>
    requires room { 0 < length buf.old }
    requires limit { length text.old.items ≤ most }
    ensures read { IfOk result
        (ReadsMore (S.input source.old) (S.input source.new) text.old.items text.new.items) }
    ensures limit { OnOk result (length text.new.items ≤ most) }
    ensures stopped { IfErr result
        (ReadingStopped most (S.input source.old) (S.input source.new) (length text.old.items)) }
    ensures cause { IfErr result (λ unread.
        unread ≡ Unread.Failed → HasRisen (S.faults source.old) (S.faults source.new)) }
    ensures never_falls { S.faults source.old ≤ S.faults source.new }
{
    let Ok(count) = source.read(buf) else {
        return Err(Unread::Failed);
    };
    if count > most - text.len() {
        return Err(Unread::TooLong);
    }
    match text.extend_from_slice(&buf[..count]) {
        Ok(()) => Ok(count),
        Err(_) => Err(Unread::NoMemory),
    }
}

/// Reads a source of at most so many bytes to its end.
pub fn read_all<S: Source>(alloc: Global, source: &mut S, most: usize) -> Result<Vec<u8>, Unread>
    ensures text { IfOk result (λ text. Consumes (S.input source.old) (S.input source.new) text.items) }
    ensures end { OnOk result (IsAtEnd (S.input source.new)) }
    ensures limit { IfOk result (λ text. length text.items ≤ most) }

    // What was read before a refusal is over the limit where that is the refusal.
    ensures stopped { IfErr result (ReadingStopped most (S.input source.old) (S.input source.new) 0) }
    ensures cause { IfErr result (λ unread.
        unread ≡ Unread.Failed → HasRisen (S.faults source.old) (S.faults source.new)) }
    ensures never_falls { S.faults source.old ≤ S.faults source.new }
{
    let mut text = Vec::new(alloc);
    let mut block = zeros(alloc, BLOCK)?;
    let buf = block.as_mut_slice();
    loop {
        match read_more(source, buf, &mut text, most) {
            Ok(0) => return Ok(text),
            Ok(_) => {}
            Err(unread) => return Err(unread),
        }
    }
}
