//! Records of a stream that is never waited for.

ghost use Rattle.std.specs.Prelude.{◌≡◌, ◌+◌, ◌≤◌, ◌<◌, List, [], length, take, drop, Some};
ghost use Rattle.yp_io.specs.Counts.{CountsFaults};
ghost use Rattle.yp_io.specs.Ready.{TriesToRead};
ghost use Rattle.yp_rpc.specs.inside.Incoming.{BeginsWith, Fills, count_of};

use crate::record::RecordFault;
use crate::record::reader::RecordReader;
use std::alloc::Global;
use std::marker::Model;
use yp_io::{Failed, SliceSource, TrySource};

/// The most bytes that are read at once.
const READ_MAX: usize = 4_096;

/// What the bytes that came begin with.
#[derive(Clone, Copy)]
pub enum First {
    /// A whole record: `len` bytes, which are spelled in so many.
    Whole { len: usize, spelled: usize },
    /// Less than a record, or nothing.
    Part,
    /// A record of which the heads that came name more than there is room for, or too many empty fragments.
    TooLong,
}

/// The bytes that came of a stream and belong to no record that was taken. It is seen as these bytes, and has memory
/// for them alone while there are some, and else for none.
#[derive(Drop)]
pub struct Incoming {
    alloc: Global,
    bytes: Vec<u8>,
    at: usize,
}

impl Model for Incoming {
    ghost use Rattle.std.specs.Prelude.{◌≤◌, ℕ, List, length, drop};

    ghost Value = { List ℕ };

    ghost view = { λ i. drop i.at i.bytes.items };

    ghost invariant = { λ i. i.at ≤ length i.bytes.items };
}

impl Incoming {
    /// Nothing came yet.
    pub fn new(alloc: Global) -> Incoming
        ensures { result ≡ [] }
    {
        Incoming {
            alloc,
            bytes: Vec::new(alloc),
            at: 0,
        }
    }

    /// Reads some of what is there, and answers how many bytes: 0 exactly at the end of input, and `None` where none
    /// are there now or memory has run out.
    pub fn fill<S: TrySource>(&mut self, source: &mut S) -> Result<Option<usize>, Failed>
        ensures fills { Fills (S.input source.old) (S.input source.new) self.old self.new result }
        ensures cause { CountsFaults (S.faults source.old) (S.faults source.new) result }
    {
        self.move_up();
        let came = read_behind(&mut self.bytes, source);
        self.let_go();
        came
    }

    /// Copies the first record to the front of `buf`, where all of it came.
    pub fn first(&self, buf: &mut [u8]) -> First
        ensures { BeginsWith (length buf.new) result self.now buf.new }
    {
        let came = &self.bytes[self.at..];
        let mut source = SliceSource { left: came };
        match RecordReader::new().next(&mut source, buf) {
            Ok(Some(len)) => First::Whole {
                len,
                spelled: came.len() - source.left.len(),
            },
            Ok(None) | Err(RecordFault::Torn { .. }) => First::Part,
            Err(RecordFault::TooLong { .. }) => First::TooLong,
            Err(RecordFault::ReadFault) => unreachable!(),
        }
    }

    /// Takes so many of the bytes away, from the front.
    pub fn pass(&mut self, count: usize)
        requires { count ≤ length self.old }
        ensures { self.new ≡ drop count self.old }
    {
        self.at += count;
        self.let_go();
    }

    /// How many there are.
    pub fn len(&self) -> usize
        ensures { result ≡ length self.now }
    {
        self.bytes.len() - self.at
    }

    /// Lets the memory of what was taken away go, where that is more than what is left.
    fn move_up(&mut self)
        ensures { self.new ≡ self.old }
    {
        if self.at > self.len()
            && let Ok(left) = self.bytes[self.at..].to_vec(self.alloc)
        {
            self.bytes = left;
            self.at = 0;
        }
    }

    /// Lets the memory go where nothing is left in it.
    fn let_go(&mut self)
        ensures { self.new ≡ self.old }
    {
        if self.at == self.bytes.len() {
            self.bytes = Vec::new(self.alloc);
            self.at = 0;
        }
    }
}

/// Reads some of what is there behind these bytes. Room for it is taken ahead.
fn read_behind<S: TrySource>(bytes: &mut Vec<u8>, source: &mut S) -> Result<Option<usize>, Failed>
    ensures fills { Fills (S.input source.old) (S.input source.new) bytes.old.items bytes.new.items result }
    ensures cause { CountsFaults (S.faults source.old) (S.faults source.new) result }
{
    let mut room = [0; READ_MAX];
    let Ok(()) = bytes.reserve(READ_MAX) else {
        return Ok(None);
    };
    let came = source.try_read(&mut room);
    let count = count_of(&came);
    let Ok(()) = bytes.extend_from_slice(&room[..count]) else {
        unreachable!()
    };
    came
}

/// How many bytes came.
fn count_of(came: &Result<Option<usize>, Failed>) -> usize
    ensures { result ≡ count_of came.now }
{
    match came {
        Ok(Some(count)) => *count,
        _ => 0,
    }
}
