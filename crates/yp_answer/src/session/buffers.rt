//! The room in which records are read and replies are made.

ghost use Rattle.std.specs.Prelude.{◌≡◌, length, IfOk};
ghost use Rattle.yp_answer.specs.Numbers.{record_max};

use crate::RECORD_MAX;
use std::alloc::Global;
use std::marker::Model;
use yp_io::NoMemory;
use yp_rpc::RecordWriter;

/// The room for a record and for its reply, or a piece of it. Whoever serves many conversations has one. It is seen as
/// what stands in the room for a record.
#[derive(Drop)]
pub struct Buffers {
    pub(crate) alloc: Global,
    pub(crate) writer: RecordWriter,
    pub(crate) call: Vec<u8>,
    pub(crate) reply: Vec<u8>,
}

impl Model for Buffers {
    ghost use Rattle.std.specs.Prelude.{◌≡◌, ℕ, List, [], length};
    ghost use Rattle.yp_answer.specs.Numbers.{record_max};

    ghost Value = { List ℕ };

    ghost view = { λ b. b.call.items };

    ghost invariant = { λ b. (b.writer ≡ []) × (length b.call.items ≡ record_max)
        × (length b.reply.items ≡ record_max) };
}

impl Buffers {
    /// Takes all the memory that it ever needs.
    pub fn new(alloc: Global) -> Result<Buffers, NoMemory> {
        Ok(Buffers {
            alloc,
            writer: RecordWriter::new(alloc)?,
            call: zeros(alloc)?,
            reply: zeros(alloc)?,
        })
    }

    /// By what its memory was taken.
    pub fn alloc(&self) -> Global {
        self.alloc
    }
}

/// Room for the longest call, or a piece of its reply.
pub(crate) fn zeros(alloc: Global) -> Result<Vec<u8>, NoMemory>
    ensures { IfOk result (λ bytes. length bytes.items ≡ record_max) }
{
    match vec![in alloc; 0; RECORD_MAX] {
        Ok(bytes) => Ok(bytes),
        Err(_) => Err(NoMemory),
    }
}
