//! What the host of a worker knew at a moment.

ghost use Rattle.std.specs.Prelude.{◌≡◌, IfOk};
ghost use Rattle.yp_board.specs.Views.{IsFront};

use std::marker::Model;
use yp_board::Tell;
use yp_io::NoMemory;
use yp_worker::Known;

/// What the reader of a worker knew at a moment, for the reader of another one. It is seen as that.
#[derive(Drop)]
pub struct BoardFront<B: Tell> {
    knowledge: B::Knowledge,
}

impl<B: Tell> Model for BoardFront<B> {
    ghost Value = { B.Knowledge };

    ghost view = { λ f. f.knowledge };
}

impl<B: Tell> BoardFront<B> {
    /// What a reader knows.
    pub(crate) fn of(reader: &B::Reader) -> Result<BoardFront<B>, NoMemory>
        ensures { IfOk result (λ front. B.knows front ≡ (B.Reader.seen reader.now).known) }
    {
        let knowledge = B::knowledge(reader)?;
        Ok(BoardFront { knowledge })
    }

    /// Lets another reader know that.
    pub(crate) fn teach(self, reader: &mut B::Reader)
        ensures known { IsFront (B.knows self) (B.Reader.seen reader.new).known }
        ensures grown { IsFront (B.Reader.seen reader.old).known (B.Reader.seen reader.new).known }
        ensures same { B.Reader.seen reader.new
            ≡ record (B.Reader.seen reader.old) { known = (B.Reader.seen reader.new).known } }
    {
        let BoardFront { knowledge } = self;
        B::teach(reader, knowledge);
    }
}

impl<B: Tell> Known for BoardFront<B> {
    ghost known = { B.knows };
}
