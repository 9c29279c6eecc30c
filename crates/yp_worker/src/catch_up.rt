//! A host that can be told of what others showed, and one that hands over what it has counted.

ghost use Rattle.std.specs.Prelude.{◌≡◌, IfOk, OnErr};
ghost use Rattle.yp_board.specs.Logs.{Log};
ghost use Rattle.yp_board.specs.Views.{IsFront};
ghost use Rattle.yp_publisher.specs.sharing.Shares.{Learns};

use yp_answer::session::Host;
use yp_io::{NoMemory, Peer};

/// A host of a board that others show versions on.
pub trait CatchUp: Host {
    /// What it counts.
    type Count;

    /// What it has counted.
    ghost counted: { Self → Self.Count };

    /// Lets it know all that was shown, or as much of it as can be told. It makes no read step, and counts nothing.
    /// After a refusal nothing has changed.
    fn catch_up(&mut self) -> Result<(), NoMemory>
        ensures learned { Learns (Self.seen self.old) (Self.seen self.new) }
        ensures counts { Self.counts self.new ≡ Self.counts self.old }
        ensures counted { counted self.new ≡ counted self.old }
        ensures refused { OnErr result (self.new ≡ self.old) };
}

/// What a host knew at a moment, for another host of the board: a front of the log.
pub trait Known {
    /// The log that it is.
    ghost known: { Self → Log };
}

/// A host that hands over what it has counted, to be summed up, and tells how far it has read the log. Then it counts
/// from nothing again.
pub trait HandsOver: CatchUp {
    /// A sum of that, with a front of the log that goes as far as any of those who handed over knew.
    type Sum: Drop;

    /// What a sum has of that.
    ghost summed: { Self.Sum → Self.Count };

    /// The log that a sum has, of which what hosts knew when they handed over is a front.
    ghost reached: { Self.Sum → Log };

    /// The sum of nothing.
    ghost none: { Self.Count };

    /// A sum and more.
    ghost plus: { Self.Count → Self.Count → Self.Count };

    /// It is told that the connection of this caller is closed for its time. That changes nothing of what it is seen
    /// as.
    fn late(&self, _peer: Peer) {}

    /// What a host knew at a moment.
    type Front: Known + Drop;

    /// What it knows, for another host.
    fn front(&self) -> Result<Self::Front, NoMemory>
        ensures { IfOk result (λ front. Self.Front.known front ≡ (Self.seen self.now).known) };

    /// Lets it know what another host of the board knew at a moment. It waits for nobody, makes no read step, and
    /// counts nothing.
    fn reach(&mut self, front: Self::Front)
        ensures reached { IsFront (Self.Front.known front) (Self.seen self.new).known }
        ensures learned { Learns (Self.seen self.old) (Self.seen self.new) }
        ensures counts { Self.counts self.new ≡ Self.counts self.old }
        ensures counted { Self.counted self.new ≡ Self.counted self.old };

    /// Adds what it has counted to a sum, and counts from nothing again. What it knows is a front of the sum's log
    /// then.
    fn hand_over(&mut self, sum: &mut Self::Sum)
        ensures seen { Self.seen self.new ≡ Self.seen self.old }
        ensures none { Self.counted self.new ≡ none }
        ensures added { summed sum.new ≡ plus (summed sum.old) (Self.counted self.old) }
        ensures covered { IsFront (Self.seen self.old).known (reached sum.new) }
        ensures kept { IsFront (reached sum.old) (reached sum.new) };
}
