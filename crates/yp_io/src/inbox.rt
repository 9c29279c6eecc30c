//! Datagrams that come to a port, and that are sent from it.

ghost use Rattle.std.specs.Prelude.{◌≡◌, ℕ, ◌≤◌, List, Option, length, IfOk, OnOk, OnErr};
ghost use Rattle.yp_io.specs.Counts.{CountsFaults};
ghost use Rattle.yp_io.specs.Dials.{GainsItem};
ghost use Rattle.yp_io.specs.Inboxes.{InboxEvent, Sent, GainsTurn, MailIsWithin, turns_after, quiets_after};

use crate::stream::{Failed, Peer};

/// What a turn of an inbox brought.
#[derive(Clone, Copy, Debug, PartialEq, Eq)]
pub enum Mail {
    /// A datagram, of which so many bytes are in the buffer, and its sender.
    Came { len: usize, from: Peer },
    /// No datagram in the time of a turn.
    Quiet,
}

/// What receives datagrams at a port, a turn at a time, and sends datagrams from there.
pub trait Inbox {
    /// What arrived and what was sent, in their order, where it is told.
    ghost past: { Self → Option (List InboxEvent) };

    /// How many turns there were, up to 2^64 - 1.
    ghost turns: { Self → ℕ };

    /// How many of them were quiet, up to 2^64 - 1.
    ghost quiets: { Self → ℕ };

    /// How often it has failed, up to 2^64 - 1.
    ghost faults: { Self → ℕ };

    /// Takes one turn: the next datagram, at the front of `buf`, or a quiet turn. A datagram that is longer than `buf`
    /// is cut to it. After `Failed` no turn was taken.
    fn next(&mut self, buf: &mut [u8]) -> Result<Mail, Failed>
        ensures within { IfOk result (λ mail. MailIsWithin mail buf.new) }
        ensures turn { IfOk result (λ mail. GainsTurn mail buf.new (past self.old) (past self.new)) }
        ensures none { OnErr result (past self.new ≡ past self.old) }
        ensures turns { turns self.new ≡ turns_after (turns self.old) result }
        ensures quiets { quiets self.new ≡ quiets_after (quiets self.old) result }
        ensures cause { CountsFaults (faults self.old) (faults self.new) result };

    /// Sends one datagram. After `Failed` none was sent.
    fn send(&mut self, to: Peer, piece: &[u8]) -> Result<(), Failed>
        ensures sent { OnOk result (GainsItem (Sent to piece.now) (past self.old) (past self.new)) }
        ensures none { OnErr result (past self.new ≡ past self.old) }
        ensures turns { turns self.new ≡ turns self.old }
        ensures quiets { quiets self.new ≡ quiets self.old }
        ensures cause { CountsFaults (faults self.old) (faults self.new) result };
}
