//! A handler that asks until it is answered.

ghost use Rattle.std.specs.Prelude.{if◌then◌else◌};

use yp_io::Peer;
use yp_rpc::{Handler, Wish};

/// A datagram that begins with this byte is no answer.
pub const NO_ANSWER: u8 = 0;

/// Sends `ask` to a peer before the first turn and after each quiet one, and is done where an answer came, to which it
/// replies `ok`.
#[derive(Drop)]
pub struct Asker {
    pub peer: Peer,
    pub is_due: bool,
    pub is_done: bool,
}

impl Handler for Asker {
    ghost goes = { λ _ _ _. Unit {0} };

    ghost hears = { λ _ _ _ _ _. Unit {0} };

    ghost rests = { λ _ _. Unit {0} };

    ghost letters = { λ a. if a.is_due then 1 else 0 };

    fn next(&mut self, buf: &mut [u8]) -> Wish {
        if self.is_done {
            return Wish::Done;
        }
        if !self.is_due {
            return Wish::Wait;
        }
        self.is_due = false;
        buf[..3].copy_from_slice(b"ask");
        Wish::Send {
            to: self.peer,
            len: 3,
        }
    }

    fn hear(&mut self, _from: Peer, mail: &[u8], buf: &mut [u8]) -> usize {
        if mail.first() == Some(&NO_ANSWER) {
            return 0;
        }
        self.is_done = true;
        buf[..2].copy_from_slice(b"ok");
        2
    }

    fn rest(&mut self) {
        self.is_due = true;
    }
}
