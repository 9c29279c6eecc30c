//! What a command does with the turns of an inbox.

ghost use Rattle.std.specs.Prelude.{ℕ, ◌≤◌, ◌<◌, List, Option, length};
ghost use Rattle.yp_io.specs.declared.stream.Peer.{Peer};
ghost use Rattle.yp_rpc.specs.Turns.{Want, datagram_max};
ghost use Rattle.yp_rpc.specs.inside.Turns.{WishIsWithin, SendsFewer, want_of, reply_of};

use yp_io::Peer;

/// The most bytes of a datagram, a call's or a reply's. A longer one that comes is dropped.
pub const DATAGRAM_MAX: usize = 8_192;

/// What a handler wants next.
#[derive(Clone, Copy, Debug, PartialEq, Eq)]
pub enum Wish {
    /// The letter at the front of the buffer, of so many bytes, is to be sent.
    Send { to: Peer, len: usize },
    /// A turn is to be taken.
    Wait,
    /// Nothing more: the handler is done.
    Done,
}

/// What a command does at each moment of its turns.
pub trait Handler {
    /// How it goes on to what it wants next.
    ghost goes: { Self → Want → Self → Type 0 };

    /// How it hears a datagram of a peer, with the reply to that, if there is one.
    ghost hears: { Peer → List ℕ → Option (List ℕ) → Self → Self → Type 0 };

    /// What a quiet turn does to it.
    ghost rests: { Self → Self → Type 0 };

    /// The most letters that it wants to send before it takes a turn.
    ghost letters: { Self → ℕ };

    /// What it wants next; a letter is put at the front of `buf`.
    fn next(&mut self, buf: &mut [u8]) -> Wish
        requires { DATAGRAM_MAX ≤ length buf.old }
        ensures within { WishIsWithin result buf.new }
        ensures goes { goes self.old (want_of result buf.new) self.new }
        ensures fewer { SendsFewer result (letters self.old) (letters self.new) };

    /// Hears a datagram, and answers the length of the reply that it put at the front of `buf`, or 0 for none.
    fn hear(&mut self, from: Peer, mail: &[u8], buf: &mut [u8]) -> usize
        requires mail { length mail.now ≤ DATAGRAM_MAX }
        requires buf { DATAGRAM_MAX ≤ length buf.old }
        ensures within { result ≤ length buf.new }
        ensures hears { hears from mail.now (reply_of result buf.new) self.old self.new };

    /// A turn brought nothing.
    fn rest(&mut self)
        ensures { rests self.old self.new };
}
