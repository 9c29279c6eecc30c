//! What is common to all messages.

ghost use Rattle.std.specs.Prelude.{◌≡◌, ◌+◌, ◌<◌, ◌^◌, ◌≤◌, length, IfOk, OnErr};
ghost use Rattle.yp_xdr.specs.Kind.{Kind, Value};
ghost use Rattle.yp_xdr.specs.Spelling.{spelling};
ghost use Rattle.yp_xdr.specs.inside.Reading.{Reads, BeginsWith, BeginsWithNone};
ghost use Rattle.yp_xdr.specs.inside.Writing.{Writes, Sets};
ghost use Rattle.yp_xdr.specs.inside.Cursor.{unread};

use yp_xdr::{Cursor, NoRoom, XdrFault, laws};

/// A message: a struct that stands for a value of a kind.
pub trait Message {
    ghost kind: { Kind };

    ghost view: { Self → Value kind };

    /// The fields are within their limits.
    ghost is_within: { Self → Type 0 };

    /// How many bytes the message takes.
    fn len(&self) -> usize
        requires { is_within self.now }
        ensures value { result ≡ length (spelling kind (view self.now)) }
        ensures bound { result < 2 ^ 32 };

    /// Writes the fields in turn at `at`, where there is room for them, and answers the place after them.
    fn set(&self, buf: &mut [u8], at: usize) -> usize
        requires within { is_within self.now }
        requires room { at + length (spelling kind (view self.now)) ≤ length buf.old }
        ensures { Sets (spelling kind (view self.now)) at result buf.old buf.new };

    /// Writes the message at `at`, and answers the place after it.
    fn write(&self, buf: &mut [u8], at: usize) -> Result<usize, NoRoom>
        requires place { at ≤ length buf.old }
        requires within { is_within self.now }
        ensures { Writes (spelling kind (view self.now)) at result buf.old buf.new }
    {
        if buf.len() - at < self.len() {
            return Err(NoRoom);
        }
        Ok(self.set(buf, at))
    }
}

/// A message whose fields are read in turn.
pub trait Fields<'a>: Message + Sized {
    /// Reads the fields in turn. After a refusal the cursor hasn't moved.
    fn read_fields(cursor: &mut Cursor<'a>) -> Result<Self, XdrFault>
        ensures { Reads Self.kind Self.view result (unread cursor.old) (unread cursor.new) };
}

/// A message that is read from bytes, and borrows from them.
pub trait ReadMessage<'a>: Fields<'a> {
    /// Reads the message, and moves the cursor past exactly its bytes. After a refusal the cursor hasn't moved.
    fn read(cursor: &mut Cursor<'a>) -> Result<Self, XdrFault>
        ensures read { Reads Self.kind Self.view result (unread cursor.old) (unread cursor.new) }
        ensures spelled { IfOk result
            (λ m. BeginsWith Self.kind (Self.view m) (unread cursor.old) (unread cursor.new)) }
        ensures refused { OnErr result (BeginsWithNone Self.kind (unread cursor.old).bytes) };
}

impl<'a, M: Fields<'a>> ReadMessage<'a> for M {
    fn read(cursor: &mut Cursor<'a>) -> Result<M, XdrFault> {
        laws::read_is_spelled();
        laws::refused_is_not_spelled();
        M::read_fields(cursor)
    }
}
