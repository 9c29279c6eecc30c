//! Values read from bytes.

ghost use Rattle.std.specs.Prelude.{◌≡◌, ◌+◌, ◌^◌, ◌<◌, ◌≤◌, length, IfOk, OnErr};
ghost use Rattle.yp_xdr.specs.inside.Reading.{IsBytes};

use crate::fault::XdrFault;
use crate::padding::{first_nonzero, padding_of};

/// A place in bytes, from which values are read in turn. After a refusal it hasn't moved.
#[derive(Clone, Copy, Debug)]
pub struct Cursor<'a> {
    rest: &'a [u8],
    at: usize,
    ghost in_range: { at + length rest.now < 2 ^ 64 },
    ghost are_bytes: { IsBytes rest.now },
}

impl<'a> Cursor<'a> {
    ghost use Rattle.yp_xdr.specs.Kind.{U32, I32, Boolean, Enum, Fixed, Opaque};
    ghost use Rattle.yp_xdr.specs.Reading.{Remaining, content_at};
    ghost use Rattle.yp_xdr.specs.inside.Reading.{end_of, ReadsAs, Reads, BeginsWith, BeginsWithNone};
    ghost use Rattle.yp_xdr.specs.inside.Cursor.{unread};

    /// A cursor at the first of the bytes.
    pub fn new(bytes: &'a [u8]) -> Cursor<'a>
        ensures { unread result ≡ record { at = 0; bytes = bytes.now } }
    {
        Cursor { rest: bytes, at: 0 }
    }

    /// The place of the next byte, counted from the first.
    pub fn at(&self) -> usize
        ensures place { result ≡ (unread self.now).at }
        ensures within { result ≤ end_of (unread self.now) }
    {
        self.at
    }

    /// Reads an unsigned integer (RFC 4506 section 4.2).
    #[tactic(auto, unfolding(crate::specs::Reading::word_at))]
    #[inline(always)]
    pub fn u32(&mut self) -> Result<u32, XdrFault>
        ensures read { Reads U32 (λ n. n) result (unread self.old) (unread self.new) }
        ensures spelled { IfOk result (λ n. BeginsWith U32 n (unread self.old) (unread self.new)) }
        ensures refused { OnErr result (BeginsWithNone U32 (unread self.old).bytes) }
        ensures end { end_of (unread self.new) ≡ end_of (unread self.old) }
    {
        match self.rest.split_first_chunk::<4>() {
            None => Err(XdrFault::Short { at: self.at }),
            Some((word, rest)) => {
                let value = u32::from_be_bytes(*word);
                *self = Cursor {
                    rest,
                    at: self.at + 4,
                };
                Ok(value)
            }
        }
    }

    /// Reads a signed integer in two's complement (RFC 4506 section 4.1).
    pub fn i32(&mut self) -> Result<i32, XdrFault>
        ensures read { Reads I32 (λ z. z) result (unread self.old) (unread self.new) }
        ensures spelled { IfOk result (λ z. BeginsWith I32 z (unread self.old) (unread self.new)) }
        ensures refused { OnErr result (BeginsWithNone I32 (unread self.old).bytes) }
        ensures end { end_of (unread self.new) ≡ end_of (unread self.old) }
    {
        Ok(self.u32()?.cast_signed())
    }

    /// Reads a boolean, FALSE or TRUE (RFC 4506 section 4.4).
    #[tactic(auto, unfolding(crate::specs::Reading::bool_at))]
    pub fn bool(&mut self) -> Result<bool, XdrFault>
        ensures read { Reads Boolean (λ b. b) result (unread self.old) (unread self.new) }
        ensures spelled { IfOk result (λ b. BeginsWith Boolean b (unread self.old) (unread self.new)) }
        ensures refused { OnErr result (BeginsWithNone Boolean (unread self.old).bytes) }
        ensures end { end_of (unread self.new) ≡ end_of (unread self.old) }
    {
        let mut ahead = *self;
        let value = match ahead.u32()? {
            0 => false,
            1 => true,
            _ => return Err(XdrFault::BadBool { at: self.at }),
        };
        *self = ahead;
        Ok(value)
    }

    /// Reads a number of an enum, one of those that are listed (RFC 4506 section 4.3).
    #[tactic(auto, unfolding(crate::specs::Reading::one_of_at))]
    pub fn one_of(&mut self, allowed: &[i32]) -> Result<i32, XdrFault>
        ensures read { Reads (Enum allowed.now) (λ z. z) result (unread self.old) (unread self.new) }
        ensures spelled { IfOk result (λ z. BeginsWith (Enum allowed.now) z (unread self.old) (unread self.new)) }
        ensures refused { OnErr result (BeginsWithNone (Enum allowed.now) (unread self.old).bytes) }
        ensures end { end_of (unread self.new) ≡ end_of (unread self.old) }
    {
        let mut ahead = *self;
        let number = ahead.i32()?;
        if allowed.contains(&number) {
            *self = ahead;
            Ok(number)
        } else {
            Err(XdrFault::BadEnum { at: self.at })
        }
    }

    /// Reads opaque bytes, `n` of them and their padding (RFC 4506 section 4.9).
    #[inline(always)]
    pub fn fixed(&mut self, n: usize) -> Result<&'a [u8], XdrFault>
        requires { n ≤ 1024 }
        ensures read { Reads (Fixed n) (λ s. s.now) result (unread self.old) (unread self.new) }
        ensures spelled { IfOk result (λ s. BeginsWith (Fixed n) s.now (unread self.old) (unread self.new)) }
        ensures refused { OnErr result (BeginsWithNone (Fixed n) (unread self.old).bytes) }
        ensures end { end_of (unread self.new) ≡ end_of (unread self.old) }
    {
        self.content(self.at, n)
    }

    /// Reads opaque bytes, at most `max` of them (RFC 4506 section 4.10).
    #[tactic(auto, unfolding(crate::specs::Reading::opaque_at))]
    #[inline(always)]
    pub fn opaque(&mut self, max: u32) -> Result<&'a [u8], XdrFault>
        ensures read { Reads (Opaque max) (λ s. s.now) result (unread self.old) (unread self.new) }
        ensures spelled { IfOk result (λ s. BeginsWith (Opaque max) s.now (unread self.old) (unread self.new)) }
        ensures refused { OnErr result (BeginsWithNone (Opaque max) (unread self.old).bytes) }
        ensures end { end_of (unread self.new) ≡ end_of (unread self.old) }
    {
        let before = *self;
        let len = self.u32()?;
        if len > max {
            *self = before;
            return Err(XdrFault::TooLong { at: self.at, len });
        }
        match self.content(before.at, len as usize) {
            Ok(bytes) => Ok(bytes),
            Err(fault) => {
                *self = before;
                Err(fault)
            }
        }
    }

    /// Reads a string of any bytes, at most `max` of them (RFC 4506 section 4.11).
    pub fn string(&mut self, max: u32) -> Result<&'a [u8], XdrFault>
        ensures read { Reads (Opaque max) (λ s. s.now) result (unread self.old) (unread self.new) }
        ensures spelled { IfOk result (λ s. BeginsWith (Opaque max) s.now (unread self.old) (unread self.new)) }
        ensures refused { OnErr result (BeginsWithNone (Opaque max) (unread self.old).bytes) }
        ensures end { end_of (unread self.new) ≡ end_of (unread self.old) }
    {
        self.opaque(max)
    }

    /// Reads `len` bytes and their padding, of an item that began at `start`.
    #[tactic(auto, unfolding(crate::specs::Reading::content_at))]
    #[inline(always)]
    fn content(&mut self, start: usize, len: usize) -> Result<&'a [u8], XdrFault>
        requires { len < 2 ^ 32 }
        ensures read { ReadsAs (content_at start len (unread self.old)) (λ s. s.now) result (unread self.old)
            (unread self.new) }
        ensures end { end_of (unread self.new) ≡ end_of (unread self.old) }
    {
        let padding = padding_of(len);
        if self.rest.len() < len + padding {
            return Err(XdrFault::Short { at: start });
        }
        let (bytes, rest) = self.rest.split_at(len);
        let (zeros, rest) = rest.split_at(padding);
        if let Some(place) = first_nonzero(zeros) {
            return Err(XdrFault::Pad {
                at: self.at + len + place,
            });
        }
        *self = Cursor {
            rest,
            at: self.at + len + padding,
        };
        Ok(bytes)
    }
}
