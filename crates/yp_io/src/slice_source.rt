ghost use Rattle.std.specs.Prelude.{◌≡◌, ◌<◌, ◌≤◌, Some, IfOk, IsOk, length};
ghost use Rattle.std.specs.Io.KnownBytes.{ReadConsumes};
ghost use Rattle.yp_io.specs.Counts.{CountsFaults};

use crate::stream::{Failed, Source};

/// A source over bytes that are borrowed. It never fails.
#[derive(Clone, Copy)]
pub struct SliceSource<'a> {
    /// What is left of its input.
    pub left: &'a [u8],
}

impl<'a> Source for SliceSource<'a> {
    ghost input = { λ s. Some s.left.now };

    ghost faults = { λ s. 0 };

    fn read(&mut self, buf: &mut [u8]) -> Result<usize, Failed>
        requires { 0 < length buf.old }
        ensures within { IfOk result (λ n. n ≤ length buf.new) }
        ensures bytes { ReadConsumes (Some self.old.left.now) (Some self.new.left.now) result buf.new }
        ensures cause { CountsFaults 0 0 result }
        ensures reads { IsOk result }
    {
        let count = buf.len().min(self.left.len());
        let (front, left) = self.left.split_at(count);
        buf[..count].copy_from_slice(front);
        self.left = left;
        Ok(count)
    }
}
