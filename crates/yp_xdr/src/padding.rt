//! The zero bytes that follow bytes, up to a multiple of four (RFC 4506 section 3).

ghost use Rattle.std.specs.Prelude.{◌≡◌, ◌<◌};
ghost use Rattle.yp_xdr.specs.Spelling.{padding_len};
ghost use Rattle.yp_xdr.specs.Reading.{first_nonzero};

/// The bytes that a word takes.
pub(crate) const WORD: usize = 4;

/// How many zero bytes follow `len` bytes.
pub(crate) fn padding_of(len: usize) -> usize
    ensures value { result ≡ padding_len len }
    ensures small { result < 4 }
{
    (WORD - len % WORD) % WORD
}

/// The place of the first byte that isn't zero.
pub(crate) fn first_nonzero(bytes: &[u8]) -> Option<usize>
    ensures { result ≡ first_nonzero bytes.now }
{
    bytes.iter().position(|byte| *byte != 0)
}
