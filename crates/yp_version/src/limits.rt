//! The limits of a version, and the length of its stored body.

ghost use Rattle.std.specs.Prelude.{◌≡◌, ◌+◌, ◌^◌, ◌<◌, ◌≤◌, length};
ghost use Rattle.yp_version.specs.Limits.{key_max, value_max};
ghost use Rattle.yp_version.specs.Rows.{padded, row_len};

use yp_messages::protocol;

/// The most bytes of a key.
pub const KEY_MAX: usize = protocol::KEY_MAX as usize;

/// The most bytes of a value.
pub const VALUE_MAX: usize = protocol::VALUE_MAX as usize;

/// The most bytes of a master's name (`yp.x`, YPMAXPEER).
pub const MASTER_MAX: usize = protocol::NAME_MAX as usize;

/// The most rows.
pub const ROWS_MAX: usize = 262_144;

/// The most bytes of the stored body.
pub const BODY_MAX: usize = 16_777_216;

// The bytes that stand before a master in the stored body: format, order, the count of rows, and the master's length.
pub(crate) const HEAD_LEN: usize = 16;

// The bytes of the two length words of a row.
const LENGTHS: usize = 8;

// The bytes of a word, to which bytes are padded (RFC 4506 section 3).
pub(crate) const WORD: usize = 4;

// Bytes up to a multiple of a word.
pub(crate) fn padded(len: usize) -> usize
    requires { len < 2 ^ 63 }
    ensures value { result ≡ padded len }
    ensures small { result ≤ len + 3 }
{
    len + (WORD - len % WORD) % WORD
}

// The bytes that a row takes in the stored body.
pub(crate) fn row_len(key: &[u8], value: &[u8]) -> usize
    requires key { length key.now ≤ key_max }
    requires value { length value.now ≤ value_max }
    ensures value { result ≡ row_len (key.now, value.now) }
    ensures small { result ≤ 8 + key_max + value_max + 6 }
{
    LENGTHS + padded(key.len()) + padded(value.len())
}
