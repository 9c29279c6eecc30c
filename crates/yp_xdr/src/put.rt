//! Values written into a buffer. Each `set` requires the room that its value takes, and each `put` tests it first.

ghost use Rattle.std.specs.Prelude.{◌≡◌, ◌^◌, ◌+◌, ◌<◌, ◌≤◌, length};
ghost use Rattle.yp_xdr.specs.Kind.{U32, I32, Boolean, Fixed, Opaque};
ghost use Rattle.yp_xdr.specs.Spelling.{spelling};
ghost use Rattle.yp_xdr.specs.inside.Writing.{written, Writes, Sets};

use crate::fault::NoRoom;
use crate::padding::{WORD, padding_of};

/// Writes an unsigned integer at `at`, and answers the place after it (RFC 4506 section 4.2).
pub fn put_u32(buf: &mut [u8], at: usize, value: u32) -> Result<usize, NoRoom>
    requires { at ≤ length buf.old }
    ensures { Writes (spelling U32 value) at result buf.old buf.new }
{
    if buf.len() - at < WORD {
        return Err(NoRoom);
    }
    Ok(set_u32(buf, at, value))
}

/// Writes a signed integer in two's complement at `at`, and answers the place after it (RFC 4506 section 4.1).
pub fn put_i32(buf: &mut [u8], at: usize, value: i32) -> Result<usize, NoRoom>
    requires { at ≤ length buf.old }
    ensures { Writes (spelling I32 value) at result buf.old buf.new }
{
    put_u32(buf, at, value.cast_unsigned())
}

/// Writes a boolean at `at`, and answers the place after it (RFC 4506 section 4.4).
pub fn put_bool(buf: &mut [u8], at: usize, value: bool) -> Result<usize, NoRoom>
    requires { at ≤ length buf.old }
    ensures { Writes (spelling Boolean value) at result buf.old buf.new }
{
    put_u32(buf, at, u32::from(value))
}

/// Writes bytes behind their length and padded with zeros at `at`, and answers the place after them
/// (RFC 4506 sections 4.10 and 4.11).
pub fn put_opaque(buf: &mut [u8], at: usize, bytes: &[u8]) -> Result<usize, NoRoom>
    requires place { at ≤ length buf.old }
    requires len { length bytes.now < 2 ^ 32 }
    ensures { Writes (spelling (Opaque (length bytes.now)) bytes.now) at result buf.old buf.new }
{
    if buf.len() - at < opaque_len(bytes) {
        return Err(NoRoom);
    }
    Ok(set_opaque(buf, at, bytes))
}

/// Writes bytes padded with zeros at `at`, and answers the place after them (RFC 4506 section 4.9).
pub fn put_fixed(buf: &mut [u8], at: usize, bytes: &[u8]) -> Result<usize, NoRoom>
    requires { at ≤ length buf.old }
    ensures { Writes (spelling (Fixed (length bytes.now)) bytes.now) at result buf.old buf.new }
{
    if buf.len() - at < fixed_len(bytes) {
        return Err(NoRoom);
    }
    Ok(set_fixed(buf, at, bytes))
}

/// Writes an unsigned integer at `at`, and answers the place after it.
pub fn set_u32(buf: &mut [u8], at: usize, value: u32) -> usize
    requires { at + 4 ≤ length buf.old }
    ensures { Sets (spelling U32 value) at result buf.old buf.new }
{
    set_bytes(buf, at, &value.to_be_bytes())
}

/// Writes a signed integer in two's complement at `at`, and answers the place after it.
pub fn set_i32(buf: &mut [u8], at: usize, value: i32) -> usize
    requires { at + 4 ≤ length buf.old }
    ensures { Sets (spelling I32 value) at result buf.old buf.new }
{
    set_u32(buf, at, value.cast_unsigned())
}

/// Writes a boolean at `at`, and answers the place after it.
pub fn set_bool(buf: &mut [u8], at: usize, value: bool) -> usize
    requires { at + 4 ≤ length buf.old }
    ensures { Sets (spelling Boolean value) at result buf.old buf.new }
{
    set_u32(buf, at, u32::from(value))
}

/// Writes bytes behind their length and padded with zeros at `at`, and answers the place after them.
#[tactic(auto, unfolding(crate::specs::Spelling::opaque))]
pub fn set_opaque(buf: &mut [u8], at: usize, bytes: &[u8]) -> usize
    requires len { length bytes.now < 2 ^ 32 }
    requires room { at + length (spelling (Opaque (length bytes.now)) bytes.now) ≤ length buf.old }
    ensures { Sets (spelling (Opaque (length bytes.now)) bytes.now) at result buf.old buf.new }
{
    let content = set_u32(buf, at, bytes.len() as u32);
    set_fixed(buf, content, bytes)
}

/// Writes bytes padded with zeros at `at`, and answers the place after them. A whole word of zeros is written first and
/// the bytes over it, since to write only as many as the padding has would cost more.
#[tactic(auto, unfolding(crate::specs::Spelling::fixed))]
pub fn set_fixed(buf: &mut [u8], at: usize, bytes: &[u8]) -> usize
    requires { at + length (spelling (Fixed (length bytes.now)) bytes.now) ≤ length buf.old }
    ensures { Sets (spelling (Fixed (length bytes.now)) bytes.now) at result buf.old buf.new }
{
    if bytes.is_empty() {
        return at;
    }
    let end = at + fixed_len(bytes);
    set_bytes(buf, end - WORD, &[0; WORD]);
    set_bytes(buf, at, bytes);
    end
}

/// How many bytes [`put_opaque`] writes for these bytes.
#[tactic(auto, unfolding(crate::specs::Spelling::opaque))]
pub fn opaque_len(bytes: &[u8]) -> usize
    requires { length bytes.now < 2 ^ 32 }
    ensures value { result ≡ length (spelling (Opaque (length bytes.now)) bytes.now) }
    ensures bound { result < length bytes.now + 8 }
{
    WORD + fixed_len(bytes)
}

/// How many bytes [`put_fixed`] writes for these bytes.
pub fn fixed_len(bytes: &[u8]) -> usize
    ensures value { result ≡ length (spelling (Fixed (length bytes.now)) bytes.now) }
    ensures bound { result < length bytes.now + 4 }
{
    bytes.len() + padding_of(bytes.len())
}

/// Writes bytes as they are at `at`, and answers the place after them.
#[inline(always)]
pub fn set_bytes(buf: &mut [u8], at: usize, bytes: &[u8]) -> usize
    requires { at + length bytes.now ≤ length buf.old }
    ensures { Sets bytes.now at result buf.old buf.new }
{
    let end = at + bytes.len();
    copy(&mut buf[at..end], bytes);
    end
}

// Copies bytes. Few of them are copied as two parts of a fixed length, which may overlap: most values of messages are
// so short that a copy of a length that is known only then would cost more.
#[inline(always)]
fn copy(to: &mut [u8], bytes: &[u8])
    requires { length to.old ≡ length bytes.now }
    ensures { to.new ≡ bytes.now }
{
    match bytes.len() {
        8..=15 => copy_ends::<8>(to, bytes),
        16..=31 => copy_ends::<16>(to, bytes),
        32..=64 => copy_ends::<32>(to, bytes),
        _ => to.copy_from_slice(bytes),
    }
}

// Copies the first `N` bytes and the last ones, which together are all.
#[inline(always)]
fn copy_ends<const N: usize>(to: &mut [u8], bytes: &[u8])
    requires room { length to.old ≡ length bytes.now }
    requires first { N ≤ length bytes.now }
    requires all { length bytes.now ≤ N + N }
    ensures { to.new ≡ bytes.now }
{
    let last = bytes.len() - N;
    to[..N].copy_from_slice(&bytes[..N]);
    to[last..].copy_from_slice(&bytes[last..]);
}
