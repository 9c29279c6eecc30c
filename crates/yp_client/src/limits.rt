//! The limits of a reply that a client reads.

/// The most bytes of a reply, and of a call. The buffer of a client has as many.
pub const REPLY_MAX: usize = 262_144;

/// The most bytes of a reply of ALL, which is read piece by piece.
pub const ALL_MAX: u64 = 33_554_432;
