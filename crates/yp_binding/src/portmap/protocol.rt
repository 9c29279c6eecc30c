//! Numbers of the port mapper (RFC 1833 section 3), and its limits.

/// The port at which it is called.
pub const PORT: u16 = 111;

/// The program.
pub const PROGRAM: u32 = 100_000;

/// Its version.
pub const VERSION: u32 = 2;

pub const NULL: u32 = 0;

pub const SET: u32 = 1;

pub const UNSET: u32 = 2;

pub const GETPORT: u32 = 3;

pub const DUMP: u32 = 4;

/// The protocol TCP.
pub const TCP: u32 = 6;

/// The protocol UDP.
pub const UDP: u32 = 17;

/// The greatest port.
pub const PORT_MAX: u32 = 65_535;

/// The most mappings that stand at a time.
pub const MAPPINGS_MAX: usize = 256;
