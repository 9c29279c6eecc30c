//! The numbers and limits of RPC (RFC 5531 sections 8 and 9).

/// `msg_type` of a call.
pub const CALL: u32 = 0;

/// `msg_type` of a reply.
pub const REPLY: u32 = 1;

/// The version of RPC itself.
pub const RPC_VERSION: u32 = 2;

/// `auth_flavor` of no credential.
pub const AUTH_NONE: u32 = 0;

/// `auth_flavor` of a Unix credential.
pub const AUTH_SYS: u32 = 1;

/// The most bytes of a credential or a verifier.
pub const AUTH_MAX: u32 = 400;

/// `reply_stat` of a call that was accepted.
pub const MSG_ACCEPTED: u32 = 0;

/// `reply_stat` of a call that was denied.
pub const MSG_DENIED: u32 = 1;

/// `accept_stat`: the results follow.
pub const SUCCESS: u32 = 0;

/// `accept_stat`: the program is unknown.
pub const PROG_UNAVAIL: u32 = 1;

/// `accept_stat`: the program has other versions.
pub const PROG_MISMATCH: u32 = 2;

/// `accept_stat`: the procedure is unknown.
pub const PROC_UNAVAIL: u32 = 3;

/// `accept_stat`: the arguments can't be read.
pub const GARBAGE_ARGS: u32 = 4;

/// `accept_stat`: the server has failed.
pub const SYSTEM_ERR: u32 = 5;

/// `reject_stat`: another version of RPC.
pub const RPC_MISMATCH: u32 = 0;

/// `reject_stat`: the caller isn't accepted.
pub const AUTH_ERROR: u32 = 1;

/// `auth_stat`: the credential has to be another one.
pub const AUTH_REJECTEDCRED: u32 = 2;
