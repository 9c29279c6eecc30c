//! XDR values in bytes (RFC 4506): each value has one spelling, and what was written is read again.
//!
//! That the spelling of a value is written stands on the clauses of the `put` and `set` functions, that what the next
//! bytes spell is read, or the first fault is told, on those of [`Cursor`], and what joins the two on [`laws`].
#![tactic(auto)]

mod cursor;
mod fault;
pub mod laws;
mod padding;
mod put;

pub use cursor::Cursor;
pub use fault::{NoRoom, XdrFault};
pub use put::{
    fixed_len, opaque_len, put_bool, put_fixed, put_i32, put_opaque, put_u32, set_bool, set_bytes,
    set_fixed, set_i32, set_opaque, set_u32,
};
