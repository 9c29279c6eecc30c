//! What the tests of commands share: rows of tables, and runs of `yp_program::run` over memory by which a row is tried.
//! No program stands on it, and it ends no process: what is wrong is handed to the test.
#![tactic(auto)]

mod ended;
mod hall;
mod outside;
mod row;
mod stage;

pub use outside::Memory;
pub use row::{After, Datagram, DiskCalls, FAIR, NEVER, QUIET, Row, Stands, Words};
pub use stage::{
    SetUp, Wrong, set_up, strings_of, try_alone, try_crash, try_disk, try_ended, try_made,
    try_reads, try_row, try_stops, try_writes,
};
