//! What every command has before it and behind it: the outside that it reaches, and the status with which it ends.
//!
//! A command takes an [`Office`] by `&mut` and answers a [`Status`]. What it did is a relation between the office
//! before and after; what the parts of an office tell is seen through one record, `Seeing`. The code and the line of a
//! status stand on [`Status::code`] and [`Status::note`], and disks under the names of their maps on [`named_disks`].

mod disks;
mod file;
mod hosts;
mod lines;
mod office;
mod row;
mod status;

pub use disks::{Apart, NamedDisk, named_disks, put_together, take_apart};
pub use file::{status_of_file, status_of_map};
pub use hosts::table_of;
pub use lines::{LINE_MAX, Line, add, add_map, add_number, add_peer};
pub use office::Office;
pub use row::{BYTES_RULE, KEY_RULE, ROWS_RULE, VALUE_RULE, status_of_row};
pub use status::Status;
