//! The commands of Pinthou, and the one call that does all that the program does.
//!
//! What the words of the command line mean is said by `yp_command`, whose calls are offered here too. What is read,
//! written and stored for each command, what `xfr` and `walk` have of their source, and the cause of each status,
//! stands on [`run`]: its clause `does` has one relation a command, and `may_end` the statuses with which each may end.
//! That a client prints the state of the session that it asks stands on [`laws::session_is_printed`].
#![tactic(auto)]

mod ask;
pub mod laws;
mod orders;
mod program;
mod transferring;
mod walking;

pub use program::{run, run_alone, run_command, run_watched, tell};
pub use yp_command::office::{NamedDisk, Office, Status, named_disks};
pub use yp_command::{
    Command, HostWord, KeyValue, ParseFault, connections_of, disk_names, parse, port_of, stores_of,
};
pub use yp_command_serve::serve::{Doors, Outside};
