//! A file that keeps one version of a map through a crash at any moment.
//!
//! What its bytes stand for is the definition `stands`. [`Slot::load`] answers it, and [`Slot::survey`] all of it but
//! for the rows. [`Slot::commit`] stores a version: at each moment of the call a crash leaves a file that stands for
//! what stood before or for that version, and after Ok for that version alone. Its clauses rest on those of its four
//! parts, and on [`laws`].
#![tactic(auto)]

mod cells;
mod fault;
mod known;
pub mod laws;
mod load;
mod parts;
mod read;
mod slot;
mod survey;
mod wrong;

pub use fault::SlotFault;
pub use known::Stage;
pub use slot::{GENERATION_MAX, Slot};
pub use survey::Summary;
