//! What the tests of workers, of their hosts and of the server share: catalogues, disks, texts and publishers of one
//! map, and halls, all in memory. No program stands on it, and it ends no process: what is wrong is handed to the test.
#![tactic(auto)]

mod halls;
mod maps;
mod publishers;

pub use halls::{Caller, Closed, Visit, closed, hall, taken};
pub use maps::{LAB, Map, catalog_of, sound_disk, texts_of};
pub use publishers::{Maps, publisher};
