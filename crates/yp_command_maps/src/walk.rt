//! The command `walk`: a map is fetched row by row in datagrams, stored behind the version that stands, and told.
//!
//! It takes the office of the outside, and ensures the one relation that says what it does to it: [`walk_map`]. The
//! turns of the inbox are those of `yp_rpc`, the walk over the map is that of `yp_transfer::walk`, and what came of it
//! is stored and told as `yp_command_maps` does it for a transfer.

mod walk;
mod walker;

pub use walk::walk_map;
