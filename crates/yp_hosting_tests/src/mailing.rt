//! `bind`, `portmap`, `getport`, `setport`, `unsetport` and `push` over an inbox in memory.

mod binds;
mod getports;
mod portmaps;
mod pushes;
mod setports;
