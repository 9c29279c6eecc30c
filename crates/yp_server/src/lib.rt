//! Serving: the connections of a listener and the datagrams of inboxes, by workers in threads of their own, over maps
//! that they share.
//!
//! [`serve`] lends a publisher, the texts and the dial of a desk, and a listener to its workers, each under a lock, and
//! takes them apart again once all workers have ended. A map is made under the lock of the texts, and fetched under
//! that of the dial, so no source holds up a make of another worker. Each worker serves many connections at once, and
//! waits for none of them. Beside them is a worker for each inbox, which it has for itself and whose datagrams it
//! answers, and a carrier, which does what takes long for these: transfers, and calls for which a map may have to be
//! made. What each worker did, step by step, how each connection stood as it was closed, that all were closed, what was
//! counted, what went out for each datagram, and how each map stands then are its clauses.
#![tactic(auto)]

mod datagrams;
mod hosts;
mod locks;
mod preparing;
mod resources;
mod serving;
mod spec;
mod workers;

pub use serving::serve;
pub use spec::{ServeRefused, ServeSpec, Served, ServerResources};
