//! The host of a worker, which shares its maps and its desk with the workers of other threads.
//!
//! What a worker knows is what its own reader knows. It makes maps under two locks: that of the texts, which is taken
//! first, and that of the publisher. It fetches them, and tells callers, under that of the dial alone, and installs
//! what it fetched under the publisher's alone: however long a source or a caller takes, no make of another worker
//! waits for it. No look-up takes the lock of the texts or that of the dial. That a map which was made is known, last
//! of all, behind all that the worker knew, and each other status by its cause, stands on [`WorkerHost`] as a
//! [`Host`](yp_answer::session::Host): the relation `made` of its `make`. What a transfer came to stands on the
//! relation `carried` of its `transfer`.
//!
//! What all workers answered is covered by what came about under the locks. How many makes and transfers ended in FILE
//! is at most what the counts of the texts and of the disks rose by. How many transfers reached an order is at most how
//! many wires begin with one, and how many had a source that failed is at most what the dial's count of faults rose by,
//! with the wires that give no version. How many versions were fetched is at most how many wires give one, and how many
//! makes ended in SUCC is at most how many built versions were shown. Each is charged under the lock where it came
//! about, and that stands on [`Account::into_parts`], on [`SharedTexts::close`], on [`SharedDial::close`] and on
//! [`Locked::close`](yp_publisher::sharing::Locked::close).
//!
//! Whom the shared dial told what: a host that carried a transfer out leaves its caller and its status in a queue, and
//! whoever has the dial next tells all that wait. That each status is the one that the transfer came to stands on the
//! relation `carried`, too, and that what was told is what hosts left, each as often, on [`SharedDial::close`].

mod call_backs;
mod carrying;
mod charges;
mod dial;
mod front;
mod host;
mod journal;
mod making;
mod outcome;
mod setting;
mod supplies;
mod texts;

pub use call_backs::{CallBack, CallBackPass, LeftCallBacks, PendingCallBacks};
pub use charges::{Account, Charges, Counted};
pub use dial::{DialShares, Dialer, SharedDial};
pub use front::BoardFront;
pub use host::WorkerHost;
pub use journal::{Event, Events, Journal};
pub use outcome::{Group, Outcomes, Totals};
pub use setting::WorkerSetting;
pub use supplies::{FailedSources, ReachedOrders, Supplies, UnreadTexts};
pub use texts::{Materials, SharedTexts};
