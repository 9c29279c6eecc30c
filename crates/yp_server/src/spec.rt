//! What is served, what of, and what comes back.

use yp_board::Tell;
use yp_host::Desk;
use yp_host::workers::Totals;
use yp_io::Disk;
use yp_publisher::Publisher;
use yp_worker::Tally;

/// How connections and datagrams are served.
#[derive(Clone, Copy, Debug, PartialEq, Eq)]
pub struct ServeSpec {
    /// How many workers there are, from 1 to 8.
    pub workers: u32,
    /// The most records that are answered on one connection.
    pub most: u64,
    /// The most turns of each inbox.
    pub turns: u64,
}

/// What workers are lent.
#[derive(Drop)]
pub struct ServerResources<D: Disk, B: Tell, A, T, C, L, I> {
    /// The maps, and the writer of the board that shows them.
    pub publisher: Publisher<D, B>,
    /// Readers of that board: one for each worker of connections, one for the worker that does for them what takes
    /// long, one for each inbox, and one for the carrier of what datagrams ask for.
    pub readers: Vec<B::Reader>,
    pub desk: Desk<A, T, C>,
    pub listen: L,
    /// Ends of one port, at least one. Each has a worker for itself.
    pub inboxes: Vec<I>,
    /// One more end of that port, of which no turn is taken. The carrier of what datagrams ask for replies from it.
    pub outbox: I,
}

/// What comes back once all workers have ended.
#[derive(Drop)]
pub struct Served<D, B, A, T, C, L, I> {
    /// The disks of the maps, in their order.
    pub disks: Vec<D>,
    pub desk: Desk<A, T, C>,
    pub listen: L,
    /// The inboxes, in their order.
    pub inboxes: Vec<I>,
    /// The inbox of the carrier.
    pub outbox: I,
    /// The writer of the board.
    pub writer: B,
    /// What was served by all workers of connections together.
    pub tally: Tally,
    /// What all workers counted of maps that were made and of transfers.
    pub totals: Totals,
    /// Whether an inbox failed before all its turns were taken, or that of the carrier at a reply.
    pub inbox_fault: bool,
}

/// Memory ran out before a connection was accepted or a turn was taken. All that the workers would have had comes back.
#[derive(Drop)]
pub struct ServeRefused<D, A, T, C, L, I> {
    /// The disks of the maps, in their order.
    pub disks: Vec<D>,
    pub desk: Desk<A, T, C>,
    pub listen: L,
    /// The inboxes, in their order.
    pub inboxes: Vec<I>,
    /// The inbox of the carrier.
    pub outbox: I,
}
