//! A worker of connections.

ghost use Rattle.std.specs.Prelude.{◌≡◌, ◌≤◌, is_some};
ghost use Rattle.yp_board.specs.Views.{IsFront};

use crate::catch_up::HandsOver;
use crate::left::LongWork;
use std::marker::Model;
use yp_answer::session::{Buffers, CALLS_MAX};

/// A worker. It answers at most so many records of one connection. What takes long, the making and the fetching of
/// maps, it does only where one of these is its work.
#[derive(Drop)]
pub struct Worker<H, G> {
    pub(crate) host: H,
    pub(crate) buffers: Buffers,
    pub(crate) gate: G,
    pub(crate) most: u64,
    pub(crate) work: Option<LongWork>,
}

impl<H, G> Model for Worker<H, G> {
    ghost use Rattle.std.specs.Prelude.{is_some};
    ghost use Rattle.yp_worker.specs.Working.{Working};

    ghost Value = { Working H };

    ghost view = { λ w. record { host = w.host; most = w.most; carries = is_some w.work } };
}

impl<H, G> Worker<H, G> {
    /// A worker with this host, and this memory for records and replies.
    pub fn new(
        host: H,
        buffers: Buffers,
        gate: G,
        most: u64,
        work: Option<LongWork>,
    ) -> Worker<H, G>
        requires { most ≤ CALLS_MAX }
        ensures { result ≡ record { host = host; most = most; carries = is_some work } }
    {
        Worker {
            host,
            buffers,
            gate,
            most,
            work,
        }
    }

    /// The host.
    pub fn into_host(self) -> H
    where
        G: Drop,
        ensures { result ≡ self.host }
    {
        let Worker {
            host,
            buffers: _,
            gate: _,
            most: _,
            work: _,
        } = self;
        host
    }
}

impl<H: HandsOver, G> Worker<H, G> {
    /// Adds what its host has counted to a sum, and lets the sum know how far that has read the log.
    pub(crate) fn hand_over(&mut self, sum: &mut H::Sum)
        ensures seen { H.seen self.new.host ≡ H.seen self.old.host }
        ensures same { self.new ≡ record self.old { host = self.new.host } }
        ensures none { H.counted self.new.host ≡ H.none }
        ensures added { H.summed sum.new ≡ H.plus (H.summed sum.old) (H.counted self.old.host) }
        ensures covered { IsFront (H.seen self.old.host).known (H.reached sum.new) }
        ensures kept { IsFront (H.reached sum.old) (H.reached sum.new) }
    {
        self.host.hand_over(sum);
    }
}
