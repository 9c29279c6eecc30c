//! A transfer that waits until its reply is out.

ghost use Rattle.std.specs.Prelude.{◌≡◌, ◌≤◌, length};
ghost use Rattle.yp_answer.specs.inside.Transfer.{taken_view};

use crate::TransferJob;
use arrayvec::ArrayVec;
use std::marker::Model;
use yp_board::NAME_MAX;

/// A transfer that was taken and isn't carried out yet, with a copy of its source's name. It takes no memory.
#[derive(Drop)]
pub struct Errand {
    map: u32,
    source: ArrayVec<u8, NAME_MAX>,
    transid: u32,
    prog: u32,
    port: u32,
}

impl Model for Errand {
    ghost use Rattle.yp_answer.specs.Transfer.{Taken};

    ghost Value = { Taken };

    ghost view = { λ e. record {
      map = e.map;
      source = e.source.items;
      transid = e.transid;
      prog = e.prog;
      port = e.port;
    } };
}

impl Errand {
    /// The errand of a transfer.
    pub fn new(job: &TransferJob<'_>) -> Errand
        requires { length job.now.source.now ≤ NAME_MAX }
        ensures { result ≡ taken_view job.now }
    {
        let mut source = ArrayVec::new();
        let _ = source.try_extend_from_slice(job.source);
        Errand {
            map: job.map,
            source,
            transid: job.transid,
            prog: job.prog,
            port: job.port,
        }
    }

    /// The transfer.
    pub fn job(&self) -> TransferJob<'_>
        ensures { taken_view result ≡ self.now }
    {
        TransferJob {
            map: self.map,
            source: &self.source,
            transid: self.transid,
            prog: self.prog,
            port: self.port,
        }
    }
}
