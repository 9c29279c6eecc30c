//! How a carrier is told of what comes for it.

use std::sync::{Condvar, Mutex, Wait};

/// How often something was told, how many servers may still leave something, and whether a carrier attends that has no
/// transfer before it.
#[derive(Drop)]
struct Tellings {
    told: u64,
    servers: u64,
    is_free: bool,
}

/// Where servers tell that they left something or that they have ended, and where the carrier waits for that. No clause
/// says that it wakes.
#[derive(Drop)]
pub(crate) struct Arrivals {
    tellings: Mutex<Tellings>,
    changed: Condvar,
}

impl Arrivals {
    /// Nothing was told yet, no carrier attends, and so many servers may leave something.
    pub(crate) fn new(servers: u64) -> Arrivals {
        Arrivals {
            tellings: Mutex::new(Tellings {
                told: 0,
                servers,
                is_free: false,
            }),
            changed: Condvar::new(),
        }
    }

    /// Tells that something came.
    pub(crate) fn tell<R: Wait>(&self, rt: &R) {
        let mut tellings = self.tellings.lock(rt);
        tellings.told = tellings.told.wrapping_add(1);
        self.changed.notify_all();
    }

    /// Tells that a server has ended, and leaves nothing any more.
    pub(crate) fn end<R: Wait>(&self, rt: &R) {
        let mut tellings = self.tellings.lock(rt);
        tellings.servers = tellings.servers.saturating_sub(1);
        self.changed.notify_all();
    }

    /// Tells that a transfer comes, for which the source may hold the carrier for long.
    pub(crate) fn engage<R: Wait>(&self, rt: &R) {
        self.tellings.lock(rt).is_free = false;
    }

    /// Whether a carrier attends that has no transfer before it.
    pub(crate) fn is_free<R: Wait>(&self, rt: &R) -> bool {
        self.tellings.lock(rt).is_free
    }

    /// How often it was told that something came, for one who looks for it then.
    pub(crate) fn told<R: Wait>(&self, rt: &R) -> u64 {
        self.tellings.lock(rt).told
    }

    /// Waits until something came since it was told so often, or until all servers have ended, and answers whether
    /// something came. Who waits is free.
    pub(crate) fn wait_past<R: Wait>(&self, rt: &R, seen: u64) -> bool {
        let mut tellings = self.tellings.lock(rt);
        if tellings.told == seen {
            tellings.is_free = true;
        }
        let tellings = self.changed.wait_while(rt, tellings, |tellings| {
            tellings.told == seen && tellings.servers > 0
        });
        tellings.told != seen
    }
}
