//! Guests that workers leave to one that does what takes long.

ghost use Rattle.std.specs.Prelude.{◌≡◌, ◌+◌, true, false, IfSome, IfNone};
ghost use Rattle.slab.specs.Slab.{get};
ghost use Rattle.yp_answer.specs.inside.session.Hosts.{conduct_by};
ghost use Rattle.yp_worker.specs.inside.Receptions.{terms_by};
ghost use Rattle.yp_worker.specs.Summing.{counting_of};
ghost use Rattle.yp_worker.specs.inside.Guests.{IsTakenOut, IsWaiting};

use crate::catch_up::HandsOver;
use crate::guest::Guest;
use crate::listening::Reception;
use crate::waiting::Waiting;
use slab::Slab;
use std::alloc::Global;
use std::collections::VecDeque;
use std::marker::{Model, PhantomData};
use yp_io::{Hall, Wake, Watch};

/// What takes long, for which a worker has its thread.
#[derive(Clone, Copy, Debug, PartialEq, Eq)]
pub enum LongWork {
    /// Maps that are made.
    Makes,
    /// Maps that are fetched.
    Transfers,
}

impl LongWork {
    /// The other one.
    pub(crate) fn other(self) -> LongWork {
        match self {
            LongWork::Makes => LongWork::Transfers,
            LongWork::Transfers => LongWork::Makes,
        }
    }
}

/// The guests that wait for one who does what takes long, and what wakes that one. It is seen as how many wait.
#[derive(Drop)]
struct GuestQueue<J: Reception, H: HandsOver, L: Hall, G> {
    waiting: VecDeque<Waiting<L::In, L::Out, G, H::Front>>,
    waker: Option<L::Waker>,
    of: PhantomData<J>,
}

impl<J: Reception, H: HandsOver, L: Hall, G> Model for GuestQueue<J, H, L, G> {
    ghost use Rattle.std.specs.Prelude.{ℕ};
    ghost use Rattle.std.specs.List.{All};
    ghost use Rattle.std.specs.VecDeque.{deque_len};
    ghost use Rattle.yp_answer.specs.session.Hosts.{conduct_of};
    ghost use Rattle.yp_worker.specs.Receptions.{terms_of};
    ghost use Rattle.yp_worker.specs.Summing.{counting_of};
    ghost use Rattle.yp_worker.specs.inside.Guests.{IsWaiting};

    ghost Value = { ℕ };

    ghost view = { λ q. deque_len q.waiting };

    ghost invariant = { λ q. All (IsWaiting L.In.TrySource L.Out.TrySink
        (conduct_of H.seen H.told H.counts H.stepped H.made H.carried) (counting_of H.counted H.none H.plus)
        (terms_of J.catalogue J.starts J.most) J.opening.past H.Front.known) q.waiting.items };
}

impl<J: Reception, H: HandsOver, L: Hall, G> GuestQueue<J, H, L, G> {
    /// Nobody waits, and nobody can be woken yet.
    fn new(alloc: Global) -> GuestQueue<J, H, L, G>
        ensures { result ≡ 0 }
    {
        GuestQueue {
            waiting: VecDeque::new(alloc),
            waker: None,
            of: PhantomData,
        }
    }

    /// Whether nobody waits.
    fn is_empty(&self) -> bool
        ensures { result ≡ true → self.now ≡ 0 }
    {
        self.waiting.is_empty()
    }

    /// Whether the one who does what takes long can be woken.
    fn is_attended(&self) -> bool {
        self.waker.is_some()
    }

    /// What wakes the one who does what takes long, from now on.
    fn attend(&mut self, waker: Option<L::Waker>)
        ensures { self.new ≡ self.old }
    {
        self.waker = waker;
    }

    /// Wakes the one who does what takes long, where it can be woken.
    fn wake(&self) {
        wake(&self.waker);
    }

    /// Takes the guest that has waited longest, where one waits. Where more do, whoever takes them is told again.
    fn take(&mut self) -> Option<Waiting<L::In, L::Out, G, H::Front>>
        ensures waits { IfSome result (IsWaiting L.In.TrySource L.Out.TrySink (conduct_by H.Host)
            (counting_of H.counted H.none H.plus) (terms_by J.Reception) J.opening.past H.Front.known) }
        ensures less { IfSome result (λ _. self.new + 1 ≡ self.old) }
        ensures none { IfNone result (self.new ≡ self.old) }
    {
        let waiting = self.waiting.pop_front()?;
        if !self.waiting.is_empty() {
            wake(&self.waker);
        }
        Some(waiting)
    }

    /// Keeps the guest at a key, where the one who does what takes long can be woken and there is memory.
    fn keep(
        &mut self,
        guests: &mut Slab<Guest<L::In, L::Out, G>>,
        key: usize,
        front: H::Front,
    ) -> bool
        requires waits { IfSome (get guests.old key) (λ guest. IsWaiting L.In.TrySource L.Out.TrySink
            (conduct_by H.Host) (counting_of H.counted H.none H.plus) (terms_by J.Reception) J.opening.past
            H.Front.known (record { guest = guest; front = front })) }
        ensures kept { result ≡ true → IsTakenOut key guests.old guests.new × (self.new ≡ self.old + 1) }
        ensures same { result ≡ false → (guests.new ≡ guests.old) × (self.new ≡ self.old) }
    {
        if self.waker.is_none() {
            return false;
        }
        if self.waiting.reserve(1).is_err() {
            return false;
        }
        let Some(guest) = guests.try_remove(key) else {
            return false;
        };
        self.waiting.push_back_reserved(Waiting::new(guest, front));
        wake(&self.waker);
        true
    }
}

/// The guests that workers have left to those who do what takes long, one for each such work. It is seen as how many
/// wait.
#[derive(Drop)]
pub(crate) struct LeftGuests<J: Reception, H: HandsOver, L: Hall, G> {
    makes: GuestQueue<J, H, L, G>,
    transfers: GuestQueue<J, H, L, G>,
}

impl<J: Reception, H: HandsOver, L: Hall, G> Model for LeftGuests<J, H, L, G> {
    ghost use Rattle.std.specs.Prelude.{ℕ, ◌+◌};

    ghost Value = { ℕ };

    ghost view = { λ l. l.makes + l.transfers };
}

impl<J: Reception, H: HandsOver, L: Hall, G> LeftGuests<J, H, L, G> {
    /// Nobody waits, and nobody can be woken yet.
    pub(crate) fn new(alloc: Global) -> LeftGuests<J, H, L, G>
        ensures { result ≡ 0 }
    {
        LeftGuests {
            makes: GuestQueue::new(alloc),
            transfers: GuestQueue::new(alloc),
        }
    }

    /// Whether nobody waits.
    pub(crate) fn is_empty(&self) -> bool
        ensures { result ≡ true → self.now ≡ 0 }
    {
        self.makes.is_empty() && self.transfers.is_empty()
    }

    /// The one who does such work waits by this watch from now on.
    pub(crate) fn attend(&mut self, work: Option<LongWork>, watch: &L::Watch)
        ensures { self.new ≡ self.old }
    {
        match work {
            Some(LongWork::Makes) => self.makes.attend(watch.waker()),
            Some(LongWork::Transfers) => self.transfers.attend(watch.waker()),
            None => {}
        }
    }

    /// Wakes all who do what takes long and can be woken.
    pub(crate) fn wake_all(&self) {
        self.makes.wake();
        self.transfers.wake();
    }

    /// Takes the guest that has waited longest for such work, where one waits.
    pub(crate) fn take(&mut self, work: LongWork) -> Option<Waiting<L::In, L::Out, G, H::Front>>
        ensures waits { IfSome result (IsWaiting L.In.TrySource L.Out.TrySink (conduct_by H.Host)
            (counting_of H.counted H.none H.plus) (terms_by J.Reception) J.opening.past H.Front.known) }
        ensures less { IfSome result (λ _. self.new + 1 ≡ self.old) }
        ensures none { IfNone result (self.new ≡ self.old) }
    {
        match work {
            LongWork::Makes => self.makes.take(),
            LongWork::Transfers => self.transfers.take(),
        }
    }

    /// Who takes a guest for such work: the one whose work that is, where it can be woken, and else the other one.
    fn taker(&self, work: LongWork) -> LongWork {
        let is_attended = match work {
            LongWork::Makes => self.makes.is_attended(),
            LongWork::Transfers => self.transfers.is_attended(),
        };
        if is_attended { work } else { work.other() }
    }

    /// Keeps the guest at a key, where the one who takes it can be woken and there is memory.
    pub(crate) fn keep(
        &mut self,
        guests: &mut Slab<Guest<L::In, L::Out, G>>,
        key: usize,
        front: H::Front,
    ) -> bool
        requires waits { IfSome (get guests.old key) (λ guest. IsWaiting L.In.TrySource L.Out.TrySink
            (conduct_by H.Host) (counting_of H.counted H.none H.plus) (terms_by J.Reception) J.opening.past
            H.Front.known (record { guest = guest; front = front })) }
        ensures kept { result ≡ true → IsTakenOut key guests.old guests.new × (self.new ≡ self.old + 1) }
        ensures same { result ≡ false → (guests.new ≡ guests.old) × (self.new ≡ self.old) }
    {
        let Some(guest) = guests.get(key) else {
            return false;
        };
        match self.taker(guest.long_work()) {
            LongWork::Makes => self.makes.keep(guests, key, front),
            LongWork::Transfers => self.transfers.keep(guests, key, front),
        }
    }
}

/// Wakes the one who does what takes long, where it can be woken.
fn wake<W: Wake>(waker: &Option<W>) {
    if let Some(waker) = waker {
        waker.wake();
    }
}
