//! A host of a board that threads share, which hands over what it counted and what it knew.

ghost use Rattle.std.specs.Prelude.{◌≡◌, ◌+◌, None, min};
ghost use Rattle.std.proofs.Common.{ap};
ghost use Rattle.yp_io.specs.Counts.{last_count};
ghost use Rattle.yp_board.specs.Views.{Refreshes};

use crate::given::assert_fits;
use crate::host::{catalog, start, version, waiting};
use std::alloc::Global;
use std::mem;
use std::process::Abort;
use std::random::RandomSource;
use std::sync::{Arc, Wait};
use yp_answer::session::Host;
use yp_answer::{MakeJob, TransferJob};
use yp_board::readers::{Front, Naming, Opened, Reader, Table, Writer, board};
use yp_board::{Catalog, Show, Tell, View};
use yp_io::{NoMemory, Peer};
use yp_messages::XfrStat;
use yp_version::Version;
use yp_worker::{CatchUp, HandsOver, Known};

/// It makes no map: memory runs out. A transfer is counted. Where it has the writer of its board, others show a version
/// of the first map each time that it catches up, the last of these. Where none is left, memory runs out.
#[derive(Drop)]
pub struct ReaderHost<'r, N: Naming, R: Wait> {
    pub reader: Reader<N>,
    pub writer: Option<Writer<N, &'r R>>,
    pub waiting: Vec<Arc<Version>>,
    pub transfers: u64,
}

impl<'r, N: Naming, R: Wait> View for ReaderHost<'r, N, R> {
    ghost seen = { λ host. host.reader };

    ghost stepped = { λ old new. (new.transfers ≡ old.transfers) × Refreshes old.reader new.reader };

    fn catalog(&self) -> &Catalog {
        self.reader.catalog()
    }

    fn refresh(&mut self) {
        self.reader.refresh();
    }

    fn held(&self, map: u32) -> Option<&Version> {
        self.reader.held(map)
    }

    fn share(&self, map: u32) -> Result<Option<Arc<Version>>, NoMemory> {
        self.reader.share(map)
    }
}

impl<'r, N: Naming, R: Wait> Host for ReaderHost<'r, N, R> {
    ghost told = { λ host. record { text = λ file. None; moment = None } };

    ghost counts = { λ host. record { files = 0; transfers = host.transfers } };

    ghost made = { λ job stat old new. Unit {0} };

    fn make(&mut self, _job: MakeJob) -> XfrStat {
        XfrStat::Rsrc
    }

    ghost carried = { λ taken peer old new. Unit {0} };

    fn transfer(&mut self, _job: &TransferJob<'_>, _peer: Peer) {
        self.transfers = self.transfers.saturating_add(1);
    }

    ghost step_counts_nothing = { λ old new h. ap (λ count. record { files = 0; transfers = count }) h.0 };
}

impl<'r, N: Naming, R: Wait> CatchUp for ReaderHost<'r, N, R> {
    type Count = u64;

    ghost counted = { λ host. host.transfers };

    fn catch_up(&mut self) -> Result<(), NoMemory> {
        if self.waiting.is_empty() {
            return Err(NoMemory);
        }
        if let Some(writer) = &mut self.writer {
            if writer.maps() > 0 {
                if let Some(version) = self.waiting.pop() {
                    let _ = writer.show(0, version);
                }
            }
        }
        Ok(())
    }
}

/// The transfers of hosts, and the longest front that one of them knew.
#[derive(Drop)]
pub struct Handed<N: Naming> {
    pub transfers: u64,
    pub front: Front<N>,
}

/// What a reader knew at a moment.
#[derive(Drop)]
pub struct Knew<N: Naming> {
    table: Table<N>,
}

impl<N: Naming> Known for Knew<N> {
    ghost known = { λ knew. knew.table };
}

impl<'r, N: Naming, R: Wait> HandsOver for ReaderHost<'r, N, R> {
    type Sum = Handed<N>;

    ghost summed = { λ sum. sum.transfers };

    ghost reached = { λ sum. sum.front };

    ghost none = { 0 };

    ghost plus = { λ sum more. min (sum + more) last_count };

    fn hand_over(&mut self, sum: &mut Handed<N>) {
        sum.transfers = sum.transfers.saturating_add(self.transfers);
        self.transfers = 0;
        let before = mem::replace(&mut sum.front, known::<N, R>(&self.reader));
        sum.front = <Writer<N, &'r R> as Tell>::longer(before, known::<N, R>(&self.reader));
    }

    type Front = Knew<N>;

    fn front(&self) -> Result<Knew<N>, NoMemory> {
        let table = <Writer<N, &'r R> as Tell>::knowledge(&self.reader)?;
        Ok(Knew { table })
    }

    fn reach(&mut self, front: Knew<N>) {
        let Knew { table } = front;
        <Writer<N, &'r R> as Tell>::teach(&mut self.reader, table);
    }
}

/// What a reader knows.
pub fn known<N: Naming, R: Wait>(reader: &Reader<N>) -> Front<N>
    ensures { result ≡ reader.now.known }
{
    <Writer<N, &R> as Tell>::known(reader)
}

/// A board of the maps of a test host, of which the first shows this version, with two readers.
pub fn two_readers<'r, N: Naming, R: Wait + RandomSource + Abort>(
    rt: &'r R,
    alloc: Global,
    opened: Opened,
    first: Arc<Version>,
) -> (Writer<N, &'r R>, Reader<N>, Reader<N>)
    requires { opened ≡ N.book }
    ensures { result.2.catalogue ≡ result.1.catalogue }
{
    let catalog = catalog(rt, alloc);
    let start = start(rt, alloc, first);
    assert_fits(rt, start.len(), &catalog);
    let (writer, mut readers) = board(alloc, rt, opened, catalog, start, 2).expect(rt, "a board");
    let first = readers.pop().expect(rt, "a reader");
    let second = readers.pop().expect(rt, "a reader");
    (writer, first, second)
}

/// A host that reads a board, behind which others show nothing.
pub fn host<'r, N: Naming, R: Wait>(alloc: Global, reader: Reader<N>) -> ReaderHost<'r, N, R>
    ensures reader { result.reader ≡ reader }
    ensures transfers { result.transfers ≡ 0 }
{
    ReaderHost {
        reader,
        writer: None,
        waiting: Vec::new(alloc),
        transfers: 0,
    }
}

/// Two hosts of one board, whose first map has the value `alpha:1`. Each time that the first catches up, others show
/// the next of these values.
pub fn two_hosts<'r, N: Naming, R: Wait + RandomSource + Abort>(
    rt: &'r R,
    alloc: Global,
    opened: Opened,
    values: &[&[u8]],
) -> (ReaderHost<'r, N, R>, ReaderHost<'r, N, R>)
    requires { opened ≡ N.book }
    ensures { result.1.reader.catalogue ≡ result.0.reader.catalogue }
{
    let first = version(rt, alloc, 7, b"alpha:1");
    let (writer, reader, other) = two_readers(rt, alloc, opened, first);
    let told = ReaderHost {
        reader,
        writer: Some(writer),
        waiting: waiting(rt, alloc, values),
        transfers: 0,
    };
    (told, host(alloc, other))
}
