//! One connection over stored maps, from the loading of their files to the handing back of their disks.

ghost use Rattle.std.specs.Prelude.{◌≡◌, ◌≢◌, ◌≤◌, ℕ, IsTrue, Ok, map, length, All, IfOk, OnOk, IfErr, OnErr};
ghost use Rattle.std.specs.List.{AllZip};
ghost use Rattle.yp_io.specs.Counts.{HasRisen};
ghost use Rattle.yp_map_file.specs.Stands.{file_max};
ghost use Rattle.yp_version.specs.Versions.{IsVersion};
ghost use Rattle.yp_publisher.specs.Standing.{OfMap, IsStanding, Shows, versions};
ghost use Rattle.yp_publisher.specs.Begins.{plain_log, IsUnwritten, IsUnopened};
ghost use Rattle.yp_answer.specs.session.Wires.{wire_of, NeverFalls, SeesMore};
ghost use Rattle.yp_publisher.specs.Keeping.{keeping_of};
ghost use Rattle.yp_host.specs.Locals.{IsUsed};
ghost use Rattle.yp_host.specs.inside.Locals.{telling_by};
ghost use Rattle.yp_publisher.specs.Grown.{AtDisk, LeavesOr};
ghost use Rattle.yp_host.specs.Connections.{service_of, ServesConnection};
ghost use Rattle.yp_host.specs.inside.Connections.{connection_of};

use crate::desk::Desk;
use crate::local::LocalHost;
use std::alloc::Global;
use std::random::RandomSource;
use yp_answer::session::{CALLS_MAX, End, Session, Witness};
use yp_board::{Catalog, PlainBoard};
use yp_io::{Clock, Dial, Disk, Pair, Peer, Sink, Source, Texts};
use yp_publisher::laws::{beginning_is_start, log_rises, starts_are_shown};
use yp_publisher::{OpenFault, OpenRefused, open_publisher};

/// What a connection is served, and to whom.
#[derive(Drop)]
pub struct ConnectionSpec {
    /// The names of the maps.
    pub catalog: Catalog,
    /// The address of the caller.
    pub peer: Peer,
}

/// What a connection is served from.
#[derive(Drop)]
pub struct ConnectionResources<D, A, T, C> {
    /// The disks of the maps, in the order of the catalogue.
    pub disks: Vec<D>,
    pub desk: Desk<A, T, C>,
}

/// Serves one connection from stored maps: loads the files of all disks, shows what they stand for, and answers at most
/// [`CALLS_MAX`] records of the wire. The disks, in their order, and the desk come back with every outcome. Where a
/// file isn't loaded, nothing is read from the wire or written. The witness sees the wire behind each record that was
/// answered.
pub fn serve_wire<S: Source, K: Sink, D: Disk, A: Dial, T: Texts, C: Clock, W: Witness<S, K>>(
    alloc: Global,
    rt: &impl RandomSource,
    spec: ConnectionSpec,
    wire: &mut Pair<S, K>,
    resources: ConnectionResources<D, A, T, C>,
    witness: &mut W,
) -> (Result<End, OpenFault>, ConnectionResources<D, A, T, C>)
    requires { length resources.disks.items ≡ length spec.catalog.maps }
    ensures served { IfOk result.0 (λ end. SeesMore (W.wires witness.old) (W.wires witness.new) (ServesConnection
        (service_of (keeping_of D.history D.faults plain_log) (telling_by T.Texts C.Clock A.Dial)
        spec.catalog spec.peer) end
        (connection_of (wire_of S.Source K.Sink wire.old) resources)
        (connection_of (wire_of S.Source K.Sink wire.new) result.1))) }

    // What a refusal leaves: the wire and the desk as they were, and nothing was written.
    ensures unserved { IfErr result.0 (λ why.
        IsUnopened D.history D.faults why resources.disks.items result.1.disks.items) }
    ensures untouched { OnErr result.0 (wire.new ≡ wire.old) }
    ensures unasked { OnErr result.0 (result.1.desk ≡ resources.desk) }
    ensures unseen { OnErr result.0 (witness.new ≡ witness.old) }
    ensures unwritten { OnErr result.0
        (AllZip (IsUnwritten D.history D.faults) resources.disks.items result.1.disks.items) }

    // With every outcome: no disk is ever over the most bytes of a file, unless it was so before; none is lost.
    ensures bound { (number : ℕ) → AtDisk number resources.disks.items result.1.disks.items
        (LeavesOr D.history (λ image. length image ≤ file_max)) }
    ensures never_falls { (number : ℕ) → AtDisk number resources.disks.items result.1.disks.items
        (λ before after. D.faults before ≤ D.faults after) }
    ensures count { length result.1.disks.items ≡ length resources.disks.items }
    ensures desk { IsUsed (telling_by T.Texts C.Clock A.Dial) resources.desk result.1.desk }

    // The counts of the wire, a fault of it, and its output.
    ensures counts { NeverFalls (wire_of S.Source K.Sink wire.old) (wire_of S.Source K.Sink wire.new) }
    ensures read_fault { result.0 ≡ Ok End.ReadFault
        → HasRisen (S.faults wire.old.source) (S.faults wire.new.source) }
    ensures write_fault { result.0 ≡ Ok End.WriteFault
        → HasRisen (K.faults wire.old.sink) (K.faults wire.new.sink) }
    ensures flushed { result.0 ≢ Ok End.WriteFault
        → IsTrue (K.flushed wire.old.sink) → IsTrue (K.flushed wire.new.sink) }
{
    let ConnectionResources { disks, desk } = resources;
    // The names of a catalogue are within their limits.
    let _count = spec.catalog.len();
    let Ok(mut session) = Session::new(alloc) else {
        return (
            Err(OpenFault::NoMemory),
            ConnectionResources { disks, desk },
        );
    };
    match open_publisher(alloc, rt, spec.catalog, disks) {
        Ok(publisher) => {
            starts_are_shown();
            beginning_is_start();
            log_rises();
            let mut host = LocalHost::new(alloc, rt, publisher, desk);
            let end = session.run(wire, &mut host, spec.peer, CALLS_MAX, witness);
            (Ok(end), stock_of(host))
        }
        Err(OpenRefused { disks, fault }) => (Err(fault), ConnectionResources { disks, desk }),
    }
}

/// The disks and the desk of a host.
fn stock_of<D: Disk, A: Dial, T: Texts, C: Clock, R: RandomSource + Drop>(
    host: LocalHost<D, PlainBoard, A, T, C, R>,
) -> ConnectionResources<D, A, T, C>
    ensures disks { result.disks.items ≡ map (λ kept. kept.disk) host.published.maps }
    ensures desk { result.desk ≡ host.desk }
    ensures shows { Shows (plain_log host.published.board) (versions host.published.maps) }
    ensures standing { (number : ℕ) → OfMap number host.published.maps (IsStanding D.history) }
    ensures versions { All (λ entry. IsVersion entry.1) (plain_log host.published.board) }
{
    let (publisher, desk) = host.into_parts();
    let (disks, board) = publisher.into_parts();
    board.rest();
    ConnectionResources { disks, desk }
}
