//! The command `session`: one connection over stored maps.

ghost use Rattle.std.specs.Prelude.{◌≡◌, ◌≢◌, ℕ, ◌≤◌, None, IsTrue, All, map, length};
ghost use Rattle.yp_io.specs.Counts.{HasRisen};
ghost use Rattle.yp_map_file.specs.Stands.{file_max};
ghost use Rattle.yp_board.specs.Catalogues.{name_view, maps_max};
ghost use Rattle.yp_board.specs.inside.Catalogues.{catalog_fault};
ghost use Rattle.yp_publisher.specs.Keeping.{keeping_of};
ghost use Rattle.yp_answer.specs.session.Wires.{wire_of, SeesMore};
ghost use Rattle.yp_host.specs.inside.Locals.{telling_by};
ghost use Rattle.yp_publisher.specs.Begins.{plain_log};
ghost use Rattle.yp_publisher.specs.Grown.{AtDisk, LeavesOr};
ghost use Rattle.yp_host.specs.Connections.{service_of};
ghost use Rattle.yp_command.specs.Words.{host_view};
ghost use Rattle.yp_command.specs.inside.Words.{IsNamed};
ghost use Rattle.yp_command.specs.office.Disks.{names_of, disks_of, faults_of};
ghost use Rattle.yp_command_serve.specs.Session.{Sessions, connection_at};
ghost use Rattle.yp_command_serve.specs.inside.Session.{TellsSessionEnd, HasMapNumber};
ghost use Rattle.yp_command_serve.specs.Served.{witnessed};
ghost use Rattle.yp_command_serve.specs.Session.{SessionDoes, session_job_of, session_may_end};
ghost use Rattle.yp_command.specs.office.Seeing.{seeing, IsPassedOn};
ghost use Rattle.yp_command.specs.inside.office.Status.{IsTellable};

use crate::end::status_of_end;
use std::alloc::Global;
use std::random::RandomSource;
use yp_answer::session::{End, Witness};
use yp_board::{Catalog, CatalogFault, MapName};
use yp_command::HostWord;
use yp_command::office::{
    Apart, NamedDisk, Office, Status, put_together, status_of_map, table_of, take_apart,
};
use yp_host::{ConnectionResources, ConnectionSpec, Desk, serve_wire};
use yp_io::{Clock, Dial, Disk, Inbox, NoMemory, Pair, Peer, Sink, Source, Texts};
use yp_publisher::OpenFault;
use yp_rpc::laws;
use yp_transfer::Hosts;

/// The status of a connection that ended, or of one that wasn't served.
fn status_of(alloc: Global, served: Result<End, OpenFault>, names: &[MapName]) -> Status
    requires number { HasMapNumber served (length names.now) }
    requires named { All IsNamed (map name_view names.now) }
    ensures tells { TellsSessionEnd served (map name_view names.now) result }
    ensures may_end { IsTrue (session_may_end result) }
    ensures tellable { IsTellable result }
{
    match served {
        Ok(end) => status_of_end(end),
        Err(OpenFault::NoMemory) => Status::NoMemory,
        Err(OpenFault::Refused { map, fault }) => status_of_map(alloc, names, map, fault),
    }
}

/// What a session serves, and to whom.
#[derive(Drop)]
pub struct SessionSpec {
    /// The name of the host that answers.
    pub own: Vec<u8>,
    /// The address of the caller.
    pub peer: Peer,
    /// The maps.
    pub stores: Vec<MapName>,
}

/// Serves a wire as one connection over the stored versions of maps. The disks come back under their names, and so does
/// the desk. The witness sees the wire behind each record that was answered.
fn session_on<S: Source, K: Sink, D: Disk, A: Dial, T: Texts, C: Clock, W: Witness<S, K>>(
    alloc: Global,
    rt: &impl RandomSource,
    spec: SessionSpec,
    wire: &mut Pair<S, K>,
    resources: ConnectionResources<NamedDisk<D>, A, T, C>,
    witness: &mut W,
) -> (Status, ConnectionResources<NamedDisk<D>, A, T, C>)
    requires catalogue { catalog_fault spec.own.items (map name_view spec.stores.items) ≡ None }
    requires named { All IsNamed (map name_view spec.stores.items) }
    requires count { length (map name_view spec.stores.items) ≤ maps_max }
    requires disks { names_of resources.disks.items ≡ map name_view spec.stores.items }
    ensures sessions { SeesMore (W.wires witness.old) (W.wires witness.new) (Sessions
        (service_of (keeping_of D.history D.faults plain_log) (telling_by T.Texts C.Clock A.Dial)
        (record { own = spec.own.items; maps = map name_view spec.stores.items }) spec.peer) result.0
        (connection_at (wire_of S.Source K.Sink wire.old) resources.disks.items resources.desk)
        (connection_at (wire_of S.Source K.Sink wire.new) result.1.disks.items result.1.desk)) }
    ensures bound { (number : ℕ) → AtDisk number (disks_of resources.disks.items) (disks_of result.1.disks.items)
        (LeavesOr D.history (λ image. length image ≤ file_max)) }
    ensures names { names_of result.1.disks.items ≡ names_of resources.disks.items }
    ensures clock { C.moment result.1.desk.clock ≡ C.moment resources.desk.clock }
    ensures hosts { result.1.desk.hosts ≡ resources.desk.hosts }
    ensures flushed { result.0 ≢ Status.WriteFault
        → IsTrue (K.flushed wire.old.sink) → IsTrue (K.flushed wire.new.sink) }
    ensures read_fault { result.0 ≡ Status.ReadFault → HasRisen (S.faults wire.old.source) (S.faults wire.new.source) }
    ensures write_fault { result.0 ≡ Status.WriteFault → HasRisen (K.faults wire.old.sink) (K.faults wire.new.sink) }
    ensures disk_fault { (map : MapName) → result.0 ≡ Status.DiskFault map
        → HasRisen (faults_of D.faults resources.disks.items) (faults_of D.faults result.1.disks.items) }
    ensures may_end { IsTrue (session_may_end result.0) }
    ensures tellable { IsTellable result.0 }
{
    let catalog = match Catalog::new(alloc, spec.own, spec.stores) {
        Ok(catalog) => catalog,
        Err(CatalogFault::NoMemory) => return (Status::NoMemory, resources),
        Err(_) => unreachable!(),
    };
    let spec = ConnectionSpec {
        catalog,
        peer: spec.peer,
    };
    let ConnectionResources {
        disks: mut named,
        desk,
    } = resources;
    let Apart { names, disks } = match take_apart(alloc, &mut named) {
        Ok(apart) => apart,
        Err(NoMemory) => {
            let resources = ConnectionResources { disks: named, desk };
            return (Status::NoMemory, resources);
        },
    };
    let resources = ConnectionResources { disks, desk };
    let (served, resources) = serve_wire(alloc, rt, spec, wire, resources, witness);
    let ConnectionResources { disks, desk } = resources;
    let status = status_of(alloc, served, &names);
    put_together(&mut named, Apart { names, disks });
    (status, ConnectionResources { disks: named, desk })
}

/// Serves the input as one connection over the stored versions of maps. The witness sees the wire behind each record
/// that was answered.
fn session_over<
    S: Source,
    K: Sink,
    D: Disk,
    C: Clock,
    A: Dial,
    I: Inbox,
    T: Texts,
    W: Witness<S, K>,
>(
    alloc: Global,
    rt: &impl RandomSource,
    spec: SessionSpec,
    hosts: Hosts,
    office: Office<S, K, D, C, A, I, T>,
    witness: &mut W,
) -> (Status, Office<S, K, D, C, A, I, T>)
    requires catalogue { catalog_fault spec.own.items (map name_view spec.stores.items) ≡ None }
    requires named { All IsNamed (map name_view spec.stores.items) }
    requires count { length (map name_view spec.stores.items) ≤ maps_max }
    requires disks { names_of office.disks.items ≡ map name_view spec.stores.items }
    ensures does { SessionDoes (seeing S.Source K.Sink D.Disk C.Clock A.Dial I.Inbox T.Texts)
        (session_job_of spec.own.items spec.peer (map name_view spec.stores.items) hosts) result.0
        (witnessed office (W.wires witness.old)) (witnessed result.1 (W.wires witness.new)) }
    ensures may_end { IsTrue (session_may_end result.0) }
    ensures passed_on { IsPassedOn (seeing S.Source K.Sink D.Disk C.Clock A.Dial I.Inbox T.Texts)
        result.0 office result.1 }
    ensures tellable { IsTellable result.0 }
{
    laws::cut_is_one();
    laws::first_is_one();
    laws::rest_is_not_whole();
    let Office {
        mut wire,
        disks,
        clock,
        dial,
        inbox,
        texts,
    } = office;
    let desk = Desk {
        dial,
        texts,
        clock,
        hosts,
    };
    let resources = ConnectionResources { disks, desk };
    let (status, resources) = session_on(alloc, rt, spec, &mut wire, resources, witness);
    let ConnectionResources { disks, desk } = resources;
    let Desk {
        dial,
        texts,
        clock,
        hosts: _,
    } = desk;
    let office = Office {
        wire,
        disks,
        clock,
        dial,
        inbox,
        texts,
    };
    (status, office)
}

/// Serves a session, with the hosts that the command line names, from which maps are fetched.
pub fn serve_session<
    S: Source,
    K: Sink,
    D: Disk,
    C: Clock,
    A: Dial,
    I: Inbox,
    T: Texts,
    W: Witness<S, K>,
>(
    alloc: Global,
    rt: &impl RandomSource,
    spec: SessionSpec,
    hosts: Vec<HostWord>,
    office: Office<S, K, D, C, A, I, T>,
    witness: &mut W,
) -> (Status, Office<S, K, D, C, A, I, T>)
    requires catalogue { catalog_fault spec.own.items (map name_view spec.stores.items) ≡ None }
    requires named { All IsNamed (map name_view spec.stores.items) }
    requires count { length (map name_view spec.stores.items) ≤ maps_max }
    requires disks { names_of office.disks.items ≡ map name_view spec.stores.items }
    ensures does { SessionDoes (seeing S.Source K.Sink D.Disk C.Clock A.Dial I.Inbox T.Texts)
        (session_job_of spec.own.items spec.peer (map name_view spec.stores.items) (map host_view hosts.items)) result.0
        (witnessed office (W.wires witness.old)) (witnessed result.1 (W.wires witness.new)) }
    ensures may_end { IsTrue (session_may_end result.0) }
    ensures passed_on { IsPassedOn (seeing S.Source K.Sink D.Disk C.Clock A.Dial I.Inbox T.Texts)
        result.0 office result.1 }
    ensures tellable { IsTellable result.0 }
{
    match table_of(alloc, hosts) {
        Ok(hosts) => session_over(alloc, rt, spec, hosts, office, witness),
        Err(NoMemory) => (Status::NoMemory, office),
    }
}
