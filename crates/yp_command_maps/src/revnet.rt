//! The command `revnet`: the netgroups of a domain are reversed, by users or by hosts, stored behind the version that
//! stands, and told.

ghost use Rattle.std.specs.Prelude.{◌≡◌, ◌≢◌, ◌+◌, ◌≤◌, [], ◌∷◌, ℕ, List, Some, true, false, length, IsTrue};
ghost use Rattle.std.specs.Prelude.{IfOk, IfErr, OnOk};
ghost use Rattle.yp_io.specs.Counts.{HasRisen};
ghost use Rattle.yp_io.specs.Disk.{LeavesOnly, MayLeave};
ghost use Rattle.yp_version.specs.Limits.{master_max};
ghost use Rattle.yp_version.specs.Rows.{Row};
ghost use Rattle.yp_map_file.specs.inside.Slots.{is_ready};
ghost use Rattle.yp_board.specs.Catalogues.{name_view};
ghost use Rattle.yp_texts.specs.After.{was_secure};
ghost use Rattle.yp_command.specs.Words.{netgroup_of};
ghost use Rattle.yp_command.specs.inside.Words.{IsNamed};
ghost use Rattle.yp_command.specs.office.Disks.{names_of, faults_at};
ghost use Rattle.yp_command.specs.office.Seeing.{seeing, IsPassedOn};
ghost use Rattle.yp_command.specs.inside.office.Status.{IsTellable};
ghost use Rattle.yp_command_maps.specs.Build.{may_have_written, LeavesFew};
ghost use Rattle.yp_command_maps.specs.inside.Build.{last_view};
ghost use Rattle.yp_command_maps.specs.Revnet.{field_of, HasNextOrder, IsReverseVersion, IsUnmade, is_stop};
ghost use Rattle.yp_command_maps.specs.Revnet.{StandsForVersion, IsBeforeOrMade, OwnDiskFails};
ghost use Rattle.yp_command_maps.specs.inside.Revnet.{reverse_job, StopsCommit, both_tell, two_tell, Renews};
ghost use Rattle.yp_command_maps.specs.Revnet.{RevnetDoes, revnet_may_end};
ghost use Rattle.yp_command_maps.specs.inside.Revnet.{IsToldEnd};

use crate::build::{Built, tell_built};
use std::alloc::Global;
use std::random::RandomSource;
use yp_board::MapName;
use yp_command::office::{NamedDisk, Office, Status, status_of_file};
use yp_command::{BY_USER, netgroup_of};
use yp_io::{Clock, Dial, Disk, Failed, Inbox, Sink, Source, Texts};
use yp_map_file::Slot;
use yp_netgroup::reverse::{Field, RevFault, reverse};
use yp_texts::{next_order, other_master};
use yp_version::{Order, Version};

/// The part of a triple by which a map has netgroups.
fn field_of(map: &[u8]) -> Field
    ensures { result ≡ field_of map.now }
{
    if map == BY_USER.as_bytes() {
        Field::User
    } else {
        Field::Host
    }
}

/// What a reverse is made by.
#[derive(Clone, Copy)]
struct Reversal<'a> {
    /// The own name.
    name: &'a [u8],
    /// The part of a triple by which netgroups are reversed.
    field: Field,
    /// The moment, in seconds since 1970.
    moment: u32,
}

/// The order of a version behind the last one, whose master has to be the own name.
fn order_behind(
    alloc: Global,
    reversal: &Reversal<'_>,
    last: Option<&Version>,
) -> Result<Order, Status>
    ensures order { IfOk result (HasNextOrder reversal.now.name.now reversal.now.moment (last_view last.entry)) }
    ensures unmade { IfErr result (λ status. (rows : List Row)
        → IsUnmade reversal.now.name.now reversal.now.field reversal.now.moment (last_view last.entry) rows status) }
    ensures stop { IfErr result (λ status. is_stop status ≡ true) }
    ensures tellable { IfErr result IsTellable }
{
    if let Some(master) = other_master(reversal.name, last) {
        return match Vec::from_slice(alloc, master) {
            Ok(master) => Err(Status::Refused { master }),
            Err(_) => Err(Status::NoMemory),
        };
    }
    let last = last.map(|version: &Version| version.order());
    match next_order(last, reversal.moment) {
        Ok(order) => Ok(order),
        Err(_) => Err(Status::OrderSpent),
    }
}

/// Whether the last version is secure.
fn is_secure(last: Option<&Version>) -> bool
    ensures { result ≡ was_secure (last_view last.entry) }
{
    match last {
        None => false,
        Some(last) => last.secure(),
    }
}

/// The reverse of netgroups, behind the last version of its map.
fn make(
    alloc: Global,
    rt: &impl RandomSource,
    reversal: &Reversal<'_>,
    last: Option<&Version>,
    netgroup: &Version,
) -> Result<Version, Status>
    requires { length reversal.now.name.now ≤ master_max }
    ensures made { IfOk result (IsReverseVersion reversal.now.name.now reversal.now.field reversal.now.moment
        (last_view last.entry) netgroup.now.rows) }
    ensures unmade { IfErr result (IsUnmade reversal.now.name.now reversal.now.field reversal.now.moment
        (last_view last.entry) netgroup.now.rows) }
    ensures stop { IfErr result (λ status. is_stop status ≡ true) }
    ensures tellable { IfErr result IsTellable }
{
    let order = order_behind(alloc, reversal, last)?;
    match reverse(alloc, rt, netgroup, reversal.field, order, reversal.name) {
        Ok(version) => Ok(version.marked(is_secure(last))),
        Err(RevFault::Row { number, rule }) => Err(Status::Rows { row: number, rule }),
        Err(RevFault::NoMemory) => Err(Status::NoMemory),
    }
}

/// Stores a version in the file of the map, and answers its generation.
fn commit<D: Disk>(store: MapName, slot: &mut Slot<D>, version: &Version) -> Result<u64, Status>
    requires ready { IsTrue (is_ready slot.old.stage) }
    requires named { IsNamed (name_view store) }
    ensures generation { IfOk result (λ generation. generation ≡ slot.old.generation + 1) }
    ensures stops { IfErr result (StopsCommit (name_view store) slot.old.generation) }
    ensures stored { OnOk result ((image : List ℕ) → MayLeave (D.history slot.new.disk) image
        → StandsForVersion (Some version.now) image) }
    ensures any_moment { LeavesOnly (D.history slot.old.disk) (D.history slot.new.disk)
        (IsBeforeOrMade (D.history slot.old.disk) (Some version.now)) }
    ensures few { LeavesFew (D.history slot.old.disk) (D.history slot.new.disk) }
    ensures early { IfErr result (λ status. may_have_written status ≡ false → slot.new ≡ slot.old) }
    ensures never_falls { D.faults slot.old.disk ≤ D.faults slot.new.disk }
    ensures cause { IfErr result (λ status. (map : MapName) → status ≡ Status.DiskFault map
        → HasRisen (D.faults slot.old.disk) (D.faults slot.new.disk)) }
    ensures tellable { IfErr result IsTellable }
{
    if slot.generation() == u64::MAX {
        return Err(Status::GenerationsSpent { map: store });
    }
    match slot.commit(version.body()) {
        Ok(generation) => Ok(generation),
        Err(Failed) => Err(Status::DiskFault { map: store }),
    }
}

/// The names of the two maps.
#[derive(Drop)]
struct MapNames {
    store: MapName,
    netgroup: MapName,
}

/// Loads both files, makes the version, and stores it.
fn renew<D: Disk>(
    alloc: Global,
    rt: &impl RandomSource,
    reversal: &Reversal<'_>,
    names: MapNames,
    slot: &mut Slot<D>,
    netgroup: &mut Slot<D>,
) -> Result<Built, Status>
    requires name { length reversal.now.name.now ≤ master_max }
    requires named { IsNamed (name_view names.store) }
    requires netgroup { name_view names.netgroup ≡ netgroup_of (name_view names.store) }
    ensures renews { Renews (reverse_job reversal.now (name_view names.store)) reversal.now.moment result
        (both_tell D.history D.faults slot.old.disk netgroup.old.disk)
        (both_tell D.history D.faults slot.new.disk netgroup.new.disk) }
    ensures own_disk { IfErr result (λ status. (map : MapName) → status ≡ Status.DiskFault map
        → OwnDiskFails (name_view names.store) (name_view map) (D.faults slot.old.disk) (D.faults slot.new.disk)
        (D.faults netgroup.old.disk) (D.faults netgroup.new.disk)) }
    ensures stop { IfErr result (λ status. is_stop status ≡ true) }
    ensures tellable { IfErr result IsTellable }
{
    let last = match slot.load(alloc, rt) {
        Ok(last) => last,
        Err(fault) => return Err(status_of_file(names.store, fault)),
    };
    let groups = match netgroup.load(alloc, rt) {
        Ok(Some(groups)) => groups,
        Ok(None) => return Err(Status::NoVersion {
            map: names.netgroup,
        }),
        Err(fault) => return Err(status_of_file(names.netgroup, fault)),
    };
    let version = make(alloc, rt, reversal, last.as_ref(), &groups)?;
    let generation = commit(names.store, slot, &version)?;
    Ok(Built {
        order: version.order(),
        rows: version.len(),
        generation,
    })
}

/// Makes the reverse map over the two disks, which keep the names of their maps.
fn renew_named<D: Disk>(
    alloc: Global,
    rt: &impl RandomSource,
    reversal: &Reversal<'_>,
    names: MapNames,
    disks: &mut Vec<NamedDisk<D>>,
) -> Result<Built, Status>
    requires name { length reversal.now.name.now ≤ master_max }
    requires named { IsNamed (name_view names.store) }
    requires netgroup { name_view names.netgroup ≡ netgroup_of (name_view names.store) }
    requires both { names_of disks.old.items ≡ name_view names.store ∷ netgroup_of (name_view names.store) ∷ [] }
    ensures renews { Renews (reverse_job reversal.now (name_view names.store)) reversal.now.moment result
        (two_tell D.history D.faults disks.old.items) (two_tell D.history D.faults disks.new.items) }
    ensures own_disk { IfErr result (λ status. (map : MapName) → status ≡ Status.DiskFault map
        → OwnDiskFails (name_view names.store) (name_view map)
        (faults_at D.faults 0 disks.old.items) (faults_at D.faults 0 disks.new.items)
        (faults_at D.faults 1 disks.old.items) (faults_at D.faults 1 disks.new.items)) }
    ensures stop { IfErr result (λ status. is_stop status ≡ true) }
    ensures tellable { IfErr result IsTellable }
    ensures names { names_of disks.new.items ≡ names_of disks.old.items }
{
    let Some(second) = disks.pop() else {
        unreachable!()
    };
    let Some(first) = disks.pop() else {
        unreachable!()
    };
    let mut slot = Slot::new(first.disk);
    let mut netgroup = Slot::new(second.disk);
    let built = renew(alloc, rt, reversal, names, &mut slot, &mut netgroup);
    disks.push_reserved(NamedDisk {
        name: first.name,
        disk: slot.into_disk(),
    });
    disks.push_reserved(NamedDisk {
        name: second.name,
        disk: netgroup.into_disk(),
    });
    built
}

/// Tells what was stored, or why nothing is.
fn tell_end<K: Sink>(sink: &mut K, store: &MapName, built: Result<Built, Status>) -> Status
    requires named { IsNamed (name_view store.now) }
    requires stop { IfErr built (λ status. is_stop status ≡ true) }
    requires tellable { IfErr built IsTellable }
    ensures ends { IsToldEnd (name_view store.now) built result (K.output sink.old) (K.output sink.new) }
    ensures may_end { IsTrue (revnet_may_end result) }
    ensures tellable { IsTellable result }
    ensures flushed { result ≢ Status.WriteFault → IsTrue (K.flushed sink.old) → IsTrue (K.flushed sink.new) }
    ensures write_fault { result ≡ Status.WriteFault → HasRisen (K.faults sink.old) (K.faults sink.new) }
{
    match built {
        Ok(built) => tell_built(sink, store, &built),
        Err(status) => status,
    }
}

/// Reverses the netgroups of the map's domain, by users or by hosts, stores them on the first disk, and tells what was
/// stored. `name` is the own name. The netgroups are read from the second disk.
pub fn reverse_map<S: Source, K: Sink, D: Disk, C: Clock, A: Dial, I: Inbox, T: Texts>(
    alloc: Global,
    rt: &impl RandomSource,
    name: Vec<u8>,
    store: MapName,
    office: &mut Office<S, K, D, C, A, I, T>,
) -> Status
    requires name { length name.items ≤ master_max }
    requires named { IsNamed (name_view store) }
    requires both { names_of office.old.disks.items ≡ name_view store ∷ netgroup_of (name_view store) ∷ [] }
    ensures does { RevnetDoes (seeing S.Source K.Sink D.Disk C.Clock A.Dial I.Inbox T.Texts)
        name.items (name_view store) result office.old office.new }
    ensures may_end { IsTrue (revnet_may_end result) }
    ensures passed_on { IsPassedOn (seeing S.Source K.Sink D.Disk C.Clock A.Dial I.Inbox T.Texts)
        result office.old office.new }
    ensures tellable { IsTellable result }
{
    let (Ok(told), Ok(netgroup)) = (store.copy(alloc), netgroup_of(alloc, &store)) else {
        return Status::NoMemory;
    };
    let names = MapNames {
        store: told,
        netgroup,
    };
    let now = office.clock.now();
    let field = field_of(&store.map);
    let reversal = Reversal {
        name: &name,
        field,
        moment: now,
    };
    let built = renew_named(alloc, rt, &reversal, names, &mut office.disks);
    tell_end(&mut office.wire.sink, &store, built)
}
