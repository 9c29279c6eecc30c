//! The maps of hosts, and versions of the first.

ghost use Rattle.std.specs.Prelude.{◌≡◌, ◌<◌, ◌+◌, [], None};
ghost use Rattle.std.proofs.Common.{ap};
ghost use Rattle.yp_io.specs.Counts.{next_count};

use crate::given::{assert_fits, catalog_of};
use std::alloc::Global;
use std::process::Abort;
use std::random::RandomSource;
use std::sync::Arc;
use yp_answer::session::Host;
use yp_answer::{MakeJob, TransferJob};
use yp_board::{Catalog, PlainBoard, Show, View};
use yp_for_server_tests::Map;
use yp_io::{NoMemory, Peer};
use yp_messages::XfrStat;
use yp_version::{Order, Version, VersionBuilder};
use yp_worker::{CatchUp, HandsOver, Known};

/// A version of this order, with these rows.
pub fn version_of<R: RandomSource + Abort>(
    rt: &R,
    alloc: Global,
    order: u32,
    rows: &[(&[u8], &[u8])],
) -> Arc<Version> {
    let mut builder = VersionBuilder::new(alloc, rt, Order(order), b"m1").expect(rt, "a builder");
    for (key, value) in rows {
        let is_pushed = matches!(builder.push(key, value), Ok(true));
        assert!(rt; is_pushed);
    }
    let version = builder.finish().expect(rt, "a version");
    Arc::new(alloc, version).expect(rt, "a shared version")
}

/// A version of this order, in which `alpha` has this value.
pub fn version<R: RandomSource + Abort>(
    rt: &R,
    alloc: Global,
    order: u32,
    value: &[u8],
) -> Arc<Version> {
    version_of(rt, alloc, order, &[(b"alpha", value)])
}

// The maps of the host.
const MAPS: &[Map] = &[(b"d", b"passwd.byname"), (b"d", b"hosts.byname")];

/// The catalogue of the host `m1` with passwd.byname and hosts.byname in the domain `d`.
pub fn catalog(rt: &impl Abort, alloc: Global) -> Catalog {
    catalog_of(rt, alloc, b"m1", MAPS)
}

/// What is shown of these maps where passwd.byname has this version.
pub fn start(rt: &impl Abort, alloc: Global, version: Arc<Version>) -> Vec<Option<Arc<Version>>> {
    vec![in alloc; Some(version), None].expect(rt, "versions")
}

/// Versions with these values of `alpha` that others show, the next last.
pub fn waiting<R: RandomSource + Abort>(
    rt: &R,
    alloc: Global,
    values: &[&[u8]],
) -> Vec<Arc<Version>> {
    let mut waiting = Vec::new(alloc);
    for value in values {
        let next = version(rt, alloc, 8, *value);
        waiting.push(next).expect(rt, "memory for a version");
    }
    waiting.reverse();
    waiting
}
