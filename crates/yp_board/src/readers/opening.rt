//! A board for threads is opened.

ghost use Rattle.std.specs.Prelude.{◌≡◌, ◌≤◌, [], ◌∷◌, ◌++◌, All, map, length, option_map, IfOk, OnOk};
ghost use Rattle.std.specs.Vec.{vec_len};
ghost use Rattle.std.specs.Arc.{arc_value};
ghost use Rattle.yp_board.specs.Logs.{starts};

use crate::Catalog;
use crate::readers::reader::Reader;
use crate::readers::slots::Slots;
use crate::readers::writer::Writer;
use crate::readers::{History, Naming, Opened, Shown};
use std::alloc::Global;
use std::sync::{Arc, Wait};
use yp_io::NoMemory;
use yp_version::Version;

/// The most workers of a server that serve connections. Each has a reader of its own, and so have the one that does
/// what takes long for them and each that serves datagrams.
pub const WORKERS_MAX: u32 = 8;

/// A board of this catalogue, on which these versions are shown, in the order of their maps: its writer, and its
/// readers, which know them.
#[tactic(auto, using(crate::proofs::readers::Starts::holds_starts))]
pub fn board<J: Naming, R: Wait + Drop>(
    alloc: Global,
    rt: R,
    opened: Opened,
    catalog: Catalog,
    start: Vec<Option<Arc<Version>>>,
    readers: u32,
) -> Result<(Writer<J, R>, Vec<Reader<J>>), NoMemory>
    requires named { opened ≡ J.book }
    requires starts { length start.items ≡ length catalog.maps }
    requires readers { 1 ≤ readers }
    ensures writer { IfOk result (λ board. board.0 ≡ record {
      maps = length catalog.maps;
      log = starts 0 (map (option_map arc_value) start.items);
    }) }
    ensures readers { IfOk result (λ board. vec_len board.1 ≡ readers) }
    ensures known { IfOk result (λ board. All (λ reader. reader ≡ record {
      catalogue = catalog;
      known = starts 0 (map (option_map arc_value) start.items);
      asked = 0;
    }) board.1.items) }
{
    let mut history = opened.named::<J>().ok_or(NoMemory)?;
    begin_all(&mut history, catalog.len(), &start)?;
    let writer = Writer::new(alloc, rt, history, Slots::new(start), readers)?;
    let catalog = Arc::new(alloc, catalog).map_err(|_| NoMemory)?;
    let readers = readers_of(alloc, &writer, &catalog, readers)?;
    Ok((writer, readers))
}

/// So many readers of a board.
fn readers_of<J: Naming, R: Wait + Drop>(
    alloc: Global,
    writer: &Writer<J, R>,
    catalog: &Arc<Catalog>,
    count: u32,
) -> Result<Vec<Reader<J>>, NoMemory>
    ensures count { IfOk result (λ readers. vec_len readers ≡ count) }
    ensures known { IfOk result (λ readers. All (λ reader. reader ≡ record {
      catalogue = arc_value catalog.now;
      known = writer.now.log;
      asked = 0;
    }) readers.items) }
{
    let mut readers = Vec::new(alloc);
    for _ in 0..count {
        readers.push(writer.reader(catalog)?).map_err(|_| NoMemory)?;
    }
    Ok(readers)
}

/// Adds these versions to a log with nothing in it, in the order of their maps, which are as many.
#[tactic(auto, using(crate::proofs::readers::Starts::begun_more, crate::proofs::readers::Starts::begun_all))]
fn begin_all<J: Naming>(
    history: &mut History<J>,
    count: u32,
    start: &[Option<Arc<Version>>],
) -> Result<(), NoMemory>
    requires empty { history.old ≡ [] }
    requires count { count ≡ length start.now }
    ensures { OnOk result (history.new ≡ starts 0 (map (option_map arc_value) start.now)) }
{
    for map in 0..count {
        begin(history, map, &start[map as usize])?;
    }
    Ok(())
}

/// Adds the version of a map that a log begins with, if there is one.
fn begin<J: Naming>(
    history: &mut History<J>,
    map: u32,
    version: &Option<Arc<Version>>,
) -> Result<(), NoMemory>
    ensures { OnOk result (history.new ≡ history.old ++ starts map (option_map arc_value version.now ∷ [])) }
{
    match version {
        Some(version) if !history.push(&Shown::new(map, version)) => Err(NoMemory),
        _ => Ok(()),
    }
}
