//! The command `once`: calls that are answered on one map, made of the rows of the words.

ghost use Rattle.std.specs.Prelude.{◌≡◌, ◌≢◌, ◌⊎◌, ℕ, IsTrue, List, [], ◌∷◌, map};
ghost use Rattle.std.specs.Prelude.{None, Some, IfOk, IfErr, OnOk, IfSome};
ghost use Rattle.std.specs.Arc.{arc_value};
ghost use Rattle.yp_version.specs.Drafts.{with_rows, first_refused};
ghost use Rattle.yp_io.specs.Counts.{HasRisen};
ghost use Rattle.yp_board.specs.Catalogues.{name_view};
ghost use Rattle.yp_rpc.specs.Records.{Cut};
ghost use Rattle.yp_answer.specs.Numbers.{record_max};
ghost use Rattle.yp_answer.specs.Maps.{maps_of};
ghost use Rattle.yp_answer.specs.session.Wires.{wire_of, SeesMore};
ghost use Rattle.yp_command.specs.Words.{row_view};
ghost use Rattle.yp_command.specs.office.Rows.{row_status};
ghost use Rattle.yp_command.specs.office.Seeing.{seeing, IsPassedOn};
ghost use Rattle.yp_command.specs.inside.office.Status.{IsTellable};
ghost use Rattle.yp_command_serve.specs.Served.{ServesInput, witnessed, IsWatched, IsStatusOf, serve_may_end};
ghost use Rattle.yp_command_serve.specs.Once.{once_draft, once_name, once_version, rows_fault, word_of};
ghost use Rattle.yp_command_serve.specs.inside.Once.{IsRows};
ghost use Rattle.yp_command_serve.specs.Once.{OnceDoes, once_may_end};

use crate::end::status_of_end;
use crate::host::FixedHost;
use std::alloc::Global;
use std::random::RandomSource;
use std::sync::Arc;
use yp_answer::session::{CALLS_MAX, Session, Witness};
use yp_board::{Catalog, MapName, PlainBoard};
use yp_command::KeyValue;
use yp_command::office::{Office, Status, status_of_row};
use yp_io::{Clock, Dial, Disk, Inbox, NoMemory, Pair, Peer, Sink, Source, Texts};
use yp_rpc::laws;
use yp_version::{Order, Version, VersionBuilder, VersionFault};

/// The caller that is answered: nobody's address, and port 0.
pub const NOBODY: Peer = Peer {
    addr: [0; 4],
    port: 0,
};

/// The own name of `once`, and the master of its map.
const ONCE: &[u8] = b"once";

/// The order of its map.
const ORDER: u32 = 1;

/// The words before the rows.
const WORDS_BEFORE: usize = 2;

/// A row that is refused: its number, from 0, and why.
#[derive(Drop)]
struct Refused {
    row: usize,
    fault: VersionFault,
}

/// Pushes rows in turn, up to the first that is refused.
fn push_rows(builder: &mut VersionBuilder, rows: &[KeyValue]) -> Result<(), Refused>
    ensures pushed { OnOk result (builder.new ≡ with_rows builder.old (map row_view rows.now)) }
    ensures none { OnOk result (first_refused builder.old (map row_view rows.now) ≡ None) }
    ensures refused { IfErr result (λ refused. (refused.fault ≡ VersionFault.NoMemory)
        ⊎ (first_refused builder.old (map row_view rows.now) ≡ Some (refused.row, refused.fault))) }
{
    for (row, pair) in rows.iter().enumerate() {
        if let Err(fault) = builder.push(&pair.key, &pair.value) {
            return Err(Refused { row, fault });
        }
    }
    Ok(())
}

/// The status of a row that is refused, by the number of its word.
fn status_of(refused: &Refused) -> Status
    ensures { result ≡ row_status (word_of refused.now.row) refused.now.fault }
{
    let word = u32::try_from(refused.row.saturating_add(WORDS_BEFORE)).unwrap_or(u32::MAX);
    status_of_row(word, refused.fault)
}

/// The version of the rows, or why there is none.
pub fn version_of(
    alloc: Global,
    rt: &impl RandomSource,
    rows: &[KeyValue],
) -> Result<Version, Status>
    ensures ok { IfOk result (λ version. version ≡ once_version (map row_view rows.now)) }
    ensures sound { OnOk result (rows_fault (map row_view rows.now) ≡ None) }
    ensures cause { IfErr result (λ status.
        (status ≡ Status.NoMemory) ⊎ IsRows (rows_fault (map row_view rows.now)) status) }
{
    let Ok(mut builder) = VersionBuilder::new(alloc, rt, Order(ORDER), ONCE) else {
        return Err(Status::NoMemory);
    };
    if let Err(refused) = push_rows(&mut builder, rows) {
        return Err(status_of(&refused));
    }
    match builder.finish() {
        Ok(version) => Ok(version),
        Err(NoMemory) => Err(Status::NoMemory),
    }
}

/// A board of this own name that shows one version of one map.
pub fn shown_on(
    alloc: Global,
    name: &[u8],
    store: MapName,
    version: Arc<Version>,
) -> Result<PlainBoard, NoMemory>
    ensures { IfOk result (λ board. board ≡ record {
      catalogue = record { own = name.now; maps = name_view store ∷ [] };
      known = (0, arc_value version) ∷ [];
      asked = 0;
    }) }
{
    let Ok(own) = Vec::from_slice(alloc, name) else {
        return Err(NoMemory);
    };
    let Ok(maps) = vec![in alloc; store] else {
        return Err(NoMemory);
    };
    let Ok(catalog) = Catalog::new(alloc, own, maps) else {
        return Err(NoMemory);
    };
    let Ok(start) = vec![in alloc; Some(version)] else {
        return Err(NoMemory);
    };
    PlainBoard::new(alloc, catalog, start)
}

/// A board that shows one version of one map.
pub fn board_of(alloc: Global, store: MapName, version: Version) -> Result<PlainBoard, NoMemory>
    ensures { IfOk result (λ board. board ≡ record {
      catalogue = record { own = once_name; maps = name_view store ∷ [] };
      known = (0, version) ∷ [];
      asked = 0;
    }) }
{
    let version = Arc::new(alloc, version).map_err(|_| NoMemory)?;
    shown_on(alloc, ONCE, store, version)
}

/// Answers the calls of the wire on a board that doesn't change. The witness sees the wire behind each.
fn serve<S: Source, K: Sink, W: Witness<S, K>>(
    alloc: Global,
    board: PlainBoard,
    wire: &mut Pair<S, K>,
    witness: &mut W,
) -> Status
    ensures served { IfSome (S.input wire.old.source) (λ stream. ServesInput (maps_of board) result stream
        (record { left = S.input wire.new.source; before = K.output wire.old.sink; after = K.output wire.new.sink })) }
    ensures watched { SeesMore (W.wires witness.old) (W.wires witness.new)
        (IsWatched board result (wire_of S.Source K.Sink wire.old) (wire_of S.Source K.Sink wire.new)) }
    ensures complete { (stream : List ℕ) (messages : List (List ℕ)) (rest : List ℕ)
        → S.input wire.old.source ≡ Some stream → Cut record_max stream messages rest
        → result ≢ Status.ReadFault → result ≢ Status.WriteFault
        → IsStatusOf stream messages rest result ⊎ (result ≡ Status.NoMemory) }
    ensures flushed { result ≢ Status.WriteFault → IsTrue (K.flushed wire.old.sink) → IsTrue (K.flushed wire.new.sink) }
    ensures read_fault { result ≡ Status.ReadFault → HasRisen (S.faults wire.old.source) (S.faults wire.new.source) }
    ensures write_fault { result ≡ Status.WriteFault → HasRisen (K.faults wire.old.sink) (K.faults wire.new.sink) }
    ensures may_end { IsTrue (serve_may_end result) }
{
    yp_answer::laws::open_is_from_own_host();
    laws::cut_is_one();
    laws::first_is_one();
    laws::rest_is_not_whole();
    let mut host = FixedHost::new(board);
    match Session::new(alloc) {
        Err(NoMemory) => Status::NoMemory,
        Ok(mut session) => {
            let end = session.run(wire, &mut host, NOBODY, CALLS_MAX, witness);
            host.rest();
            status_of_end(end)
        }
    }
}

/// Answers the calls of the wire on one map of these rows. The witness sees the wire behind each that was answered.
pub fn serve_once<
    S: Source,
    K: Sink,
    D: Disk,
    C: Clock,
    A: Dial,
    I: Inbox,
    T: Texts,
    W: Witness<S, K>,
>(
    alloc: Global,
    rt: &impl RandomSource,
    store: MapName,
    rows: &[KeyValue],
    office: &mut Office<S, K, D, C, A, I, T>,
    witness: &mut W,
) -> Status
    ensures does { OnceDoes (seeing S.Source K.Sink D.Disk C.Clock A.Dial I.Inbox T.Texts)
        (name_view store) (map row_view rows.now) result
        (witnessed office.old (W.wires witness.old)) (witnessed office.new (W.wires witness.new)) }
    ensures may_end { IsTrue (once_may_end result) }
    ensures passed_on { IsPassedOn (seeing S.Source K.Sink D.Disk C.Clock A.Dial I.Inbox T.Texts)
        result office.old office.new }
    ensures tellable { IsTellable result }
{
    let version = match version_of(alloc, rt, rows) {
        Ok(version) => version,
        Err(status) => return status,
    };
    match board_of(alloc, store, version) {
        Ok(board) => serve(alloc, board, &mut office.wire, witness),
        Err(NoMemory) => Status::NoMemory,
    }
}
