//! What a server tells of what it does, while it serves and at its end.

ghost use Rattle.std.specs.Prelude.{◌≡◌, ◌≤◌, ◌+◌, ◌++◌, [], All, map, codes, decimal, Ok, OnOk, OnErr};
ghost use Rattle.std.specs.Option.{option_map_or};
ghost use Rattle.std.specs.Io.KnownBytes.{Appends};
ghost use Rattle.arrayvec.specs.ArrayVec.{array_vec_len};
ghost use Rattle.yp_io.specs.Counts.{CountsFaults};
ghost use Rattle.yp_board.specs.Catalogues.{name_view};
ghost use Rattle.yp_command.specs.inside.Words.{IsNamed};
ghost use Rattle.yp_command_serve.specs.serve.Log.{numbered_text, asked_text, stat_text, shown_text, told_text};
ghost use Rattle.yp_command_serve.specs.serve.Log.{event_text, totals_text};
ghost use Rattle.yp_command_serve.specs.inside.serve.Log.{WritesLines, totals_told};

use crate::serve::resources::NotHosted;
use crate::serve::tally::Hosted;
use std::sync::{Mutex, Wait};
use std::thread::sleep;
use std::time::{Clock, Duration};
use yp_board::MapName;
use yp_client::query::stat_name;
use yp_command::office::{LINE_MAX, Line, add, add_map, add_number, add_peer};
use yp_host::workers::{Event, Events, Journal, Totals};
use yp_io::{Failed, Peer, Sink, write_all};
use yp_messages::XfrStat;
use yp_version::Order;

/// The most events of one second that have a line of their own.
const LINES_MAX: usize = 10;

/// How often a second it is looked at whether the server has ended, and the time between two looks, in milliseconds.
const LOOKS: u32 = 10;

const LOOK: u64 = 100;

/// Adds the name of the map with this number, or a dash.
fn add_numbered(line: &mut Line, names: &[MapName], number: u32)
    requires named { All IsNamed (map name_view names.now) }
    requires room { array_vec_len line.old + 129 ≤ LINE_MAX }
    ensures text { line.new.items ≡ line.old.items ++ numbered_text (map name_view names.now) number }
    ensures len { array_vec_len line.new ≤ array_vec_len line.old + 129 }
{
    match names.get(number as usize) {
        Some(name) => add_map(line, name),
        None => add(line, b"-"),
    }
}

/// Adds the name of the map that was asked for, or a dash.
fn add_asked(line: &mut Line, names: &[MapName], asked: Option<u32>)
    requires named { All IsNamed (map name_view names.now) }
    requires room { array_vec_len line.old + 129 ≤ LINE_MAX }
    ensures text { line.new.items ≡ line.old.items ++ asked_text (map name_view names.now) asked }
    ensures len { array_vec_len line.new ≤ array_vec_len line.old + 129 }
{
    match asked {
        Some(number) => add_numbered(line, names, number),
        None => add(line, b"-"),
    }
}

/// Adds the number and the name of a status.
fn add_stat(line: &mut Line, stat: XfrStat)
    requires { array_vec_len line.old + 28 ≤ LINE_MAX }
    ensures text { line.new.items ≡ line.old.items ++ stat_text stat }
    ensures len { array_vec_len line.new ≤ array_vec_len line.old + 28 }
{
    add(line, itoa::Buffer::new().format(stat.number()).as_bytes());
    add(line, b" ");
    add(line, stat_name(stat));
}

/// Adds a status, and whom it was told.
fn add_told(line: &mut Line, stat: XfrStat, peer: Peer)
    requires { array_vec_len line.old + 138 ≤ LINE_MAX }
    ensures text { line.new.items ≡ line.old.items ++ told_text stat peer }
    ensures len { array_vec_len line.new ≤ array_vec_len line.old + 138 }
{
    add(line, b" ");
    add_stat(line, stat);
    add(line, b" for ");
    add_peer(line, peer);
}

/// Adds a map, the order of its version, and for whom that was made or fetched.
fn add_shown(line: &mut Line, names: &[MapName], number: u32, order: Order, peer: Peer)
    requires named { All IsNamed (map name_view names.now) }
    requires room { array_vec_len line.old + 265 ≤ LINE_MAX }
    ensures text { line.new.items ≡ line.old.items ++ shown_text (map name_view names.now) number order peer }
    ensures len { array_vec_len line.new ≤ array_vec_len line.old + 265 }
{
    add_numbered(line, names, number);
    add(line, b" order ");
    add_number(line, u64::from(order.number()));
    add(line, b" for ");
    add_peer(line, peer);
}

/// Adds what happened.
fn add_event(line: &mut Line, names: &[MapName], event: Event)
    requires named { All IsNamed (map name_view names.now) }
    requires room { array_vec_len line.old + 290 ≤ LINE_MAX }
    ensures text { line.new.items ≡ line.old.items ++ event_text (map name_view names.now) event }
    ensures len { array_vec_len line.new ≤ array_vec_len line.old + 290 }
{
    match event {
        Event::Made { map, order, peer } => {
            add(line, b"made ");
            add_shown(line, names, map, order, peer);
        }
        Event::NotMade { map, stat, peer } => {
            add(line, b"not made ");
            add_numbered(line, names, map);
            add_told(line, stat, peer);
        }
        Event::Fetched { map, order, peer } => {
            add(line, b"fetched ");
            add_shown(line, names, map, order, peer);
        }
        Event::NotFetched { map, stat, peer } => {
            add(line, b"not fetched ");
            add_numbered(line, names, map);
            add_told(line, stat, peer);
        }
        Event::RefusedMake { map, stat, peer } => {
            add(line, b"refused MAKE ");
            add_asked(line, names, map);
            add_told(line, stat, peer);
        }
        Event::RefusedXfr { map, stat, peer } => {
            add(line, b"refused XFR ");
            add_asked(line, names, map);
            add_told(line, stat, peer);
        }
        Event::Late { peer } => {
            add(line, b"late ");
            add_peer(line, peer);
        }
    }
}

/// The line of what happened.
fn event_line(names: &[MapName], event: Event) -> Line
    requires { All IsNamed (map name_view names.now) }
    ensures { result.items ≡ event_text (map name_view names.now) event ++ codes "\n" }
{
    let mut line = Line::new();
    add_event(&mut line, names, event);
    add(&mut line, b"\n");
    line
}

/// The line of how much more happened.
fn more_line(count: u64) -> Line
    ensures { result.items ≡ codes "and " ++ decimal count ++ codes " more" ++ codes "\n" }
{
    let mut line = Line::new();
    add(&mut line, b"and ");
    add_number(&mut line, count);
    add(&mut line, b" more\n");
    line
}

/// The last line, which tells what all workers counted.
fn totals_line(totals: &Totals) -> Line
    ensures { result.items ≡ totals_text totals.now }
{
    let mut line = Line::new();
    add(&mut line, b"made ");
    add_number(&mut line, totals.made);
    add(&mut line, b", not made by file ");
    add_number(&mut line, totals.files);
    add(&mut line, b", transfers ");
    add_number(&mut line, totals.transfers);
    add(&mut line, b", reached ");
    add_number(&mut line, totals.outcomes.reached);
    add(&mut line, b", failed by address ");
    add_number(&mut line, totals.outcomes.no_address);
    add(&mut line, b", memory ");
    add_number(&mut line, totals.outcomes.no_memory);
    add(&mut line, b", file ");
    add_number(&mut line, totals.outcomes.file);
    add(&mut line, b", source ");
    add_number(&mut line, totals.outcomes.source);
    add(&mut line, b"\n");
    line
}

/// Writes how much more happened, if anything did.
fn write_more<N: Sink>(notes: &mut N, count: u64, names: &[MapName]) -> Result<(), Failed>
    ensures written { OnOk result (WritesLines (map name_view names.now) (N.output notes.old) (N.output notes.new)) }
    ensures cause { CountsFaults (N.faults notes.old) (N.faults notes.new) result }
{
    if count == 0 {
        return Ok(());
    }
    write_all(notes, &more_line(count))
}

/// Writes a line for each of the first events, and how many more there were.
fn write_events<N: Sink>(notes: &mut N, names: &[MapName], events: &Events) -> Result<(), Failed>
    requires { All IsNamed (map name_view names.now) }
    ensures written { OnOk result (WritesLines (map name_view names.now) (N.output notes.old) (N.output notes.new)) }
    ensures cause { CountsFaults (N.faults notes.old) (N.faults notes.new) result }
{
    let (told, rest) = events.events.split_at(events.events.len().min(LINES_MAX));
    for event in told {
        write_all(notes, &event_line(names, *event))?;
    }
    write_more(notes, events.more.saturating_add(rest.len() as u64), names)
}

/// What happened since this was asked last, and whether nothing happens any more.
fn taken<R: Wait>(rt: &R, journal: &Mutex<Journal>) -> (Events, bool) {
    let mut kept = journal.lock(rt);
    let events = kept.take();
    (events, kept.has_ended())
}

/// Lets a second pass, or less where nothing happens any more.
fn rest<R: Wait + Clock>(rt: &R, journal: &Mutex<Journal>) {
    for _ in 0..LOOKS {
        if journal.lock(rt).has_ended() {
            return;
        }
        sleep(rt, Duration::from_millis(LOOK));
    }
}

/// Tells what happens, until nothing does any more, at most ten lines a second and then their number. Once the notes
/// have failed nothing is told any more.
pub(crate) fn keep_log<N: Sink, R: Wait + Clock>(
    rt: &R,
    names: &[MapName],
    journal: &Mutex<Journal>,
    mut notes: N,
) -> (N, Result<(), Failed>)
    requires { All IsNamed (map name_view names.now) }
    ensures written { OnOk result.1 (WritesLines (map name_view names.now) (N.output notes) (N.output result.0)) }
    ensures cause { CountsFaults (N.faults notes) (N.faults result.0) result.1 }
{
    for _ in rt.forever() {
        let (events, has_ended) = taken(rt, journal);
        if let Err(Failed) = write_events(&mut notes, names, &events) {
            return (notes, Err(Failed));
        }
        if has_ended {
            return (notes, Ok(()));
        }
        rest(rt, journal);
    }
    unreachable!()
}

/// Tells what all workers counted, where maps were served and the notes haven't failed.
pub(crate) fn end_log<N: Sink>(
    notes: &mut N,
    told: Result<(), Failed>,
    hosted: &Result<Hosted, NotHosted>,
) -> Result<(), Failed>
    ensures written { OnOk result (Appends (N.output notes.old) (N.output notes.new)
        (option_map_or totals_text (totals_told hosted.now) [])) }
    ensures told { OnOk result (told ≡ Ok tt) }
    ensures cause { told ≡ Ok tt → CountsFaults (N.faults notes.old) (N.faults notes.new) result }
    ensures stays { OnErr told (notes.new ≡ notes.old) }
{
    told?;
    match hosted {
        Ok(hosted) => write_all(notes, &totals_line(&hosted.totals)),
        Err(_) => Ok(()),
    }
}
