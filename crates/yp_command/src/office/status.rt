//! How a run ended, and the note that tells it.

ghost use Rattle.std.specs.Prelude.{◌≡◌, ◌+◌, ◌≤◌, ◌++◌, length, decimal, codes};
ghost use Rattle.std.specs.Fmt.{signed_decimal};
ghost use Rattle.arrayvec.specs.ArrayVec.{array_vec_len};
ghost use Rattle.yp_messages.specs.Statuses.{stat_number};
ghost use Rattle.yp_messages.specs.Transfers.{xfr_number};
ghost use Rattle.yp_board.specs.Catalogues.{name_view};
ghost use Rattle.yp_command.specs.office.Lines.{map_text};
ghost use Rattle.yp_command.specs.office.Status.{note, note_line, orders_text};
ghost use Rattle.yp_command.specs.inside.office.Status.{code_of, IsTellable};
ghost use Rattle.yp_command.specs.inside.Words.{IsNamed};
ghost use Rattle.yp_transfer.specs.Faults.{stat_of};

use crate::office::lines::{LINE_MAX, Line, add, add_map, add_number};
use yp_board::MapName;
use yp_messages::YpStat;
use yp_transfer::XfrFault;

/// How a run ended.
#[derive(Debug, PartialEq, Eq, Drop)]
pub enum Status {
    /// All was done.
    Done,
    /// The map has no such key.
    No,
    /// The words are no sentence, and this is the first that fits none, counted from 0.
    Usage { word: usize },
    /// The input failed.
    ReadFault,
    /// The output failed.
    WriteFault,
    /// Input ended inside the record that began at this place, in bytes.
    Torn { at: u64 },
    /// The record that began at this place, in bytes, is too long, or the text is over this limit.
    TooLong { at: u64 },
    /// Memory ran out.
    NoMemory,
    /// The stored file of this map breaks this rule of its format, first at this place, in bytes.
    Damaged { map: MapName, at: u64, rule: u8 },
    /// No version of this map is stored.
    NoVersion { map: MapName },
    /// The disk of this map failed.
    DiskFault { map: MapName },
    /// The server answered this status.
    Yp { stat: YpStat },
    /// The call was refused by RPC.
    Denied,
    /// The reply has an item that can't be read, at this place in its record, in bytes.
    BadReply { at: u64 },
    /// The reply is to another call than the one with this number.
    BadXid { want: u32, got: u32 },
    /// No connection came.
    DialFault,
    /// The map wasn't transferred, for this fault, which isn't want of memory.
    Xfr { fault: XfrFault },
    /// This row is the first past a limit, by this rule: 1 its key is too long, 2 its value is too long, 3 there are
    /// too many rows, 4 they have too many bytes. Or it is the first stored row that fits no line, 1 by its key or 2 by
    /// its value. The row is the number of its word, counted from 0, of its line, from 1, or of a row that a server
    /// sent or a file has, from 1.
    Rows { row: u32, rule: u8 },
    /// The stored version has the greatest order that there is.
    OrderSpent,
    /// This other host is the master of the stored version.
    Refused { master: Vec<u8> },
    /// The stored file of this map has the greatest generation that there is.
    GenerationsSpent { map: MapName },
    /// The listener failed.
    ListenFault,
    /// The inbox failed.
    InboxFault,
    /// As many calls were read as a session may have.
    Enough,
    /// No answer came in so many turns.
    Unanswered { turns: u64 },
}

impl Status {
    /// The code with which the program ends.
    pub fn code(&self) -> u8
        ensures { result ≡ code_of self.now }
    {
        match self {
            Status::Done => 0,
            Status::No => 1,
            Status::Usage { .. } => 2,
            Status::ReadFault => 3,
            Status::WriteFault => 4,
            Status::Torn { .. } => 5,
            Status::TooLong { .. } => 6,
            Status::NoMemory => 7,
            Status::Damaged { .. } => 8,
            Status::NoVersion { .. } => 9,
            Status::DiskFault { .. } => 10,
            Status::Yp { .. } => 11,
            Status::Denied => 12,
            Status::BadReply { .. } => 13,
            Status::BadXid { .. } => 14,
            Status::DialFault => 15,
            Status::Xfr { .. } => 16,
            Status::Rows { .. } => 17,
            Status::OrderSpent => 18,
            Status::Refused { .. } => 19,
            Status::GenerationsSpent { .. } => 20,
            Status::ListenFault => 21,
            Status::InboxFault => 22,
            Status::Enough => 23,
            Status::Unanswered { .. } => 24,
        }
    }

    /// The line that tells it, or an empty text where all was done, or the answer is no.
    pub fn note(&self) -> Line
        requires { IsTellable self.now }
        ensures { result.items ≡ note self.now }
    {
        match self {
            Status::Done => Line::new(),
            Status::No => Line::new(),
            Status::Usage { word } => numbered(b"usage at word ", *word as u64),
            Status::ReadFault => line(b"read fault", b""),
            Status::WriteFault => line(b"write fault", b""),
            Status::Torn { at } => numbered(b"torn record at ", *at),
            Status::TooLong { at } => numbered(b"too long at ", *at),
            Status::NoMemory => line(b"no memory", b""),
            Status::Damaged { map, at, rule } => damaged(map, *at, *rule),
            Status::NoVersion { map } => named(b"no version of ", map),
            Status::DiskFault { map } => named(b"disk fault in ", map),
            Status::Yp { stat } => answered(*stat),
            Status::Denied => line(b"refused by rpc", b""),
            Status::BadReply { at } => numbered(b"bad reply at ", *at),
            Status::BadXid { want, got } => mistaken(*want, *got),
            Status::DialFault => line(b"cannot dial", b""),
            Status::Xfr { fault } => untransferred(*fault),
            Status::Rows { row, rule } => ruled(*row, *rule),
            Status::OrderSpent => line(b"order spent", b""),
            Status::Refused { master } => line(b"mastered by ", master),
            Status::GenerationsSpent { map } => named(b"generations spent in ", map),
            Status::ListenFault => line(b"listen fault", b""),
            Status::InboxFault => line(b"inbox fault", b""),
            Status::Enough => line(b"enough calls", b""),
            Status::Unanswered { turns } => unanswered(*turns),
        }
    }
}

/// A line of the program.
fn line(text: &[u8], more: &[u8]) -> Line
    requires text { length text.now ≤ 21 }
    requires more { length more.now ≤ 64 }
    ensures { result.items ≡ note_line (text.now ++ more.now) }
{
    let mut note = Line::new();
    add(&mut note, b"yp: ");
    add(&mut note, text);
    add(&mut note, more);
    add(&mut note, b"\n");
    note
}

/// A line with a number at its end.
fn numbered(text: &[u8], number: u64) -> Line
    requires { length text.now ≤ 21 }
    ensures { result.items ≡ note_line (text.now ++ decimal number) }
{
    line(text, itoa::Buffer::new().format(number).as_bytes())
}

/// The line of the status that a server answered.
fn answered(stat: YpStat) -> Line
    ensures { result.items ≡ note_line (codes "server says " ++ signed_decimal (stat_number stat)) }
{
    line(
        b"server says ",
        itoa::Buffer::new().format(stat.number()).as_bytes(),
    )
}

/// The line of a reply to another call.
fn mistaken(want: u32, got: u32) -> Line
    ensures { result.items ≡ note_line (codes "wrong xid " ++ decimal got ++ codes " wanted " ++ decimal want) }
{
    let mut note = Line::new();
    add(&mut note, b"yp: wrong xid ");
    add_number(&mut note, u64::from(got));
    add(&mut note, b" wanted ");
    add_number(&mut note, u64::from(want));
    add(&mut note, b"\n");
    note
}

/// A line with the name of a map at its end.
fn named(text: &[u8], map: &MapName) -> Line
    requires text { length text.now ≤ 21 }
    requires short { IsNamed (name_view map.now) }
    ensures { result.items ≡ note_line (text.now ++ map_text (name_view map.now)) }
{
    let mut note = Line::new();
    add(&mut note, b"yp: ");
    add(&mut note, text);
    add_map(&mut note, map);
    add(&mut note, b"\n");
    note
}

/// The line of a map that wasn't transferred.
fn untransferred(fault: XfrFault) -> Line
    ensures { result.items
        ≡ note_line (codes "transfer " ++ signed_decimal (xfr_number (stat_of fault)) ++ orders_text fault) }
{
    let mut note = Line::new();
    add(&mut note, b"yp: transfer ");
    add(
        &mut note,
        itoa::Buffer::new().format(fault.stat().number()).as_bytes(),
    );
    add_orders(&mut note, fault);
    add(&mut note, b"\n");
    note
}

/// Adds the two orders that were compared.
fn add_orders(line: &mut Line, fault: XfrFault)
    requires { array_vec_len line.old + 42 ≤ LINE_MAX }
    ensures text { line.new.items ≡ line.old.items ++ orders_text fault }
    ensures len { array_vec_len line.new ≤ array_vec_len line.old + 42 }
{
    let (first, second) = match fault {
        XfrFault::Age { shown, offered } => (shown, offered),
        XfrFault::Skew { first, second } => (first, second),
        _ => return,
    };
    add(line, b" ");
    add_number(line, u64::from(first));
    add(line, b" ");
    add_number(line, u64::from(second));
}

/// The line of a row, and of the rule that it breaks.
fn ruled(row: u32, rule: u8) -> Line
    ensures { result.items ≡ note_line (codes "row " ++ decimal row ++ codes " rule " ++ decimal rule) }
{
    let mut note = Line::new();
    add(&mut note, b"yp: row ");
    add_number(&mut note, u64::from(row));
    add(&mut note, b" rule ");
    add_number(&mut note, u64::from(rule));
    add(&mut note, b"\n");
    note
}

/// The line of turns that brought no answer.
fn unanswered(turns: u64) -> Line
    ensures { result.items ≡ note_line (codes "unanswered after " ++ decimal turns ++ codes " turns") }
{
    let mut note = Line::new();
    add(&mut note, b"yp: unanswered after ");
    add_number(&mut note, turns);
    add(&mut note, b" turns");
    add(&mut note, b"\n");
    note
}

/// The line of a damaged file.
fn damaged(map: &MapName, at: u64, rule: u8) -> Line
    requires { IsNamed (name_view map.now) }
    ensures { result.items ≡ note_line (codes "damaged " ++ map_text (name_view map.now)
        ++ codes " at " ++ decimal at ++ codes " rule " ++ decimal rule) }
{
    let mut note = Line::new();
    add(&mut note, b"yp: damaged ");
    add_map(&mut note, map);
    add(&mut note, b" at ");
    add_number(&mut note, at);
    add(&mut note, b" rule ");
    add_number(&mut note, u64::from(rule));
    add(&mut note, b"\n");
    note
}
