//! The rows of tables: what a run finds outside, and what is wanted of it.

use yp_io::{OWN_HOST, Peer};

/// The number of no call.
pub const NEVER: u64 = u64::MAX;

/// Bytes as texts of hexadecimal words, as `8000004c 00000001`.
pub type Words = &'static [&'static str];

/// A datagram, and who sent it or whom it is for. As what a turn brings, one of no bytes is a quiet turn.
#[derive(Clone, Copy)]
pub struct Datagram {
    pub peer: Peer,
    pub bytes: Words,
}

/// The order and the rows of the version that a file stands for, and whether it is secure.
pub type Stands = Option<(u32, usize, bool)>;

/// The words of a run, what it finds outside, the one call of each object that fails, from 0, and what comes of it.
#[derive(Clone, Copy)]
pub struct Row {
    pub name: &'static str,
    pub words: &'static [&'static str],
    /// The input is these bytes, and behind them this text.
    pub input: Words,
    pub text: &'static str,
    /// The most bytes of a read of the input, and the read that fails.
    pub read: usize,
    pub reads: u64,
    /// The most bytes of a write to the output, and the write or flush that fails.
    pub write: usize,
    pub writes: u64,
    /// The write of the note that fails.
    pub notes: u64,
    /// The file of the map, the call of its disk that fails, and the one from which on all fail.
    pub file: Words,
    pub disk: u64,
    pub stop: u64,
    /// The file of `netgroup` or `ypservers`, and the call of its disk that fails.
    pub other: Words,
    pub other_disk: u64,
    pub moment: u32,
    /// The words of a server. Where there are none, the first wire gives the bytes of `wire`, and else what the program
    /// sends by these words for the calls in `wire`.
    pub server: &'static [&'static str],
    /// What the first wire gives, and what the second does; the most bytes of a read or a write of each wire, and of
    /// each connection that calls; and the read, and the write or flush, of the first wire that fail.
    pub wire: Words,
    pub piece: usize,
    pub wire_reads: u64,
    pub wire_writes: u64,
    pub second_wire: Words,
    /// What comes back of each question of the dial, in turn; where there are no words, or no more, nothing does. And
    /// the call of the dial that fails: a dial, a letter or a question.
    pub answers: &'static [Words],
    pub dials: u64,
    /// What the turns bring, and the call of the inbox that fails: a turn or a letter; and the letter that fails of the
    /// inbox from which is replied late.
    pub brings: &'static [Datagram],
    pub inbox: u64,
    pub outbox: u64,
    /// What each connection sends that calls, in turn, how many of them are to be accepted, and the call of the
    /// listener that fails: a watch of the door or an accept; and the read, and the write or flush, of the first
    /// connection that fail.
    pub calls: &'static [Words],
    pub most: u32,
    pub accepts: u64,
    pub call_reads: u64,
    pub call_writes: u64,
    /// The texts that maps are made of, each with its name, and the read of a text that fails.
    pub sources: &'static [(&'static str, &'static str)],
    pub texts: u64,
    /// The status.
    pub code: u8,
    /// The output is so many bytes at most of these bytes and this text behind them.
    pub replies: Words,
    pub output: &'static str,
    pub cut: usize,
    pub note: &'static str,
    /// The letters of the inbox, and behind them those that were late; and how many turns it took, which isn't looked at
    /// where it is [`NEVER`].
    pub sends: &'static [Datagram],
    pub turns: u64,
    /// The questions of the dial, and its letters behind these, how many wires came, and how many bytes the first one
    /// took, which isn't looked at where it is 0.
    pub asks: &'static [Datagram],
    pub posts: &'static [Datagram],
    pub wires: usize,
    pub asked: usize,
    /// What each connection has taken that went back, in the order in which they came.
    pub takes: &'static [Words],
    /// What the first file stands for then; and its bytes, where it may not be torn.
    pub stands: Stands,
    pub left: Words,
    pub torn: bool,
}

/// Nothing is there and nothing fails; nothing comes of it.
pub const FAIR: Row = Row {
    name: "",
    words: &[],
    input: &[],
    text: "",
    read: 65_536,
    reads: NEVER,
    write: 4_096,
    writes: NEVER,
    notes: NEVER,
    file: &[],
    disk: NEVER,
    stop: NEVER,
    other: &[],
    other_disk: NEVER,
    moment: 500,
    server: &[],
    wire: &[],
    piece: 4_096,
    wire_reads: NEVER,
    wire_writes: NEVER,
    second_wire: &[],
    answers: &[],
    dials: NEVER,
    brings: &[],
    inbox: NEVER,
    outbox: NEVER,
    calls: &[],
    most: 0,
    accepts: NEVER,
    call_reads: NEVER,
    call_writes: NEVER,
    sources: &[],
    texts: NEVER,
    code: 0,
    replies: &[],
    output: "",
    cut: usize::MAX,
    note: "",
    sends: &[],
    turns: 0,
    asks: &[],
    posts: &[],
    wires: 0,
    asked: 0,
    takes: &[],
    stands: None,
    left: &[],
    torn: false,
};

/// A quiet turn.
pub const QUIET: Datagram = Datagram {
    peer: Peer {
        addr: OWN_HOST,
        port: 0,
    },
    bytes: &[],
};

/// What a file may stand for behind a crash, and the row that is run over that file then.
#[derive(Clone, Copy)]
pub struct After {
    pub stands: Stands,
    pub again: Row,
}

/// A row in which each call of the disk from `first` to `last` fails in turn, and what a crash may leave then.
#[derive(Clone, Copy)]
pub struct DiskCalls {
    pub row: Row,
    pub first: u64,
    pub last: u64,
    pub after: &'static [After],
}
