//! A wire to a server, and what calls and replies go through on it.

use std::snapshot::Snapshot;
use yp_io::Pair;
use yp_rpc::{RecordReader, RecordWriter};

/// A wire to a server, the reader and the writer of its records, the buffer of calls and their replies, and the wire as
/// it was when a reply was waited for the last time.
#[derive(Drop)]
pub struct Connection<S, K> {
    pub wire: Pair<S, K>,
    pub reader: RecordReader,
    pub writer: RecordWriter,
    pub buf: Vec<u8>,
    pub waited: Snapshot<Pair<S, K>>,
}
