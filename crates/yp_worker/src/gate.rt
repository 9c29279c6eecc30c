//! What a worker is told by, or held back at.

/// A step of a worker. Connections are numbered from 1, in the order in which they were accepted.
#[derive(Clone, Copy, Debug, PartialEq, Eq)]
pub enum Point {
    /// One who does what takes long has begun: connections can be left to it.
    Begun,
    /// A connection was accepted, and nothing was read from it yet.
    Accepted { connection: u64 },
    /// A piece is about to be written.
    Piece { connection: u64 },
    /// A reply was flushed.
    Replied { connection: u64 },
}

/// Is told of each step of a worker, and may hold it back. It changes nothing that a worker answers.
pub trait Gate {
    /// The worker has come to this point.
    fn at(&self, point: Point);
}

/// A gate that holds nobody back.
#[derive(Clone, Copy, Debug, PartialEq, Eq)]
pub struct OpenGate;

impl Gate for OpenGate {
    fn at(&self, _point: Point) {}
}

impl<'g, G: Gate> Gate for &'g G {
    fn at(&self, point: Point) {
        (**self).at(point);
    }
}
