//! A sink behind a gate.

ghost use Rattle.std.specs.Prelude.{◌≡◌, ◌<◌, ◌≤◌, false, IsTrue, length, IfOk, IfSome};
ghost use Rattle.std.specs.Io.KnownBytes.{Keeps};
ghost use Rattle.yp_io.specs.Counts.{CountsFaults};
ghost use Rattle.yp_io.specs.Ready.{TriesToWrite};

use crate::gate::{Gate, Point};
use std::marker::Model;
use yp_io::{Failed, TrySink};

/// A sink that tells a gate of each write before it, and of each flush behind it. It is seen as the sink.
#[derive(Drop)]
pub struct Gated<K, G> {
    sink: K,
    gate: G,
    connection: u64,
}

impl<K, G> Model for Gated<K, G> {
    ghost Value = { K };

    ghost view = { λ g. g.sink };
}

impl<K, G> Gated<K, G> {
    /// The sink of this connection, behind the gate.
    pub fn new(sink: K, gate: G, connection: u64) -> Gated<K, G>
        ensures { result ≡ sink }
    {
        Gated {
            sink,
            gate,
            connection,
        }
    }

    /// The sink, without the gate.
    pub fn into_sink(self) -> K
    where
        G: Drop,
        ensures { result ≡ self }
    {
        let Gated {
            sink,
            gate: _,
            connection: _,
        } = self;
        sink
    }
}

impl<K: TrySink, G: Gate> TrySink for Gated<K, G> {
    ghost output = { K.output };

    ghost flushed = { K.flushed };

    ghost faults = { K.faults };

    fn try_write(&mut self, piece: &[u8]) -> Result<Option<usize>, Failed> {
        self.gate.at(Point::Piece {
            connection: self.connection,
        });
        self.sink.try_write(piece)
    }

    fn try_flush(&mut self) -> Result<bool, Failed> {
        let is_flushed = self.sink.try_flush()?;
        if is_flushed {
            self.gate.at(Point::Replied {
                connection: self.connection,
            });
        }
        Ok(is_flushed)
    }
}
