//! What sees the wire behind each record of a session.

ghost use Rattle.std.specs.Prelude.{◌≡◌, List, [], ◌∷◌, ◌++◌, map};
ghost use Rattle.yp_answer.specs.session.Wires.{Wire, wire_of};

use yp_io::{Pair, Sink, Source, Trail};

/// Sees what a wire tells behind each record that was answered, before the next is read.
pub trait Witness<S: Source, K: Sink> {
    /// The wires that it has seen, in their order.
    ghost wires: { Self → List Wire };

    /// A record was answered, and this is the wire then.
    fn answered(&mut self, wire: &Pair<S, K>)
        ensures { wires self.new ≡ wires self.old ++ wire_of S.Source K.Sink wire.now ∷ [] };
}

/// It remembers each wire, for contracts alone.
impl<S: Source, K: Sink> Witness<S, K> for Trail<Pair<S, K>> {
    ghost wires = { λ trail. map (wire_of S.Source K.Sink) trail };

    fn answered(&mut self, wire: &Pair<S, K>) {
        self.push(wire);
    }
}
