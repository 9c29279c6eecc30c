//! What came in turn, for contracts alone.

ghost use Rattle.std.specs.Prelude.{◌≡◌, [], ◌∷◌, ◌++◌};

use std::marker::Model;
use std::snapshot::Snapshot;

/// What came, the last first.
#[derive(Drop)]
enum Past<T> {
    Empty,
    Grown {
        before: Snapshot<Past<T>>,
        last: Snapshot<T>,
    },
}

/// Values in the order in which they came, each as it was then. It takes no memory: it is there for contracts alone.
#[derive(Drop)]
pub struct Trail<T> {
    past: Past<T>,
}

impl<T> Model for Trail<T> {
    ghost use Rattle.std.specs.Prelude.{List};
    ghost use Rattle.yp_io.specs.inside.Trails.{items_of};

    ghost Value = { List T };

    ghost view = { λ t. items_of t.past };
}

impl<T> Trail<T> {
    /// None came yet.
    pub fn new() -> Trail<T>
        ensures { result ≡ [] }
    {
        Trail { past: Past::Empty }
    }

    /// One more came.
    pub fn push(&mut self, item: &T)
        ensures { self.new ≡ self.old ++ item.now ∷ [] }
    {
        let before = Snapshot::of(&self.past);
        let last = Snapshot::of(item);
        self.past = Past::Grown { before, last };
    }
}
