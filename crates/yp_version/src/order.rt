//! The order of a version.

ghost use Rattle.std.specs.Prelude.{◌≡◌, ◌<◌, ◌^◌};

use std::marker::Model;

/// The order of a version of a map (`ypresp_order` of yp.x): of two versions that with the greater one is the
/// later. A contract sees it as the number.
#[derive(Clone, Copy, Debug, PartialEq, Eq, PartialOrd, Ord)]
pub struct Order(pub u32);

impl Model for Order {
    ghost use Rattle.std.specs.Prelude.{ℕ};

    ghost Value = { ℕ };

    ghost view = { λ order. order.0 };

    ghost inverse = { λ number. record { 0 = number } };
}

impl Order {
    /// Its number.
    pub fn number(self) -> u32
        ensures number { result ≡ self }
        ensures range { result < 2 ^ 32 }
    {
        self.0
    }
}
