//! The texts that maps are built of.

ghost use Rattle.std.specs.Prelude.{◌≡◌, ℕ, ◌≤◌, ◌<◌, ◌⊎◌, ◌↔◌, [], length, List, Option, None, Some, Contains};
ghost use Rattle.std.specs.Prelude.{IfSome, IfOk, OnOk, OnErr, IsErrOf};
ghost use Rattle.yp_io.specs.Counts.{HasRisen};

use crate::stream::Failed;

/// The most bytes of a text.
pub const TEXT_MAX: usize = 33_554_432;

/// Why a text was not read.
#[derive(Clone, Copy, Debug, PartialEq, Eq)]
pub enum TextFault {
    /// The count of faults rose in that call.
    Failed,
    /// Memory ran out.
    NoMemory,
}

impl From<Failed> for TextFault {
    ghost use Rattle.std.specs.Prelude.{◌≡◌};
    ghost use Rattle.yp_io.specs.declared.texts.TextFault.TheVariants.{Failed as Faulted};

    ghost from_gives = { λ _ fault. fault ≡ Faulted };

    fn from(_: Failed) -> Self {
        TextFault::Failed
    }
}

/// Where the texts are, each under its name.
pub trait Texts {
    ghost use Rattle.yp_io.specs.Texts.{text_max};

    /// The bytes of the text with a name, where they are told. They never change.
    ghost text: { Self → List ℕ → Option (List ℕ) };

    /// How often it has failed, up to 2^64 - 1.
    ghost faults: { Self → ℕ };

    /// Puts the whole text with this name into `into`. A name that no text has is a fault, and so is a text over
    /// [`TEXT_MAX`] bytes.
    fn read(&mut self, name: &[u8], into: &mut Vec<u8>) -> Result<(), TextFault>
        requires { into.old.items ≡ [] }
        ensures bytes { OnOk result (IfSome (text self.old name.now) (λ bytes. into.new.items ≡ bytes)) }
        ensures limit { OnOk result (length into.new.items ≤ text_max) }
        ensures err { OnErr result (into.new.items ≡ []) }
        ensures same { (file : List ℕ) → text self.new file ≡ text self.old file }
        ensures never_falls { faults self.old ≤ faults self.new }
        ensures cause { IsErrOf result TextFault.Failed → HasRisen (faults self.old) (faults self.new) };
}
