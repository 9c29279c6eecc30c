//! What came of a slave.

ghost use Rattle.std.specs.Prelude.{◌≡◌};
ghost use Rattle.yp_push.specs.Results.{is_unanswered, is_settled};
ghost use Rattle.yp_push.specs.inside.Results.{awaits_call};

use yp_messages::PushStat;

/// Why a slave couldn't be asked.
#[derive(Clone, Copy, Debug, PartialEq, Eq)]
pub enum Missed {
    /// The call failed.
    Rpc,
    /// The slave has no address.
    Maddr,
}

/// What came of a slave so far.
#[derive(Clone, Copy, Debug, PartialEq, Eq)]
pub enum Outcome {
    /// It wasn't asked yet.
    Unsent,
    /// It was asked, and hasn't answered.
    Unanswered,
    /// It couldn't be asked.
    Missed(Missed),
    /// It answered, at once or by a later call.
    Answered(PushStat),
}

impl Outcome {
    /// Whether nothing more is expected of the slave.
    pub fn is_settled(self) -> bool
        ensures { result ≡ is_settled self }
    {
        match self {
            Outcome::Unsent | Outcome::Unanswered => false,
            Outcome::Missed(_) | Outcome::Answered(_) => true,
        }
    }

    /// Whether a call that tells of the slave's transaction counts: it was asked, and has no answer.
    pub fn awaits_call(self) -> bool
        ensures { result ≡ awaits_call self }
    {
        match self {
            Outcome::Unsent | Outcome::Answered(_) => false,
            Outcome::Unanswered | Outcome::Missed(_) => true,
        }
    }

    /// Whether the slave was asked, and nothing came of it.
    pub(crate) fn is_unanswered(self) -> bool
        ensures { result ≡ is_unanswered self }
    {
        match self {
            Outcome::Unanswered => true,
            Outcome::Unsent | Outcome::Missed(_) | Outcome::Answered(_) => false,
        }
    }
}
