//! Why a question has no answer.

ghost use Rattle.std.specs.Prelude.{◌≡◌};
ghost use Rattle.yp_client.specs.query.Faults.{match_fault};

use crate::ClientFault;
use yp_io::NoMemory;
use yp_messages::{XfrStat, YpStat};
use yp_version::VersionFault;

/// Why a question has no answer, or that the answer is no. Nothing was printed, but after `NotMember`, `NotDone` and
/// `Output`.
#[derive(Clone, Copy, Debug, PartialEq, Eq)]
pub enum QueryFault {
    /// MATCH: the map has no such key.
    NoKey,
    /// Of a group: who was asked for is no member. That was printed.
    NotMember,
    /// Of a map to be fetched or made: the server doesn't, for this status, which is never `Succ`. That was printed.
    NotDone(XfrStat),
    /// The first call that was refused was refused so: never `Spent`, `NoMemory`, or `Rows` for want of memory.
    Client(ClientFault),
    /// No wire came.
    Dial,
    /// The sink failed. It may have taken a front of the text.
    Output,
    /// Memory ran out.
    NoMemory,
}

impl From<ClientFault> for QueryFault {
    ghost use Rattle.std.specs.Prelude.{◌≡◌};
    ghost use Rattle.yp_client.specs.query.Faults.{query_fault};

    ghost from_gives = { λ fault given. given ≡ query_fault fault };

    fn from(fault: ClientFault) -> QueryFault {
        match fault {
            ClientFault::NoMemory => QueryFault::NoMemory,
            ClientFault::Rows {
                fault: VersionFault::NoMemory,
                ..
            } => QueryFault::NoMemory,
            fault => QueryFault::Client(fault),
        }
    }
}

impl From<NoMemory> for QueryFault {
    ghost use Rattle.std.specs.Prelude.{◌≡◌};
    ghost use Rattle.yp_client.specs.declared.query.fault.QueryFault.TheVariants as faults;

    ghost from_gives = { λ _ given. given ≡ faults.NoMemory };

    fn from(_memory: NoMemory) -> QueryFault {
        QueryFault::NoMemory
    }
}

/// The fault of a MATCH: that there is no such key is an answer of its own.
pub fn of_match(fault: ClientFault) -> QueryFault
    ensures { result ≡ match_fault fault }
{
    match fault {
        ClientFault::Yp(YpStat::Nokey) => QueryFault::NoKey,
        fault => fault.into(),
    }
}
