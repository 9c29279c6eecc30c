//! Why a call has no value.

ghost use Rattle.std.specs.Prelude.{◌≡◌};
ghost use Rattle.yp_client.specs.Calls.{spends};

use yp_messages::YpStat;
use yp_rpc::{RecordFault, ReplyHead};
use yp_version::VersionFault;
use yp_xdr::XdrFault;

/// Why a call has no value. After `Yp`, `Denied`, `Rows` and `NoMemory` the client goes on; after the others it is
/// spent.
#[derive(Clone, Copy, Debug, PartialEq, Eq)]
pub enum ClientFault {
    /// The server says so, in place of a value.
    Yp(YpStat),
    /// The call was refused by RPC.
    Denied(ReplyHead),
    /// The reply has an item that can't be read, at this place in the record, in bytes.
    BadReply { at: usize },
    /// The reply is to another call.
    BadXid { want: u32, got: u32 },
    /// Input ended inside the reply that began at this place, in bytes, or before it.
    Torn { at: u64 },
    /// The reply that began at this place, in bytes, is too long.
    TooLong { at: u64 },
    /// The source failed.
    ReadFault,
    /// The sink failed.
    WriteFault,
    /// An earlier call has left the wire in a state that isn't known. Nothing was sent.
    Spent,
    /// The row with this number, counted from 1 with those of repeated keys, is the first of the reply that the builder
    /// refuses: never for want of memory.
    Rows { row: u32, fault: VersionFault },
    /// Memory ran out.
    NoMemory,
}

impl ClientFault {
    ghost use Rattle.std.specs.Prelude.{◌≡◌, ℕ, ◌+◌, ◌<◌, ◌^◌};
    ghost use Rattle.yp_client.specs.inside.Results.{further, IsIn};

    /// The fault of an item that was read from this place of the reply on.
    pub(crate) fn further(self, at: usize) -> ClientFault
        requires { (end : ℕ) × IsIn end self × (at + end < 2 ^ 64) }
        ensures { result ≡ further at self }
    {
        match self {
            ClientFault::BadReply { at: behind } => ClientFault::BadReply { at: at + behind },
            fault => fault,
        }
    }
}

impl From<XdrFault> for ClientFault {
    ghost use Rattle.std.specs.Prelude.{◌≡◌};
    ghost use Rattle.yp_xdr.specs.Faults.{fault_place};
    ghost use Rattle.yp_client.specs.declared.fault.ClientFault.TheVariants.{BadReply};

    ghost from_gives = { λ fault bad. bad ≡ BadReply (fault_place fault) };

    fn from(fault: XdrFault) -> ClientFault {
        ClientFault::BadReply { at: fault.place() }
    }
}

impl From<RecordFault> for ClientFault {
    ghost use Rattle.std.specs.Prelude.{◌≡◌};
    ghost use Rattle.yp_client.specs.inside.Calls.{of_record};

    ghost from_gives = { λ fault given. given ≡ of_record fault };

    fn from(fault: RecordFault) -> ClientFault {
        match fault {
            RecordFault::Torn { at } => ClientFault::Torn { at },
            RecordFault::TooLong { at } => ClientFault::TooLong { at },
            RecordFault::ReadFault => ClientFault::ReadFault,
        }
    }
}

/// Whether a client is spent by an answer.
pub fn is_spent_by<T>(answer: &Result<T, ClientFault>) -> bool
    ensures { result ≡ spends answer.now }
{
    match answer {
        Ok(_) => false,
        Err(ClientFault::Yp(_)) => false,
        Err(ClientFault::Denied(_)) => false,
        Err(ClientFault::Rows { .. }) => false,
        Err(ClientFault::NoMemory) => false,
        Err(_) => true,
    }
}
