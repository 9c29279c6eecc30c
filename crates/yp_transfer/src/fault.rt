//! Why a map isn't transferred.

ghost use Rattle.std.specs.Prelude.{◌≡◌};
ghost use Rattle.yp_transfer.specs.Faults.{stat_of};

use yp_client::ClientFault;
use yp_messages::{XfrStat, YpStat};
use yp_version::VersionFault;

/// Why a map isn't transferred, the first cause that is met.
#[derive(Clone, Copy, Debug, PartialEq, Eq)]
pub enum XfrFault {
    /// The source has no address.
    Maddr,
    /// No wire to the source came, the wire failed, or its input ended before a reply was whole.
    Rpc,
    /// The source doesn't serve the domain.
    Nodom,
    /// The source has no such map.
    Nomap,
    /// The source answered with another status, or refused a call by RPC, which is `None`.
    Yperr { stat: Option<YpStat> },
    /// A reply can't be read, at this place in it, in bytes; or it is to another call, at 0; or it is too long, and
    /// began at this place in the stream.
    Xfrerr { at: u64 },
    /// The order isn't over the one that is shown.
    Age { shown: u32, offered: u32 },
    /// The order changed while the map was read.
    Skew { first: u32, second: u32 },
    /// The rows pass a limit of versions, or the name of the master is empty.
    Dbm,
    /// A name is empty.
    Badargs,
    /// The disk failed, the file is damaged, or its generations are spent.
    File,
    /// The version that is shown has the own name as its master.
    Refused,
    /// Memory ran out.
    NoMemory,
}

impl XfrFault {
    /// The status with which it is told.
    pub fn stat(&self) -> XfrStat
        ensures { result ≡ stat_of self.now }
    {
        match self {
            XfrFault::Maddr => XfrStat::Maddr,
            XfrFault::Rpc => XfrStat::Rpc,
            XfrFault::Nodom => XfrStat::Nodom,
            XfrFault::Nomap => XfrStat::Nomap,
            XfrFault::Yperr { .. } => XfrStat::Yperr,
            XfrFault::Xfrerr { .. } => XfrStat::Xfrerr,
            XfrFault::Age { .. } => XfrStat::Age,
            XfrFault::Skew { .. } => XfrStat::Skew,
            XfrFault::Dbm => XfrStat::Dbm,
            XfrFault::Badargs => XfrStat::Badargs,
            XfrFault::File => XfrStat::File,
            XfrFault::Refused => XfrStat::Refused,
            XfrFault::NoMemory => XfrStat::Rsrc,
        }
    }
}

impl From<ClientFault> for XfrFault {
    ghost use Rattle.std.specs.Prelude.{◌≡◌};
    ghost use Rattle.yp_transfer.specs.Faults.{of_client};

    ghost from_gives = { λ fault given. given ≡ of_client fault };

    fn from(fault: ClientFault) -> XfrFault {
        match fault {
            ClientFault::Yp(YpStat::Nomap) => XfrFault::Nomap,
            ClientFault::Yp(YpStat::Nodom) => XfrFault::Nodom,
            ClientFault::Yp(stat) => XfrFault::Yperr { stat: Some(stat) },
            ClientFault::Denied(_) => XfrFault::Yperr { stat: None },
            ClientFault::BadReply { at } => XfrFault::Xfrerr { at: at as u64 },
            ClientFault::BadXid { .. } => XfrFault::Xfrerr { at: 0 },
            ClientFault::TooLong { at } => XfrFault::Xfrerr { at },
            ClientFault::Torn { .. } => XfrFault::Rpc,
            ClientFault::ReadFault => XfrFault::Rpc,
            ClientFault::WriteFault => XfrFault::Rpc,
            ClientFault::Spent => XfrFault::Rpc,
            ClientFault::Rows {
                fault: VersionFault::NoMemory,
                ..
            } => XfrFault::NoMemory,
            ClientFault::Rows { .. } => XfrFault::Dbm,
            ClientFault::NoMemory => XfrFault::NoMemory,
        }
    }
}
