//! What happens in a push.

use crate::outcome::Missed;
use yp_messages::PushStat;

/// What happens in a push. A slave is named by its number, counted from 0.
#[derive(Clone, Copy, Debug, PartialEq, Eq)]
pub enum Event {
    /// A slave was asked, or is about to be.
    Sent { slave: u32 },
    /// It couldn't be asked.
    Failed { slave: u32, missed: Missed },
    /// It answered the request at once.
    Refused { slave: u32, stat: PushStat },
    /// A later call told how the transfer of this number went.
    Called { transid: u32, stat: PushStat },
    /// Nothing came for a while.
    Quiet,
}
