//! Datagrams that are answered, a turn each.

ghost use Rattle.yp_io.specs.Counts.{CountsFaults};
ghost use Rattle.yp_answer.specs.inside.session.Hosts.{conduct_by};
ghost use Rattle.yp_rpc.specs.inside.Turns.{box_by};
ghost use Rattle.yp_worker.specs.datagrams.Serving.{ServesMail};

use crate::HandsOver;
use crate::datagrams::server::MailServer;
use std::sync::Wait;
use yp_io::{Failed, Inbox};
use yp_publisher::sharing::Site;
use yp_rpc::{Ended, Room, take_turns};

/// Takes turns of an inbox, at most so many, and answers each datagram to its sender before the next turn, unless it is
/// a call for which a map may have to be made and that is left for a carrier. It ends where all turns are taken, or
/// where the inbox fails. A datagram of more than 8,192 bytes is dropped.
pub fn serve_mail<I: Inbox, J: Site, H: HandsOver, R: Wait>(
    inbox: &mut I,
    server: &mut MailServer<'_, J, H, H::Front, R>,
    room: &mut Room,
    turns: u64,
) -> Result<Ended, Failed>
    ensures serves { ServesMail (conduct_by H.Host) H.counted turns result server.old server.new
        (box_by I.Inbox inbox.old) (box_by I.Inbox inbox.new) }
    ensures cause { CountsFaults (I.faults inbox.old) (I.faults inbox.new) result }
{
    let ended = take_turns(inbox, server, room, turns);
    match ended {
        Ok(_) => server.carry_out(),
        Err(Failed) => server.forget(),
    }
    ended
}
