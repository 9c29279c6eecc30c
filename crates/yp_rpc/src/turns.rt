//! The one loop over an inbox.

ghost use Rattle.std.specs.Prelude.{◌≡◌, ◌+◌, ◌≤◌, ◌<◌, length};
ghost use Rattle.yp_io.specs.Counts.{CountsFaults};
ghost use Rattle.yp_rpc.specs.Turns.{datagram_max, turn_state, TakesTurns};
ghost use Rattle.yp_rpc.specs.inside.Turns.{box_by, BeginsTurn, HasTurn, IsHeard};
ghost use Rattle.yp_rpc.specs.inside.Ways.{ways_by};

use crate::handler::{DATAGRAM_MAX, Handler, Wish};
use std::alloc::Global;
use yp_io::{Failed, Inbox, Mail, NoMemory, Peer, zeros};

/// How the turns of a handler ended.
#[derive(Clone, Copy, Debug, PartialEq, Eq)]
pub enum Ended {
    /// The handler was done.
    Done,
    /// All turns were taken.
    Spent,
}

/// The memory of one loop: a datagram that came, and one that is sent.
#[derive(Drop)]
pub struct Room {
    // one byte more than is heard, so that a longer datagram is told from others
    mail: Vec<u8>,
    letter: Vec<u8>,
    ghost mail_fits: { length mail.items ≡ datagram_max + 1 },
    ghost letter_fits: { length letter.items ≡ datagram_max },
}

impl Room {
    /// Takes all the memory that a loop needs.
    pub fn new(alloc: Global) -> Result<Room, NoMemory> {
        Ok(Room {
            mail: zeros(alloc, DATAGRAM_MAX + 1)?,
            letter: zeros(alloc, DATAGRAM_MAX)?,
        })
    }
}

// Sends each letter that the handler wants before a turn, and answers whether it then wants the turn.
fn send_letters<I: Inbox, E: Handler>(
    inbox: &mut I,
    handler: &mut E,
    buf: &mut [u8],
) -> Result<bool, Failed>
    requires { DATAGRAM_MAX ≤ length buf.old }
    ensures begins { BeginsTurn (ways_by E.Handler) result handler.old handler.new
        (box_by I.Inbox inbox.old) (box_by I.Inbox inbox.new) }
    ensures cause { CountsFaults (I.faults inbox.old) (I.faults inbox.new) result }
{
    loop {
        match handler.next(buf) {
            Wish::Send { to, len } => inbox.send(to, &buf[..len])?,
            Wish::Wait => return Ok(true),
            Wish::Done => return Ok(false),
        }
    }
}

// Lets the handler hear a datagram, and sends its reply.
fn hear_mail<I: Inbox, E: Handler>(
    inbox: &mut I,
    handler: &mut E,
    from: Peer,
    mail: &[u8],
    buf: &mut [u8],
) -> Result<(), Failed>
    requires mail { length mail.now ≤ DATAGRAM_MAX }
    requires buf { DATAGRAM_MAX ≤ length buf.old }
    ensures heard { IsHeard (ways_by E.Handler) from mail.now result
        (turn_state handler.old (box_by I.Inbox inbox.old)) (turn_state handler.new (box_by I.Inbox inbox.new)) }
    ensures cause { CountsFaults (I.faults inbox.old) (I.faults inbox.new) result }
{
    let len = handler.hear(from, mail, buf);
    if len == 0 {
        return Ok(());
    }
    inbox.send(from, &buf[..len])
}

// Takes one turn, and lets the handler meet it.
fn take_turn<I: Inbox, E: Handler>(
    inbox: &mut I,
    handler: &mut E,
    mail: &mut [u8],
    buf: &mut [u8],
) -> Result<(), Failed>
    requires mail { DATAGRAM_MAX < length mail.old }
    requires buf { DATAGRAM_MAX ≤ length buf.old }
    ensures turn { HasTurn (ways_by E.Handler) result handler.old handler.new
        (box_by I.Inbox inbox.old) (box_by I.Inbox inbox.new) }
    ensures cause { CountsFaults (I.faults inbox.old) (I.faults inbox.new) result }
{
    match inbox.next(mail)? {
        Mail::Came { len, from } if len <= DATAGRAM_MAX => {
            hear_mail(inbox, handler, from, &mail[..len], buf)
        }
        Mail::Came { .. } => Ok(()),
        Mail::Quiet => {
            handler.rest();
            Ok(())
        }
    }
}

/// Takes turns of an inbox for a handler, at most so many. It ends where the handler is done, where all turns are
/// taken, or where the inbox fails.
pub fn take_turns<I: Inbox, E: Handler>(
    inbox: &mut I,
    handler: &mut E,
    room: &mut Room,
    most: u64,
) -> Result<Ended, Failed>
    ensures takes { TakesTurns (ways_by E.Handler) most result
        (turn_state handler.old (box_by I.Inbox inbox.old)) (turn_state handler.new (box_by I.Inbox inbox.new)) }
    ensures cause { CountsFaults (I.faults inbox.old) (I.faults inbox.new) result }
{
    for _ in 0..most {
        if !send_letters(inbox, handler, &mut room.letter)? {
            return Ok(Ended::Done);
        }
        take_turn(inbox, handler, &mut room.mail, &mut room.letter)?;
    }
    Ok(Ended::Spent)
}
