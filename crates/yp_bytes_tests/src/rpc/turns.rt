//! Turns of an inbox in memory.

use crate::given::{assert_same, letter, listed};
use crate::rpc::asker::{Asker, NO_ANSWER};
use std::alloc::Global;
use std::process::Abort;
use yp_io::{Failed, Letter, Peer};
use yp_memory::MemInbox;
use yp_rpc::{Ended, Room, take_turns};

const PEER: Peer = Peer {
    addr: [10, 0, 0, 1],
    port: 834,
};

const OTHER: Peer = Peer {
    addr: [10, 0, 0, 2],
    port: 65_535,
};

const ANSWER: u8 = 1;

// What a turn brings: nothing, or a datagram of so many bytes, each of them this one.
type Brings = Option<(u8, usize)>;

// How turns ended, how many letters were sent, and how many turns were taken.
type Outcome = (Result<Ended, Failed>, usize, u64);

// What the turns bring, the calls that fail, the most turns, and what comes of that.
struct Row {
    name: &'static str,
    brings: &'static [Brings],
    failing: &'static [u64],
    most: u64,
    outcome: Outcome,
}

const ROWS: [Row; 9] = [
    Row {
        name: "asked again after a quiet turn, and done by an answer",
        brings: &[None, Some((NO_ANSWER, 2)), Some((ANSWER, 3))],
        failing: &[],
        most: 5,
        outcome: (Ok(Ended::Done), 3, 3),
    },
    Row {
        name: "not asked again after the last turn",
        brings: &[],
        failing: &[],
        most: 2,
        outcome: (Ok(Ended::Spent), 2, 2),
    },
    Row {
        name: "no turn",
        brings: &[Some((ANSWER, 3))],
        failing: &[],
        most: 0,
        outcome: (Ok(Ended::Spent), 0, 0),
    },
    Row {
        name: "answered at the last turn",
        brings: &[Some((ANSWER, 3))],
        failing: &[],
        most: 1,
        outcome: (Ok(Ended::Spent), 2, 1),
    },
    Row {
        name: "8,192 bytes are heard",
        brings: &[Some((ANSWER, 8_192))],
        failing: &[],
        most: 2,
        outcome: (Ok(Ended::Done), 2, 1),
    },
    Row {
        name: "8,193 bytes are dropped",
        brings: &[Some((ANSWER, 8_193))],
        failing: &[],
        most: 2,
        outcome: (Ok(Ended::Spent), 1, 2),
    },
    Row {
        name: "the letter fails",
        brings: &[],
        failing: &[0],
        most: 2,
        outcome: (Err(Failed), 0, 0),
    },
    Row {
        name: "the turn fails",
        brings: &[],
        failing: &[1],
        most: 2,
        outcome: (Err(Failed), 1, 0),
    },
    Row {
        name: "the reply fails",
        brings: &[Some((ANSWER, 3))],
        failing: &[2],
        most: 2,
        outcome: (Err(Failed), 1, 1),
    },
];

fn mail_of<R: Abort>(rt: &R, alloc: Global, brings: &[Brings]) -> Vec<Option<Letter>> {
    let mut mail = Vec::new(alloc);
    for turn in brings {
        let came = match turn {
            Some((byte, len)) => Some(letter(rt, alloc, OTHER, *byte, *len)),
            None => None,
        };
        mail.push(came).expect(rt, "memory for mail");
    }
    mail
}

fn room_of<R: Abort>(rt: &R, alloc: Global) -> Room {
    Room::new(alloc).expect(rt, "memory for a loop")
}

// Takes the turns of a row.
fn take(room: &mut Room, inbox: &mut MemInbox, most: u64) -> Outcome {
    let mut asker = Asker {
        peer: PEER,
        is_due: true,
        is_done: false,
    };
    let ended = take_turns(inbox, &mut asker, room, most);
    (ended, inbox.letters().len(), inbox.turns())
}

fn play<R: Abort>(rt: &R, alloc: Global, row: &Row) -> Outcome {
    let mail = mail_of(rt, alloc, row.brings);
    let failing = listed(rt, alloc, row.failing);
    let mut room = room_of(rt, alloc);
    let mut inbox = MemInbox::new(alloc, mail, failing);
    take(&mut room, &mut inbox, row.most)
}

#[test]
fn turns_in_memory(rt: HostRuntime) {
    for row in &ROWS {
        let came = play(&rt, rt.alloc(), row);
        assert_same(&rt, &came, &row.outcome, row.name);
    }
}
