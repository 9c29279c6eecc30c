//! Inboxes in memory.

use crate::given::{assert_same, listed, owned, sent};
use std::alloc::Global;
use std::process::Abort;
use yp_io::{Failed, Inbox, Letter, Mail, Peer};
use yp_memory::MemInbox;

const PEER: Peer = Peer {
    addr: [10, 0, 0, 1],
    port: 834,
};

const OTHER: Peer = Peer {
    addr: [10, 0, 0, 2],
    port: 65_535,
};

// The answer to a turn, with a buffer of four bytes behind it.
type Turn = (Result<Mail, Failed>, [u8; 4]);

// What two letters bring with a quiet turn between them.
fn mail_of(rt: &impl Abort, alloc: Global) -> Vec<Option<Letter>> {
    let long = Letter {
        peer: PEER,
        bytes: owned(rt, alloc, b"longer"),
    };
    let short = Letter {
        peer: OTHER,
        bytes: owned(rt, alloc, b"ab"),
    };
    Vec::from_array(alloc, [Some(long), None, Some(short)]).expect(rt, "memory for mail")
}

fn next<I: Inbox>(inbox: &mut I) -> Turn {
    let mut buf = *b"....";
    let answer = inbox.next(&mut buf);
    (answer, buf)
}

// The one letter that was sent.
fn one_letter(letters: &[Letter]) -> Option<(Peer, &[u8])> {
    match letters {
        [letter] => Some((letter.peer, &letter.bytes)),
        _ => None,
    }
}

// Compares what five turns and two letters answer. The second call and the fifth fail.
fn check_inbox(rt: &impl Abort, inbox: &mut MemInbox) {
    let first = [next(inbox), next(inbox)];
    let posts = [
        inbox.send(OTHER, b"kept"),
        next(inbox).0.map(|_| ()),
        inbox.send(OTHER, b"lost"),
    ];
    let last = [next(inbox), next(inbox)];
    let long = Mail::Came { len: 4, from: PEER };
    let short = Mail::Came {
        len: 2,
        from: OTHER,
    };
    let answers = (
        [(Ok(long), *b"long"), (Err(Failed), *b"....")],
        [Ok(()), Ok(()), Err(Failed)],
        [(Ok(short), *b"ab.."), (Ok(Mail::Quiet), *b"....")],
    );
    assert_same(rt, &(first, posts, last), &answers, "turns and letters");
    assert_same(rt, &inbox.turns(), &4, "the count of turns");
    let letter = Some((OTHER, b"kept".as_slice()));
    assert_same(rt, &one_letter(inbox.letters()), &letter, "the letter");
}

#[test]
fn inbox_in_memory(rt: HostRuntime) {
    let mail = mail_of(&rt, rt.alloc());
    let failing = listed(&rt, rt.alloc(), &[1, 4]);
    let mut inbox = sent(MemInbox::new(rt.alloc(), mail, failing));
    check_inbox(&rt, &mut inbox);
}
