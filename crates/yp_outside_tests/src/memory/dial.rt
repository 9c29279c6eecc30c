//! Dials in memory.

ghost use Rattle.std.specs.Prelude.{All};
ghost use Rattle.yp_memory.specs.inside.MemDial.{WireIsNew};

use crate::given::{assert_same, listed, owned, read_two, sent};
use std::alloc::Global;
use std::process::Abort;
use yp_io::*;
use yp_memory::*;

const PEER: Peer = Peer {
    addr: [10, 0, 0, 1],
    port: 834,
};

const OTHER: Peer = Peer {
    addr: [10, 0, 0, 2],
    port: 65_535,
};

// A wire in memory with this input, which has met no fault and taken nothing. Its second read fails.
fn new_wire(rt: &impl Abort, alloc: Global, input: &[u8]) -> MemWire
    ensures { WireIsNew result }
{
    Pair {
        source: MemSource::new(owned(rt, alloc, input), 8, listed(rt, alloc, &[1])),
        sink: MemSink::new(alloc, 8, Vec::new(alloc)),
    }
}

fn two_wires(rt: &impl Abort, alloc: Global) -> Vec<MemWire>
    ensures { All WireIsNew result.items }
{
    let wires = [new_wire(rt, alloc, b"one"), new_wire(rt, alloc, b"two")];
    Vec::from_array(alloc, wires).expect(rt, "memory for two wires")
}

// What comes of a wire of a dial: two bytes that it gives and takes. A further read fails before it is given back.
fn call(dial: &mut MemDial, to: Peer) -> Result<[u8; 2], Failed> {
    let mut wire = dial.dial(to)?;
    let (_, buf) = read_two(&mut wire.source);
    let written = write_all(&mut wire.sink, &buf);
    let _ = read_two(&mut wire.source);
    dial.back(wire);
    written.map(|()| buf)
}

// The peers of two wires that came, and of no more.
fn two_peers(wires: &[MemDialed]) -> Option<(Peer, Peer)> {
    match wires {
        [first, second] => Some((first.peer, second.peer)),
        _ => None,
    }
}

// Their inputs.
fn two_inputs(wires: &[MemDialed]) -> Option<(&[u8], &[u8])> {
    match wires {
        [first, second] => Some((&first.input, &second.input)),
        _ => None,
    }
}

// What was taken by two wires that were given back, and by no more.
fn two_taken(wires: &[MemWire]) -> Option<(&[u8], &[u8])> {
    match wires {
        [first, second] => Some((first.sink.taken(), second.sink.taken())),
        _ => None,
    }
}

// The one letter that was sent.
fn one_letter(sendings: &[Sending]) -> Option<(Peer, &[u8])> {
    match sendings {
        [Sending::Posted { letter }] => Some((letter.peer, &letter.bytes)),
        _ => None,
    }
}

// Compares what four calls and two letters answer, the wires that came and what they have taken, and the letter that
// was sent.
fn check_dial(rt: &impl Abort, dial: &mut MemDial) {
    let calls = [
        call(dial, PEER),
        call(dial, PEER),
        call(dial, OTHER),
        call(dial, PEER),
    ];
    let posts = [dial.post(PEER, b"lost"), dial.post(PEER, b"kept")];
    // The second call is listed, and no wire is left for the fourth. The first letter is a call that is listed.
    let answers = (
        [Ok(*b"on"), Err(Failed), Ok(*b"tw"), Err(Failed)],
        [Err(Failed), Ok(())],
    );
    assert_same(rt, &(calls, posts), &answers, "calls and letters");
    let peers = Some((PEER, OTHER));
    assert_same(rt, &two_peers(dial.came()), &peers, "the peers");
    let inputs = Some((b"one".as_slice(), b"two".as_slice()));
    assert_same(rt, &two_inputs(dial.came()), &inputs, "the inputs");
    let taken = Some((b"on".as_slice(), b"tw".as_slice()));
    assert_same(rt, &two_taken(dial.past()), &taken, "what was taken");
    let letter = Some((PEER, b"kept".as_slice()));
    assert_same(rt, &one_letter(dial.letters()), &letter, "the letter");
}

#[test]
fn dial_in_memory(rt: HostRuntime) {
    let wires = two_wires(&rt, rt.alloc());
    let failing = listed(&rt, rt.alloc(), &[1, 4]);
    let mut dial = sent(MemDial::new(rt.alloc(), wires, failing));
    check_dial(&rt, &mut dial);
}

// What comes of a question with room for four bytes, and the room then.
fn ask(dial: &mut MemDial, piece: &[u8]) -> (Result<Option<usize>, Failed>, [u8; 4]) {
    let mut buf = [0; 4];
    (dial.ask(PEER, piece, &mut buf), buf)
}

// A question that was sent, and what was kept of its answer.
fn asked(sending: Option<&Sending>) -> Option<(Peer, &[u8], Option<&[u8]>)> {
    match sending {
        Some(Sending::Asked { letter, answer }) => {
            Some((letter.peer, &letter.bytes, answer.as_deref()))
        }
        _ => None,
    }
}

// Compares what comes of five questions to a dial that has a long answer, none, and a short one, and whose second call
// fails; and the first two that it sent.
fn check_questions(rt: &impl Abort, dial: &mut MemDial) {
    let came = [
        ask(dial, b"first"),
        ask(dial, b"lost"),
        ask(dial, b"third"),
        ask(dial, b"fourth"),
        ask(dial, b"last"),
    ];
    let wanted = [
        (Ok(Some(4)), *b"long"),
        (Err(Failed), [0; 4]),
        (Ok(None), [0; 4]),
        (Ok(Some(2)), *b"hi\0\0"),
        (Ok(None), [0; 4]),
    ];
    assert_same(rt, &came, &wanted, "what comes of questions");
    assert_same(rt, &dial.letters().len(), &4, "questions");
    let first = Some((PEER, b"first".as_slice(), Some(b"long".as_slice())));
    assert_same(
        rt,
        &asked(dial.letters().first()),
        &first,
        "the first question",
    );
    let third = Some((PEER, b"third".as_slice(), None));
    assert_same(
        rt,
        &asked(dial.letters().get(1)),
        &third,
        "the third question",
    );
}

#[test]
fn questions_in_memory(rt: HostRuntime) {
    let alloc = rt.alloc();
    let answers = [
        Some(owned(&rt, alloc, b"longer")),
        None,
        Some(owned(&rt, alloc, b"hi")),
    ];
    let answers = Vec::from_array(alloc, answers).expect(&rt, "memory for answers");
    let failing = listed(&rt, alloc, &[1]);
    let mut dial = MemDial::with_answers(alloc, Vec::new(alloc), answers, failing);
    check_questions(&rt, &mut dial);
}
