//! Questions that are asked over a wire in memory.

ghost use Rattle.std.specs.Prelude.{◌<◌};
ghost use Rattle.yp_client.specs.Questions.{bytes_of};
ghost use Rattle.yp_client.specs.inside.Questions.{QuestionIsWithin};

use crate::exchange::told::query_told;
use crate::given::{list, sent};
use std::alloc::Global;
use std::process::Abort;
use std::random::RandomSource;
use yp_client::Question;
use yp_client::query::QueryFault;
use yp_io::{Pair, Peer};
use yp_memory::{MemDial, MemSink, MemSource};

/// Who is asked.
pub const SERVER: Peer = Peer {
    addr: [10, 0, 0, 1],
    port: 834,
};

/// The host, the user and the domain of a triple, each where it is given.
type Triple<'a> = (Option<&'a [u8]>, Option<&'a [u8]>, Option<&'a [u8]>);

/// A question in bytes that a constant has.
pub type Fixed = Question<&'static [u8]>;

/// The calls that fail, counted from 0: of the dial, of the wire's source and sink, and of the sink that is printed
/// to.
#[derive(Clone, Copy)]
pub struct Weather<'a> {
    pub dials: &'a [u64],
    pub reads: &'a [u64],
    pub writes: &'a [u64],
    pub prints: &'a [u64],
}

/// Nothing fails.
pub const FAIR: Weather<'static> = Weather {
    dials: &[],
    reads: &[],
    writes: &[],
    prints: &[],
};

/// What came of a question: its result, how many wires were given back, what was sent over them, and what was printed.
pub type Asked = (Result<(), QueryFault>, usize, Vec<u8>, Vec<u8>);

fn assert_within<R: Abort>(rt: &R, question: &Question<Vec<u8>>)
    ensures { QuestionIsWithin (bytes_of question.now) }
{
    assert!(rt; question.is_within());
}

/// A copy of bytes.
pub fn text<R: Abort>(rt: &R, alloc: Global, text: &[u8]) -> Vec<u8> {
    text.to_vec(alloc).expect(rt, "a text")
}

fn given<R: Abort>(rt: &R, alloc: Global, given: Option<&[u8]>) -> Option<Vec<u8>> {
    match given {
        Some(bytes) => Some(text(rt, alloc, bytes)),
        None => None,
    }
}

// A question about a membership, in bytes of its own.
fn owned_membership<R: Abort>(
    rt: &R,
    alloc: Global,
    group: (&[u8], &[u8]),
    triple: Triple<'_>,
) -> Question<Vec<u8>> {
    Question::Innetgr {
        domain: text(rt, alloc, group.0),
        group: text(rt, alloc, group.1),
        host: given(rt, alloc, triple.0),
        user: given(rt, alloc, triple.1),
        user_domain: given(rt, alloc, triple.2),
    }
}

// A question in bytes of its own.
fn owned<R: Abort>(rt: &R, alloc: Global, question: &Fixed) -> Question<Vec<u8>> {
    match *question {
        Question::Cat { domain, map } => Question::Cat {
            domain: text(rt, alloc, domain),
            map: text(rt, alloc, map),
        },
        Question::Catk { domain, map } => Question::Catk {
            domain: text(rt, alloc, domain),
            map: text(rt, alloc, map),
        },
        Question::Match { domain, map, key } => Question::Match {
            domain: text(rt, alloc, domain),
            map: text(rt, alloc, map),
            key: text(rt, alloc, key),
        },
        Question::Which { domain, map } => Question::Which {
            domain: text(rt, alloc, domain),
            map: text(rt, alloc, map),
        },
        Question::Poll { domain, map } => Question::Poll {
            domain: text(rt, alloc, domain),
            map: text(rt, alloc, map),
        },
        Question::Maps { domain } => Question::Maps {
            domain: text(rt, alloc, domain),
        },
        Question::Pull {
            domain,
            map,
            source,
        } => Question::Pull {
            domain: text(rt, alloc, domain),
            map: text(rt, alloc, map),
            source: text(rt, alloc, source),
        },
        Question::Make { domain, map } => Question::Make {
            domain: text(rt, alloc, domain),
            map: text(rt, alloc, map),
        },
        Question::Innetgr {
            domain,
            group,
            host,
            user,
            user_domain,
        } => owned_membership(rt, alloc, (domain, group), (host, user, user_domain)),
    }
}

// A dial of one wire with this input.
fn dial<R: Abort>(rt: &R, alloc: Global, input: Vec<u8>, weather: &Weather<'_>) -> MemDial {
    let dials = list(rt, alloc, weather.dials);
    let reads = list(rt, alloc, weather.reads);
    let writes = list(rt, alloc, weather.writes);
    let mut wires = Vec::new(alloc);
    wires
        .push(Pair {
            source: MemSource::new(input, 9, reads),
            sink: MemSink::new(alloc, 16, writes),
        })
        .expect(rt, "a list of one wire");
    MemDial::new(alloc, wires, dials)
}

fn ask_over<R: RandomSource + Abort>(
    rt: &R,
    alloc: Global,
    question: &Fixed,
    to: Peer,
    dial: &mut MemDial,
    sink: &mut MemSink,
) -> Result<(), QueryFault> {
    let question = owned(rt, alloc, question);
    assert_within(rt, &question);
    query_told(alloc, rt, dial, to, &question, sink)
}

/// Asks over one wire with this input, and prints to a sink that takes at most `piece` bytes in a write.
pub fn ask<R: RandomSource + Abort>(
    rt: &R,
    alloc: Global,
    question: &Fixed,
    input: Vec<u8>,
    piece: usize,
    weather: &Weather<'_>,
) -> Asked
    requires { 0 < piece }
{
    let mut dial = dial(rt, alloc, input, weather);
    let mut sink = MemSink::new(alloc, piece, list(rt, alloc, weather.prints));
    let result = ask_over(rt, alloc, question, SERVER, &mut dial, &mut sink);
    let printed = text(rt, alloc, sink.taken());
    (result, dial.past().len(), sent(rt, alloc, &dial), printed)
}

/// The peer that is asked a question of this one, over the one wire that a dial has.
pub fn asked_peer<R: RandomSource + Abort>(
    rt: &R,
    alloc: Global,
    question: &Fixed,
    to: Peer,
) -> Option<Peer> {
    let mut dial = dial(rt, alloc, Vec::new(alloc), &FAIR);
    let mut sink = MemSink::new(alloc, 16, Vec::new(alloc));
    let _ = ask_over(rt, alloc, question, to, &mut dial, &mut sink);
    match dial.came() {
        [wire] => Some(wire.peer),
        _ => None,
    }
}
