//! Texts and a clock in memory.

use crate::given::{assert_same, listed, owned, sent};
use std::alloc::Global;
use std::process::Abort;
use yp_io::*;
use yp_memory::*;

// The answer to a read of a text, and the bytes that came.
type Text = (Result<(), TextFault>, Vec<u8>);

fn read_text(alloc: Global, texts: &mut MemTexts, name: &[u8]) -> Text {
    let mut bytes = Vec::new(alloc);
    let answer = texts.read(name, &mut bytes);
    (answer, bytes)
}

// Texts of the hosts and the groups.
fn two_texts(
    rt: &impl Abort,
    alloc: Global,
    hosts: &[u8],
    groups: &[u8],
) -> Vec<(Vec<u8>, Vec<u8>)> {
    let texts = [
        (owned(rt, alloc, b"hosts"), owned(rt, alloc, hosts)),
        (owned(rt, alloc, b"group"), owned(rt, alloc, groups)),
    ];
    Vec::from_array(alloc, texts).expect(rt, "memory for two texts")
}

// Reads in turn, and what comes of them.
static READS: [(&[u8], Result<(), TextFault>, &[u8]); 7] = [
    (b"group", Ok(()), b"two"),
    (b"hosts", Err(TextFault::Failed), b""),
    (b"hosts", Ok(()), b"one"),
    (b"passwd", Err(TextFault::Failed), b""),
    (b"host", Err(TextFault::Failed), b""),
    (b"Hosts", Err(TextFault::Failed), b""),
    (b"", Err(TextFault::Failed), b""),
];

fn check_reads(rt: &impl Abort, alloc: Global, texts: &mut MemTexts) {
    for (name, answer, bytes) in &READS {
        let (answered, came) = read_text(alloc, texts, *name);
        assert_same(
            rt,
            &(*name, answered, came.as_slice()),
            &(*name, *answer, *bytes),
            "a read of a text",
        );
    }
}

// The same over texts of which the call with this number fails.
fn check_texts(rt: &impl Abort, alloc: Global, failing: u64) {
    let texts = two_texts(rt, alloc, b"one", b"two");
    let mut texts = sent(MemTexts::new(texts, listed(rt, alloc, &[failing])));
    check_reads(rt, alloc, &mut texts);
}

#[test]
fn texts_and_clock_in_memory(rt: HostRuntime) {
    check_texts(&rt, rt.alloc(), 1);
    let now = sent(SetClock { moment: 100 }).now();
    assert_same(&rt, &now, &100, "the clock");
}
