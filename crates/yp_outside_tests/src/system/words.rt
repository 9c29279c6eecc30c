//! The words of a program.

ghost use Rattle.std.specs.Prelude.{◌<◌, IfOk, string_len};

use crate::given::assert_same;
use std::alloc::{AllocError, Global};
use std::env::{Env, FillError};
use std::process::Abort;
use yp_system::{WORD_MAX, read_words};

// A program that was started with these words.
#[derive(Drop)]
struct Script<'a> {
    words: &'a [&'a [u8]],
}

impl Env for Script<'_> {
    fn arg(&self, i: usize, buf: &mut [u8]) -> Result<usize, FillError> {
        let Some(word) = self.words.get(i) else {
            return Err(FillError::NotPresent);
        };
        if word.len() > buf.len() {
            return Err(FillError::TooLong);
        }
        buf[..word.len()].copy_from_slice(word);
        Ok(word.len())
    }

    fn var(&self, _name: &str, _buf: &mut [u8]) -> Result<usize, FillError> {
        Err(FillError::NotPresent)
    }

    fn var_at(&self, _i: usize, _buf: &mut [u8]) -> Result<usize, FillError> {
        Err(FillError::NotPresent)
    }
}

// Whether the word and the one behind it came, or where it is no text, one that is longer than any.
fn are_right(came: &[String], word: &[u8], is_text: bool) -> bool {
    match came {
        [first, last] => is_text && first.as_bytes() == word && last.as_str() == "maps",
        [only] => !is_text && only.len() > WORD_MAX,
        _ => false,
    }
}

fn try_word<R: Abort>(rt: &R, alloc: Global, word: &[u8], is_text: bool, row: &str) {
    let script = Script {
        words: &[b"yp", word, b"maps"],
    };
    let came = read_words(&script, alloc).expect(rt, "memory for words");
    assert_same(rt, &are_right(&came, word, is_text), &true, row);
}

static WORDS: [(&[u8], bool, &str); 4] = [
    (b"once", true, "a word"),
    (b"", true, "an empty word"),
    (b"\xc3\xa9=1", true, "a word with an accent"),
    (b"k=\xff", false, "no UTF-8"),
];

#[test]
fn words_and_what_is_no_text(rt: HostRuntime) {
    for (word, is_text, row) in &WORDS {
        try_word(&rt, rt.alloc(), *word, *is_text, *row);
    }
    let long = vec![in rt.alloc(); b'k'; WORD_MAX + 1].expect(&rt, "memory for a word");
    try_word(&rt, rt.alloc(), &long[1..], true, "the longest word");
    try_word(&rt, rt.alloc(), &long, false, "one byte more");
}
