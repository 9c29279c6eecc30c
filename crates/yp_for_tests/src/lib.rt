//! What the tests of several crates share: bytes by hexadecimal words. No program stands on it, and it ends no process.
#![tactic(auto)]

use std::alloc::Global;

/// The number of no call.
pub const NEVER: u64 = u64::MAX;

/// Adds the bytes of a text of hexadecimal words. There is no answer where a word isn't hexadecimal, or where memory
/// runs out.
fn extend_with_words(alloc: Global, bytes: &mut Vec<u8>, text: &str) -> Option<()> {
    for word in text.split_whitespace() {
        let word = hex::decode(alloc, word).ok()?;
        bytes.extend_from_slice(&word).ok()?;
    }
    Some(())
}

/// The bytes of texts of hexadecimal words, as `8000004c 00000001`. There are none where a word isn't hexadecimal, or
/// where memory runs out.
pub fn bytes(alloc: Global, texts: &[&str]) -> Option<Vec<u8>> {
    let mut bytes = Vec::new(alloc);
    for text in texts {
        extend_with_words(alloc, &mut bytes, *text)?;
    }
    Some(bytes)
}

/// What a word stands for by a line `WORD = 8000004c 00000001` of these names. Without one it stands for itself.
fn meaning<'n>(names: &'n str, word: &'n str) -> &'n str {
    for line in names.lines() {
        if let Some((name, words)) = line.split_once(" = ") {
            if name == word {
                return words;
            }
        }
    }
    word
}

/// The bytes of a text of hexadecimal words and of names, each told by a line `NAME = 8000004c 00000001` of `names`.
pub fn named(alloc: Global, names: &str, text: &str) -> Option<Vec<u8>> {
    let mut bytes = Vec::new(alloc);
    for word in text.split_whitespace() {
        extend_with_words(alloc, &mut bytes, meaning(names, word))?;
    }
    Some(bytes)
}

/// The parts of a row `NAME: CALL -> REPLY`.
pub fn parts(row: &str) -> Option<(&str, &str, &str)> {
    let (name, rest) = row.split_once(": ")?;
    let (call, reply) = rest.split_once(" ->")?;
    Some((name, call, reply))
}
