//! The words that the program was started with.

ghost use Rattle.std.specs.Prelude.{◌<◌, IfOk, string_len};

use std::alloc::{AllocError, Global};
use std::env::{Env, FillError};

/// The most bytes of a word: no system hands over more.
pub const WORD_MAX: usize = 131_072;

// What is found at a number.
enum Word<'a> {
    Text(&'a str),
    // not UTF-8, or longer than any word can be
    NoText,
    End,
}

/// The words behind the program's name, in order. A word that isn't UTF-8, or is longer than any can be, is handed on
/// as one that no sentence has, and ends them: a sentence that fails there fails whatever comes behind.
pub fn read_words(rt: &impl Env, alloc: Global) -> Result<Vec<String>, AllocError> {
    let mut buf = vec![in alloc; 0; WORD_MAX]?;
    let mut words = Vec::new(alloc);
    for i in 1..usize::MAX {
        match word_at(rt, i, &mut buf) {
            Word::Text(text) => words.push(String::from_str(alloc, text)?)?,
            Word::NoText => {
                words.push(no_text(alloc)?)?;
                break;
            }
            Word::End => break,
        }
    }
    Ok(words)
}

fn word_at<'a>(rt: &impl Env, i: usize, buf: &'a mut [u8]) -> Word<'a> {
    match rt.arg(i, buf) {
        Ok(len) => match str::from_utf8(&buf[..len]) {
            Ok(text) => Word::Text(text),
            Err(_) => Word::NoText,
        },
        Err(FillError::TooLong) => Word::NoText,
        Err(FillError::NotPresent) => Word::End,
    }
}

// What stands in for a word that isn't text: U+FFFD until it is longer than any word. A short one would be text itself,
// which a sentence may take as a key or as a name of any bytes.
fn no_text(alloc: Global) -> Result<String, AllocError>
    ensures { IfOk result (λ text. 131072 < string_len text) }
{
    "\u{fffd}".repeat(alloc, WORD_MAX)
}
