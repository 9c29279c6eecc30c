//! What the tests share. A call of each takes no exit from its caller: an exit costs seconds to prove.

ghost use Rattle.std.specs.Prelude.{◌≤◌, length};
ghost use Rattle.yp_io.specs.Texts.{text_max};

use std::alloc::Global;
use std::fmt::Debug;
use std::process::Abort;
use yp_io::TEXT_MAX;

/// The bytes of texts of hexadecimal words, as `8000004c 00000001`.
pub fn bytes<R: Abort>(rt: &R, alloc: Global, texts: &[&str]) -> Vec<u8> {
    yp_for_tests::bytes(alloc, texts).expect(rt, "hexadecimal words")
}

/// Ends the test where what came isn't what is wanted, and tells of which row.
pub fn assert_same<R: Abort, T: PartialEq + Debug>(rt: &R, came: &T, wanted: &T, row: &str) {
    assert!(rt; came == wanted, "{row}: {came:?} came, not {wanted:?}");
}

/// Ends the test where a text is longer than any that is built of.
pub fn assert_fits<R: Abort>(rt: &R, text: &[u8])
    ensures { length text.now ≤ text_max }
{
    assert!(rt; text.len() <= TEXT_MAX);
}

/// A text to build of, of these bytes.
pub fn text_of<R: Abort>(rt: &R, alloc: Global, bytes: &[u8]) -> Vec<u8>
    ensures { length result.items ≤ text_max }
{
    let text = Vec::from_slice(alloc, bytes).expect(rt, "a text");
    assert_fits(rt, &text);
    text
}

/// A text whose lines have these fronts, each filled with `x` to its length.
pub fn long_text<R: Abort>(rt: &R, alloc: Global, lines: &[(&[u8], usize)]) -> Vec<u8> {
    let mut text = Vec::new(alloc);
    for (front, len) in lines {
        text.extend_from_slice(*front).expect(rt, "room");
        for _ in front.len()..*len {
            text.push(b'x').expect(rt, "room");
        }
        text.push(b'\n').expect(rt, "room");
    }
    text
}
