//! The blanks in a text of a row.

ghost use Rattle.std.specs.Prelude.{◌≡◌, ◌+◌, ◌≤◌, length};
ghost use Rattle.std.specs.List.{prefix_len, suffix_len};
ghost use Rattle.yp_version.specs.Blanks.{is_blank, without_front_blanks, without_back_blanks, bare};

/// Whether a byte is a space or a tab.
pub fn is_blank(byte: u8) -> bool
    ensures { result ≡ is_blank byte }
{
    byte == b' ' || byte == b'\t'
}

// How many blanks are at the front.
fn front_blanks(text: &[u8]) -> usize
    ensures count { result ≡ prefix_len is_blank text.now }
    ensures within { result ≤ length text.now }
{
    for (i, byte) in text.iter().enumerate() {
        if !is_blank(*byte) {
            return i;
        }
    }
    text.len()
}

/// The text without the blanks at its front.
pub fn without_front_blanks(text: &[u8]) -> &[u8]
    ensures { result.now ≡ without_front_blanks text.now }
{
    &text[front_blanks(text)..]
}

// The text without the blanks at its end.
fn without_back_blanks(text: &[u8]) -> &[u8]
    ensures { result.now ≡ without_back_blanks text.now }
{
    let mut end = text.len();
    while end > 0 && is_blank(text[end - 1]) {
        end -= 1;
    }
    &text[..end]
}

/// The text without the blanks at both ends.
pub fn bare(text: &[u8]) -> &[u8]
    ensures { result.now ≡ bare text.now }
{
    without_back_blanks(without_front_blanks(text))
}
