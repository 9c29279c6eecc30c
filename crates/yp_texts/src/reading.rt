//! How a text is read.

ghost use Rattle.std.specs.Prelude.{◌≡◌};
ghost use Rattle.yp_texts.specs.Readings.{reading_of, source_of};

use crate::kind::Kind;

/// How a text is read.
#[derive(Clone, Copy, Debug, PartialEq, Eq)]
pub enum Reading {
    /// As the text of this kind.
    Text(Kind),

    /// As rows, one a line: the key, then a tab or the first run of blanks, then the value as it stands.
    Rows,
}

impl Reading {
    /// How the text of the map with this name is read.
    pub fn of_map(map: &[u8]) -> Reading
        ensures { result ≡ reading_of map.now }
    {
        match Kind::of_name(map) {
            Some(kind) => Reading::Text(kind),
            None => Reading::Rows,
        }
    }

    /// The name of the text of a map that is read so: that of its kind, or else the name of the map.
    pub fn source(self, map: &[u8]) -> &[u8]
        ensures { result.now ≡ source_of self map.now }
    {
        match self {
            Reading::Text(kind) => kind.text(),
            Reading::Rows => map,
        }
    }
}
