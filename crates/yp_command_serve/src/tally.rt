//! The numbers that `sample` tells, and their line.

ghost use Rattle.std.specs.Prelude.{◌≡◌};
ghost use Rattle.yp_command_serve.specs.Sample.{tally_line};

use arrayvec::ArrayString;

/// What is told of a map and of what is answered on it.
#[derive(Clone, Copy, Debug, PartialEq, Eq)]
pub struct SampleTally {
    /// The rows.
    pub rows: usize,
    /// The bytes of the stored body.
    pub body: usize,
    /// The bytes of the reply to ALL.
    pub all: usize,
    /// The rows whose value MATCH has for their key.
    pub matched: usize,
}

/// The most bytes of a line.
const LINE_MAX: usize = 128;

impl SampleTally {
    /// The line that tells them.
    pub fn line(&self) -> ArrayString<LINE_MAX>
        ensures { result.bytes ≡ tally_line self.now }
    {
        let mut line = ArrayString::new();
        line.push_str("rows ");
        line.push_str(itoa::Buffer::new().format(self.rows));
        line.push_str(" body ");
        line.push_str(itoa::Buffer::new().format(self.body));
        line.push_str(" all ");
        line.push_str(itoa::Buffer::new().format(self.all));
        line.push_str(" matched ");
        line.push_str(itoa::Buffer::new().format(self.matched));
        line.push_str("\n");
        line
    }
}
