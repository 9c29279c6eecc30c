//! What a mail was to a walk.

/// What a mail was to a walk.
#[derive(Clone, Copy, Debug, PartialEq, Eq)]
pub enum Walked {
    /// It isn't the awaited one, and changed nothing.
    Ignored,
    /// It is the awaited one, and another call is outstanding.
    Onward,
    /// It is the last one, and the version is whole.
    Done,
}
