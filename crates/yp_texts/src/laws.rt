//! What holds of every version that is built, and of rows that are told. Each law is the contract of a function that
//! does nothing.

ghost use Rattle.yp_texts.specs.inside.Laws.{BuiltIsBuiltBehind, DumpIsReadAgain};

/// What was built behind one version is what is built behind any other of a lower order, at the moment of its order.
pub fn built_is_built_behind()
    ensures { BuiltIsBuiltBehind }
{}

/// What [`dump`](crate::dump) tells is read again as the same rows.
pub fn dump_is_read_again()
    ensures { DumpIsReadAgain }
{}
