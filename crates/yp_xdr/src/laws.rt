//! What joins writing and reading, for values of every kind. Each law is the contract of a function that does nothing.

ghost use Rattle.yp_xdr.specs.inside.Laws.{OneSpelling, NoSpellingBeginsAnother, WrittenIsReadAgain, ReadIsSpelled};
ghost use Rattle.yp_xdr.specs.inside.Laws.{RefusedIsNotSpelled, ListIsReadInTurn, WrittenIsJoined, WritersJoin};
ghost use Rattle.yp_xdr.specs.inside.Laws.{SetsJoin};

/// A value has one spelling.
pub fn one_spelling()
    ensures { OneSpelling }
{}

/// No spelling begins another one, so a value ends where its spelling does.
pub fn no_spelling_begins_another()
    ensures { NoSpellingBeginsAnother }
{}

/// The spelling of a value is read again as that value, whatever is behind it.
pub fn written_is_read_again()
    ensures { WrittenIsReadAgain }
{}

/// What is read is spelled by the bytes that the reader passed.
pub fn read_is_spelled()
    ensures { ReadIsSpelled }
{}

/// Where reading is refused, the bytes begin with no spelling of the kind.
pub fn refused_is_not_spelled()
    ensures { RefusedIsNotSpelled }
{}

/// A list is read element by element, each behind TRUE, up to FALSE.
pub fn list_is_read_in_turn()
    ensures { ListIsReadInTurn }
{}

/// Bytes that are written behind others stand there as if both were written at once.
pub fn written_is_joined()
    ensures { WrittenIsJoined }
{}

/// Two writers in turn are one writer, where there is room for both.
pub fn writers_join()
    ensures { WritersJoin }
{}

/// What two writers that need the room set, one behind the other, is the joined bytes.
pub fn sets_join()
    ensures { SetsJoin }
{}
