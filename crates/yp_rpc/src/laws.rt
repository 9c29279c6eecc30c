//! Laws of records in a stream, on which each reader of one can rely, and of heads that were written and are read
//! again.
//! Each is the contract of a function that does nothing.

ghost use Rattle.yp_rpc.specs.inside.Laws.{CutIsOne, CutExists, FirstIsOne, RestIsNotWhole, TornIsNotLong, TornIsSome};
ghost use Rattle.yp_rpc.specs.inside.Laws.{LongIsSome};
ghost use Rattle.yp_rpc.specs.inside.Laws.{ReplyIsReadAgain, CallIsHeardAgain};

/// The records of a stream and the rest behind them are determined by its bytes, whatever the limit is.
pub fn cut_is_one()
    ensures { CutIsOne }
{}

/// Whatever comes in, some records begin the stream, and the rest is nothing, a torn record or one that is too long.
pub fn cut_exists()
    ensures { CutExists }
{}

/// A stream begins with one whole record at most.
pub fn first_is_one()
    ensures { FirstIsOne }
{}

/// What is left behind the records begins with no whole record.
pub fn rest_is_not_whole()
    ensures { RestIsNotWhole }
{}

/// What is left behind the records is nothing, a torn record, or one that is too long, and never two of these. So one
/// whose head names too much is too long even where its bytes are not all there.
pub fn rest_is_one_kind()
    ensures torn_is_not_long { TornIsNotLong }
    ensures torn_is_some { TornIsSome }
    ensures long_is_some { LongIsSome }
{}

/// The head of a reply that was written is read again, whatever is behind it.
pub fn reply_is_read_again()
    ensures { ReplyIsReadAgain }
{
    yp_xdr::laws::written_is_read_again();
}

/// The head of a call that was written is heard as that call, whatever is behind it.
pub fn call_is_heard_again()
    ensures { CallIsHeardAgain }
{
    yp_xdr::laws::written_is_read_again();
}
