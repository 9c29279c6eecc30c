//! Laws of calls of MAKE and of transfers that are taken, as contracts of functions that do nothing.

ghost use Rattle.yp_answer.specs.inside.Laws.{MakeIsAnswered, OpenIsFromOwnHost, TakenIsOfAnother};

/// The caller of an open MAKE is on the server's own host.
pub fn open_is_from_own_host()
    ensures { OpenIsFromOwnHost }
{}

/// A call that may have a map made for it has a reply, and takes no transfer.
pub fn make_is_answered()
    ensures { MakeIsAnswered }
{}

/// A taken transfer is of a map whose shown version, if there is one, has another master.
pub fn taken_is_of_another()
    ensures { TakenIsOfAnother }
{}
