//! What joins the replies of a server in datagrams with a walk over its map. Each law is the contract of a function
//! that does nothing.

ghost use Rattle.yp_end_to_end.specs.inside.walk.Laws.{HeardIsInTurn, WalkedIsShown, SkewIsShown, ShownIsWalked};
ghost use Rattle.yp_end_to_end.specs.inside.walk.Laws.{HappenedIsDelivered, DeliveredIsOfSource, DeliveredIsWhole};
ghost use Rattle.yp_end_to_end.specs.inside.walk.Laws.{DeliveredSkews};

use crate::exchange::laws::mail_tells;
use crate::transfer::laws::{front_is_served, shown_between, shown_is_sound};
use yp_transfer::walk::laws::{told_is_walked, told_is_whole};
use yp_version::laws::rising_stays;

/// Whatever was lost, repeated or reordered, what a walk has heard of its source is one reply to each of its calls in
/// turn, on fronts of the source's log that never go back.
pub fn heard_is_in_turn()
    ensures { HeardIsInTurn }
{
    mail_tells();
    front_is_served();
}

/// So a walk that is done has the order, the master and the rows of the one version that the source showed at each
/// moment from the first awaited reply to the last, where the orders of each map rise.
pub fn walked_is_shown()
    ensures { WalkedIsShown }
{
    mail_tells();
    front_is_served();
    shown_is_sound();
    shown_between();
    told_is_walked();
}

/// And it is refused for two orders only where the source showed another version meanwhile.
pub fn skew_is_shown()
    ensures { SkewIsShown }
{
    mail_tells();
    front_is_served();
}

/// Where the source shows one version throughout, against which nothing stands, a walk is done behind a reply for each
/// row and four more, with that version.
pub fn shown_is_walked()
    ensures { ShownIsWalked }
{
    mail_tells();
    front_is_served();
    shown_is_sound();
    told_is_whole();
}

/// A walk behind all that happened is the one by what was delivered.
pub fn happened_is_delivered()
    ensures { HappenedIsDelivered }
{}

/// So where mails were delivered while a source whose log rises answered, a walk by these mails that is done has the
/// order, the master and the rows of the one version that the source showed throughout.
pub fn delivered_is_of_source()
    ensures { DeliveredIsOfSource }
{
    heard_is_in_turn();
    walked_is_shown();
    happened_is_delivered();
    rising_stays();
}

/// Where it shows one version throughout, against which nothing stands, a walk is done with that one once a mail for
/// each of its rows and four more were delivered that were awaited.
pub fn delivered_is_whole()
    ensures { DeliveredIsWhole }
{
    heard_is_in_turn();
    shown_is_walked();
    happened_is_delivered();
}

/// And a walk is refused for two orders only where that source showed both, at the first awaited reply and at the last.
pub fn delivered_skews()
    ensures { DeliveredSkews }
{
    heard_is_in_turn();
    skew_is_shown();
    happened_is_delivered();
}
