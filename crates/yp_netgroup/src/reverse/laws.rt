//! What a look-up in a reverse map is. The law is the contract of a function that does nothing.

ghost use Rattle.yp_netgroup.specs.inside.reverse.Listed.{ListedIsMembership};

/// In a map whose keys are one triple's each, a look-up in its reverse is membership.
pub fn listed_is_membership()
    ensures { ListedIsMembership }
{}
