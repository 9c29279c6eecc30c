//! What membership is. The law is the contract of a function that does nothing.

ghost use Rattle.yp_netgroup.specs.inside.Decided.{MembershipIsDecided};

/// Membership is decided: a value is true exactly of members.
pub fn membership_is_decided()
    ensures { MembershipIsDecided }
{}
