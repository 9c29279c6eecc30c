//! Laws of the port mapper, for the crates above.

ghost use Rattle.yp_binding.specs.inside.portmap.Replies.{RepeatsNothing};

/// A call that is repeated directly after itself leaves the registry that it left the first time.
pub fn repeated_call_changes_nothing()
    ensures { RepeatsNothing }
{}
