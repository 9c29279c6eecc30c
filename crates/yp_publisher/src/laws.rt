//! What holds of logs and versions. Each law is the contract of a function that does nothing.

ghost use Rattle.yp_publisher.specs.inside.Laws.{LogRises, BeginningIsStart, StartsAreShown};

/// From maps that are all level, and a log with at most one version of each, any list of installs that aren't forced
/// and of reopens leaves a log in which the orders of each map rise.
pub fn log_rises()
    ensures { LogRises }
{}

/// Maps that are all level, and the log that begins with their versions, are such a start of [`log_rises`].
pub fn beginning_is_start()
    ensures { BeginningIsStart }
{}

/// The log that begins with versions shows exactly them.
pub fn starts_are_shown()
    ensures { StartsAreShown }
{}
