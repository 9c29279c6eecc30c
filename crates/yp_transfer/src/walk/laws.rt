//! What holds of walks. Each law is the contract of a function that does nothing.

ghost use Rattle.yp_transfer.specs.inside.walk.Told.{ToldIsWalked, ToldIsWhole};

use yp_version::laws::rising_is_distinct;

/// Where all awaited replies say what one version has, the walk is on its way over that version, and where it is done
/// it has its order, its master and its rows. It is refused then only for what is wanted of it, or for a limit.
pub fn told_is_walked()
    ensures { ToldIsWalked }
{
    rising_is_distinct();
}

/// Where four replies that it awaits, and one for each row, all say what one version has, against which nothing stands,
/// the walk ends with that version.
pub fn told_is_whole()
    ensures { ToldIsWhole }
{
    rising_is_distinct();
}
