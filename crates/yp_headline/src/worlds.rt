//! Worlds by which the headline is tried. Each table is the contract of a function that does nothing.

ghost use Rattle.yp_headline.specs.inside.Tried.{RepliesAreFalse, HoldsOfRows};
ghost use Rattle.yp_headline.specs.inside.TriedFiles.{CrashesAreFalse, TransfersAreFalse, HoldsOfTransfer};
ghost use Rattle.yp_headline.specs.inside.TriedWalks.{WalksAreFalse, HoldsOfWalk};

use yp_end_to_end::transfer::laws::{fetched_is_shown, shown_between};
use yp_end_to_end::walk::laws::walked_is_shown;
use yp_map_file::laws::read_is_body;
use yp_rpc::laws::{cut_is_one, first_is_one};

/// Worlds of connections and datagrams of which the headline is false.
pub fn replies_are_false()
    ensures { RepliesAreFalse }
{
    cut_is_one();
}

/// Worlds of files of which it is false.
pub fn crashes_are_false()
    ensures { CrashesAreFalse }
{
    first_is_one();
}

/// Worlds of transfers, and of call backs, of which it is false.
pub fn transfers_are_false()
    ensures { TransfersAreFalse }
{
    first_is_one();
}

/// Worlds of walks of which it is false.
pub fn walks_are_false()
    ensures { WalksAreFalse }
{}

/// Worlds of which it is true.
pub fn holds_of_rows()
    ensures { HoldsOfRows }
{
    read_is_body();
    fetched_is_shown();
    shown_between();
}

/// A world of a transfer that is told as done, of which it is true.
pub fn holds_of_transfer()
    ensures { HoldsOfTransfer }
{
    read_is_body();
    fetched_is_shown();
    shown_between();
}

/// A world of a walk that is told as done, of which it is true.
pub fn holds_of_walk()
    ensures { HoldsOfWalk }
{
    read_is_body();
    walked_is_shown();
}
