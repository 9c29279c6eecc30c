//! What holds of what is fetched. Each law is the contract of a function that does nothing.

ghost use Rattle.yp_transfer.specs.inside.Laws.{FetchedIsOne};

use yp_rpc::laws::{first_is_one, rest_is_not_whole, rest_is_one_kind};

/// The bytes of a source give one outcome.
pub fn fetched_is_one()
    ensures { FetchedIsOne }
{
    first_is_one();
    rest_is_not_whole();
    rest_is_one_kind();
}
