//! The order of a new version.

ghost use Rattle.std.specs.Prelude.{◌≡◌, ◌↔◌, Some};
ghost use Rattle.std.specs.Result.{result_ok, IsErr};
ghost use Rattle.yp_texts.specs.Builds.{order_after, order_max};

use yp_version::Order;

/// The last order was the greatest that there is.
#[derive(Clone, Copy, Debug, PartialEq, Eq)]
pub struct OrderSpent;

/// The order of a new version at a moment, in seconds: the moment, but at least one more than the previous order.
pub fn next_order(previous: Option<Order>, now: u32) -> Result<Order, OrderSpent>
    ensures order { result_ok result ≡ order_after previous now }
    ensures spent { IsErr result ↔ (previous ≡ Some order_max) }
{
    let Some(previous) = previous else {
        return Ok(Order(now));
    };
    match previous.number() {
        u32::MAX => Err(OrderSpent),
        previous => Ok(Order(now.max(previous + 1))),
    }
}
