//! What all servers told, printed.

ghost use Rattle.std.specs.Prelude.{◌≡◌, ◌≢◌, ◌↔◌, ◌≤◌, ◌<◌, ◌++◌, ◌∷◌, flat_map, slice_index_or, None, Err, IsTrue};
ghost use Rattle.std.specs.Prelude.{length, map, Ok, nat_eq};
ghost use Rattle.std.specs.List.{list_all};
ghost use Rattle.std.specs.Option.{option_eq};
ghost use Rattle.std.specs.Cmp.Lexicographic.{pointwise};
ghost use Rattle.yp_io.specs.Counts.{CountsFaults, HasRisen};
ghost use Rattle.yp_client.specs.inside.query.Printed.{Puts};
ghost use Rattle.yp_client.specs.orders.Lines.{order_column, map_line, comparison_text, IsLevel};
ghost use Rattle.yp_client.specs.orders.Scenes.{PrintsComparison};
ghost use Rattle.yp_client.specs.inside.orders.Asked.{mastered_view, orders_list, comparison_view};

use crate::orders::asked::Mastered;
use crate::orders::dialed::Comparison;
use crate::query::fault::QueryFault;
use crate::query::text::TextBuffer;
use std::alloc::Global;
use yp_io::{Failed, Sink};
use yp_version::Order;

/// The order of the map with this number, counted from 0, where a server has one.
fn order_at(orders: &[Option<Order>], number: usize) -> Option<Order>
    ensures { result ≡ slice_index_or orders.now number None }
{
    match orders.get(number) {
        Some(order) => *order,
        None => None,
    }
}

/// An order behind a space, or that there is none.
fn print_order<K: Sink>(
    text: &mut TextBuffer,
    sink: &mut K,
    orders: &[Option<Order>],
    number: usize,
) -> Result<(), Failed>
    ensures puts { Puts (order_column number orders.now) result text.old text.new
        (K.output sink.old) (K.output sink.new) }
    ensures cause { CountsFaults (K.faults sink.old) (K.faults sink.new) result }
{
    text.put(sink, b" ")?;
    match order_at(orders, number) {
        Some(order) => text.put(sink, itoa::Buffer::new().format(order.number()).as_bytes()),
        None => text.put(sink, b"none"),
    }
}

/// The same of each other server.
fn print_others<K: Sink>(
    text: &mut TextBuffer,
    sink: &mut K,
    others: &[Vec<Option<Order>>],
    number: usize,
) -> Result<(), Failed>
    ensures puts { Puts (flat_map (order_column number) (orders_list others.now)) result text.old text.new
        (K.output sink.old) (K.output sink.new) }
    ensures cause { CountsFaults (K.faults sink.old) (K.faults sink.new) result }
{
    for orders in others {
        print_order(text, sink, orders, number)?;
    }
    Ok(())
}

/// A map, and its master behind a space.
fn print_map<K: Sink>(text: &mut TextBuffer, sink: &mut K, map: &Mastered) -> Result<(), Failed>
    ensures puts { Puts (map.now.name.items ++ 32 ∷ map.now.master.items) result text.old text.new
        (K.output sink.old) (K.output sink.new) }
    ensures cause { CountsFaults (K.faults sink.old) (K.faults sink.new) result }
{
    text.put(sink, &map.name)?;
    text.put(sink, b" ")?;
    text.put(sink, &map.master)
}

/// The orders of the map with this number, at each server.
fn print_orders<K: Sink>(
    text: &mut TextBuffer,
    sink: &mut K,
    comparison: &Comparison,
    number: usize,
) -> Result<(), Failed>
    ensures puts { Puts (order_column number (comparison_view comparison.now).survey.orders
        ++ flat_map (order_column number) (comparison_view comparison.now).others) result text.old text.new
        (K.output sink.old) (K.output sink.new) }
    ensures cause { CountsFaults (K.faults sink.old) (K.faults sink.new) result }
{
    print_order(text, sink, &comparison.survey.orders, number)?;
    print_others(text, sink, &comparison.others, number)
}

/// The line of the map with this number.
fn print_line<K: Sink>(
    text: &mut TextBuffer,
    sink: &mut K,
    comparison: &Comparison,
    number: usize,
    map: &Mastered,
) -> Result<(), Failed>
    ensures puts { Puts (map_line (comparison_view comparison.now) (number, mastered_view map.now)) result
        text.old text.new (K.output sink.old) (K.output sink.new) }
    ensures cause { CountsFaults (K.faults sink.old) (K.faults sink.new) result }
{
    print_map(text, sink, map)?;
    print_orders(text, sink, comparison, number)?;
    text.put(sink, b"\n")
}

fn print_lines<K: Sink>(
    text: &mut TextBuffer,
    sink: &mut K,
    comparison: &Comparison,
) -> Result<(), Failed>
    ensures puts { Puts (comparison_text (comparison_view comparison.now)) result text.old text.new
        (K.output sink.old) (K.output sink.new) }
    ensures cause { CountsFaults (K.faults sink.old) (K.faults sink.new) result }
{
    for number in 0..comparison.survey.maps.len() {
        print_line(
            text,
            sink,
            comparison,
            number,
            &comparison.survey.maps[number],
        )?;
    }
    Ok(())
}

/// Whether all of these are the same orders as the first.
fn are_same(others: &[Vec<Option<Order>>], first: &[Option<Order>]) -> bool
    ensures { result ≡ list_all (λ orders. pointwise (option_eq nat_eq) orders.items first.now) others.now }
{
    others.iter().all(|orders| orders.as_slice() == first)
}

/// Whether each server has the orders of the first.
fn is_level(comparison: &Comparison) -> bool
    ensures { IsTrue result ↔ IsLevel (comparison_view comparison.now) }
{
    are_same(&comparison.others, &comparison.survey.orders)
}

/// Prints a line for each map, flushes, and tells whether all servers have the same orders.
pub fn print<K: Sink>(
    alloc: Global,
    comparison: &Comparison,
    sink: &mut K,
) -> Result<bool, QueryFault>
    ensures prints { PrintsComparison (Ok (comparison_view comparison.now)) result
        (K.output sink.old) (K.output sink.new) }
    ensures flushed { result ≢ Err QueryFault.Output → IsTrue (K.flushed sink.old) → IsTrue (K.flushed sink.new) }
    ensures cause { result ≡ Err QueryFault.Output → HasRisen (K.faults sink.old) (K.faults sink.new) }
    ensures faults { K.faults sink.old ≤ K.faults sink.new }
{
    let mut text = TextBuffer::new(alloc)?;
    match print_lines(&mut text, sink, comparison) {
        Ok(()) => {}
        Err(Failed) => return Err(QueryFault::Output),
    }
    match text.end(sink) {
        Ok(()) => Ok(is_level(comparison)),
        Err(Failed) => Err(QueryFault::Output),
    }
}
