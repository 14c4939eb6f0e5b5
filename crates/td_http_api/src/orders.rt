//! The order of tuples that a body asks for.

ghost use Rattle.std.specs.Prelude.{◌≡◌, IfOk, IfSome, option_and_then, option_copied};
ghost use Rattle.json.specs.Find.{as_str, at};
ghost use Rattle.json.specs.Value.{value_view};
ghost use Rattle.td_http_api.specs.Orders.{HasOrder, IsOrderBy, ListsOrders, direction_text};

use crate::calls::OrderBy;
use crate::fault::Fault;
use crate::members::Member;
use json::Value;
use std::alloc::Global;

/// The most attributes of an order.
const MOST_ORDERS: usize = 16;

// The text at an index of a list.
fn text_at<'a>(list: &Value<'a>, index: usize) -> Option<&'a str>
    ensures { option_copied result ≡ option_and_then as_str (at index (value_view list.now)) }
{
    match list.at(index) {
        None => None,
        Some(value) => value.as_str(),
    }
}

// Whether a word is the direction down; none if it is no direction.
fn is_down(word: &str) -> Option<bool>
    ensures { IfSome result (λ is_descending. word.now ≡ direction_text is_descending) }
{
    match word {
        "up" => Some(false),
        "down" => Some(true),
        _ => None,
    }
}

// An attribute and its direction.
fn order_by(alloc: Global, pair: &Value<'_>) -> Result<OrderBy, Fault<'static>>
    ensures { IfOk result (IsOrderBy (value_view pair.now)) }
{
    let no_order = Fault::NoOrder(Member::Order.name());
    let (Some(attribute), Some(word), None) = (text_at(pair, 0), text_at(pair, 1), pair.at(2))
    else {
        return Err(no_order);
    };
    let Some(is_descending) = is_down(word) else {
        return Err(no_order);
    };
    Ok(OrderBy {
        attribute: String::from_str(alloc, attribute)?,
        is_descending,
    })
}

// Each attribute of a list, with its direction.
fn read_orders(alloc: Global, list: &Value<'_>) -> Result<Vec<OrderBy>, Fault<'static>>
    ensures { IfOk result (λ orders. ListsOrders 0 (value_view list.now) orders.items) }
{
    if !matches!(list, Value::Array(_)) {
        return Err(Fault::NoOrder(Member::Order.name()));
    }
    let mut orders = Vec::new(alloc);
    for index in 0..=MOST_ORDERS {
        let Some(pair) = list.at(index) else {
            return Ok(orders);
        };
        let order = order_by(alloc, pair)?;
        match orders.push(order) {
            Ok(()) => {}
            Err(_) => return Err(Fault::Memory),
        }
    }
    Err(Fault::ManyOrders(Member::Order.name()))
}

/// The order that a body asks for; none of its attributes if it asks for none.
pub(crate) fn order_of(alloc: Global, body: &Value<'_>) -> Result<Vec<OrderBy>, Fault<'static>>
    ensures { IfOk result (λ orders. HasOrder (value_view body.now) orders.items) }
{
    match body.get(Member::Order.name()) {
        None => Ok(Vec::new(alloc)),
        Some(list) => read_orders(alloc, list),
    }
}
