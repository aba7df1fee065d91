// Lists put in order.

ghost use Rattle.std.specs.Prelude.{◌≡◌, IfOk, Some};
ghost use Rattle.px_bytes.specs.Gives.{Gives};
ghost use Rattle.tcl_list_commands.specs.Items.{is_replaced, item_of, items_of, kept_items};
ghost use Rattle.tcl_list_commands.specs.Items.{ordered_items, texts_of};
ghost use Rattle.tcl_list_commands.specs.Sorting.{lsort_value, sorted_list};

use crate::items::{Items, compare};
use crate::options::order_of;
use crate::order::{Item, Order};
use crate::reading::elements;
use crate::writing::written;
use px_bytes::{M, Raise, Text, Texts, number};
use std::alloc::Global;

/// `lsort ?-ascii|-integer? ?-increasing|-decreasing? ?-unique? LIST`: the elements in order. Those
/// that are equal keep theirs, and with `-unique` the last of them alone is kept.
pub fn lsort(alloc: Global, arguments: &[Text]) -> Result<Text, Raise>
    ensures { Gives result (lsort_value arguments.now) }
{
    let [options @ .., list] = arguments else {
        return Raise::arity(alloc, b"lsort");
    };
    sorted_list(alloc, order_of(options), list.as_bytes())
}

fn sorted_list(alloc: Global, order: Option<Order>, list: &[u8]) -> Result<Text, Raise>
    ensures { Gives result (sorted_list order list.now) }
{
    let Some(order) = order else {
        return Raise::syntax(alloc, b"lsort");
    };
    let elements = elements(alloc, b"lsort", list)?;
    ordered_items(alloc, order, elements.as_slice())
}

fn ordered_items(alloc: Global, order: Order, elements: &[Text]) -> Result<Text, Raise>
    ensures { Gives result (ordered_items order elements.now) }
{
    let mut items = items_of(alloc, order.integer, elements)?;
    items.sort(order)?;
    written(alloc, &kept_texts(alloc, order, items.as_slice())?)
}

fn items_of(alloc: Global, integer: bool, elements: &[Text]) -> Result<Items, Raise>
    ensures { Gives result (items_of integer elements.now) }
{
    let mut items = Items::new(alloc);
    for element in elements {
        items.push(item_of(alloc, integer, element)?)?;
    }
    Ok(items)
}

fn item_of(alloc: Global, integer: bool, element: &Text) -> Result<Item, Raise>
    ensures { Gives result (item_of integer element.now) }
{
    let number = if integer {
        number(alloc, element.as_bytes())?
    } else {
        0
    };
    let text = element.copy()?;
    Ok(Item { number, text })
}

fn kept_texts(alloc: Global, order: Order, items: &[Item]) -> M<Texts>
    ensures { IfOk result (λ texts. texts ≡ texts_of (kept_items order items.now)) }
{
    let mut texts = Texts::new(alloc);
    let mut rest = items;
    while let [item, behind @ ..] = rest {
        if !is_replaced(order, item, behind) {
            texts.push(item.text.copy()?)?;
        }
        rest = behind;
    }
    Ok(texts)
}

// Whether a further item stands in place of this one.
fn is_replaced(order: Order, item: &Item, behind: &[Item]) -> bool
    ensures { result ≡ is_replaced order item.now behind.now }
{
    match behind {
        [next, ..] => order.unique && compare(order, item, next).is_eq(),
        [] => false,
    }
}
