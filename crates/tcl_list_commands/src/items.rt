// Elements that are put in order.

ghost use Rattle.std.specs.Prelude.{◌≡◌, [], ◌∷◌, ◌++◌, OnOk};
ghost use Rattle.tcl_list_commands.specs.Items.{item_compared};
ghost use Rattle.tcl_list_commands.specs.Sorted.{sorted};

use crate::order::{Item, Order};
use px_bytes::M;
use std::alloc::Global;
use std::cmp::Ordering;
use std::marker::Model;

/// Elements, which contracts see as a list.
#[derive(Drop)]
pub(crate) struct Items {
    items: Vec<Item>,
}

impl Model for Items {
    ghost use Rattle.std.specs.Prelude.{List};
    ghost use Rattle.tcl_list_commands.specs.declared.order.Item.{Item};

    ghost Value = { List Item };

    ghost view = { λ i. i.items.items };
}

impl Items {
    pub(crate) fn new(alloc: Global) -> Items
        ensures { result ≡ [] }
    {
        Items {
            items: Vec::new(alloc),
        }
    }

    pub(crate) fn as_slice(&self) -> &[Item]
        ensures { result.now ≡ self.now }
    {
        &self.items
    }

    pub(crate) fn push(&mut self, item: Item) -> M<()>
        ensures { OnOk result (self.new ≡ self.old ++ item ∷ []) }
    {
        self.items.push(item)?;
        Ok(())
    }

    /// Puts them in order; those that are equal keep theirs.
    pub(crate) fn sort(&mut self, order: Order) -> M<()>
        ensures { OnOk result (self.new ≡ sorted (item_compared order) self.old) }
    {
        self.items.sort_by(|x, y| compare(order, x, y))?;
        Ok(())
    }
}

/// How two elements compare in this order.
pub(crate) fn compare(order: Order, x: &Item, y: &Item) -> Ordering
    ensures { result ≡ item_compared order x.now y.now }
{
    let rising = if order.integer {
        x.number.cmp(&y.number)
    } else {
        x.text.as_bytes().cmp(y.text.as_bytes())
    };
    if order.decreasing {
        rising.reverse()
    } else {
        rising
    }
}
