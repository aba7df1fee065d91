// The options of `lsort`.

ghost use Rattle.std.specs.Prelude.{◌≡◌, Some};
ghost use Rattle.tcl_list_commands.specs.Options.{order_by, plain, with_option};

use crate::order::Order;
use px_bytes::Text;

/// How options ask a list to be sorted, a later one winning over an earlier one; none where one of
/// them is no option.
pub(crate) fn order_of(options: &[Text]) -> Option<Order>
    ensures { result ≡ order_by (Some plain) options.now }
{
    let mut order = Order {
        integer: false,
        decreasing: false,
        unique: false,
    };
    for option in options {
        order = with_option(order, option.as_bytes())?;
    }
    Some(order)
}

fn with_option(order: Order, option: &[u8]) -> Option<Order>
    ensures { result ≡ with_option order option.now }
{
    if option == b"-ascii".as_slice() {
        return Some(Order {
            integer: false,
            ..order
        });
    }
    if option == b"-integer".as_slice() {
        return Some(Order {
            integer: true,
            ..order
        });
    }
    if option == b"-increasing".as_slice() {
        return Some(Order {
            decreasing: false,
            ..order
        });
    }
    if option == b"-decreasing".as_slice() {
        return Some(Order {
            decreasing: true,
            ..order
        });
    }
    if option == b"-unique".as_slice() {
        return Some(Order {
            unique: true,
            ..order
        });
    }
    None
}
