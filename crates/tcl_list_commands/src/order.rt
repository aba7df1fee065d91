// How a list is sorted, and what is compared.

use px_bytes::Text;

/// How a list is sorted: by whole numbers or byte by byte, which way, and whether of elements that
/// are equal only the last one is kept.
#[derive(Clone, Copy)]
pub(crate) struct Order {
    pub integer: bool,
    pub decreasing: bool,
    pub unique: bool,
}

/// An element, with the number that it is where numbers are compared.
#[derive(Drop)]
pub(crate) struct Item {
    pub number: i64,
    pub text: Text,
}
