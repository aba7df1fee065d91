// Where elements stand.

use px_bytes::Seq;

/// The range of an element's bytes in the text, without braces or quotes, and whether it stands in
/// braces.
#[derive(Clone, Copy, PartialEq, Eq)]
pub struct ElementPlace {
    pub start: usize,
    pub end: usize,
    pub braced: bool,
}

/// Places in order.
pub type ElementPlaces = Seq<ElementPlace>;
