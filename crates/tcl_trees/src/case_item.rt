// An element of the braced word of a `switch`.

use px_bytes::Text;

/// An element: its value, the places of its bytes and of its brace or quote, and whether it stands
/// in braces.
#[derive(Drop)]
pub struct CaseItem {
    pub text: Text,
    pub start: usize,
    pub opener: usize,
    pub braced: bool,
}
