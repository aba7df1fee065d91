// What is wanted of a text.

#[derive(Clone, Copy)]
pub(super) enum Wanted {
    Anything,
    Whole(&'static [u8]),
    /// A beginning of these bytes, but not all of them.
    PartOf(&'static [u8]),
    Begins(&'static [u8]),
    /// Both stand in it.
    Has(&'static [u8], &'static [u8]),
}

/// No byte at all.
pub(super) const EMPTY: Wanted = Wanted::Whole(b"");

impl Wanted {
    pub(super) fn is_met_by(self, text: &[u8]) -> bool {
        match self {
            Wanted::Anything => true,
            Wanted::Whole(whole) => text == whole,
            Wanted::PartOf(whole) => whole.starts_with(text) && text.len() < whole.len(),
            Wanted::Begins(start) => text.starts_with(start),
            Wanted::Has(one, other) => has(text, one) && has(text, other),
        }
    }
}

fn has(text: &[u8], part: &[u8]) -> bool {
    for at in 0..text.len() {
        if text[at..].starts_with(part) {
            return true;
        }
    }
    false
}
