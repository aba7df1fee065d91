// Where the end of a head stands.

ghost use Rattle.std.specs.Prelude.{◌≤◌, length, IfSome};
ghost use Rattle.memchr.specs.Find.{FindsNeedle, Nowhere, OccursAt};
ghost use Rattle.seg_buffer.specs.Bytes.{crlf2};

use memchr::memmem;

/// The first place of CR LF CR LF in a text, where it begins at no place before `from`: these aren't looked at again.
pub fn find_crlf2(text: &[u8], from: usize) -> Option<usize>
    requires inside { from ≤ length text.now }
    requires none { Nowhere (OccursAt text.now crlf2) 0 from }
    ensures place { FindsNeedle text.now crlf2 0 result }
    ensures behind { IfSome result (λ place. from ≤ place) }
{
    match memmem::find(&text[from..], b"\r\n\r\n") {
        Some(place) => Some(from + place),
        None => None,
    }
}
