// The fields that `httparse` found.

ghost use Rattle.std.specs.Prelude.{◌≡◌, ◌≤◌, IfOk, All, length, map, true};
ghost use Rattle.std.specs.List.{list_all};
ghost use Rattle.httparse.specs.Spans.{IsHeaderWithin, header_bytes};
ghost use Rattle.http_heads.specs.Fields.{is_field};

use crate::fields::Fields;
use httparse::spans::HeaderSpan;
use px_bytes::{M, Text};
use std::alloc::Global;

// The names and values that the spans cover.
fn pairs_at(alloc: Global, head: &[u8], spans: &[HeaderSpan]) -> M<Vec<(Text, Text)>>
    requires { All (IsHeaderWithin (length head.now)) spans.now }
    ensures { IfOk result (λ p. p.items ≡ map (header_bytes head.now) spans.now) }
{
    let mut pairs = Vec::new(alloc);
    for span in spans {
        let name = Text::new(alloc, span.name.of(head))?;
        let value = Text::new(alloc, span.value.of(head))?;
        pairs.push((name, value))?;
    }
    Ok(pairs)
}

/// The fields that the spans cover.
pub(crate) fn fields_at(alloc: Global, head: &[u8], spans: &[HeaderSpan]) -> M<Fields>
    requires within { All (IsHeaderWithin (length head.now)) spans.now }
    requires are_fields { list_all is_field (map (header_bytes head.now) spans.now) ≡ true }
    requires few { length spans.now ≤ 100 }
    ensures { IfOk result (λ f. f ≡ map (header_bytes head.now) spans.now) }
{
    let list = pairs_at(alloc, head, spans)?;
    Ok(Fields { list })
}
