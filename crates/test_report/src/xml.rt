// Texts in XML.

ghost use Rattle.std.specs.Prelude.{◌≡◌, ◌∷◌, IfOk, flat_map};
ghost use Rattle.test_report.specs.Report.{failure_head, failure_text, xml, xml_byte, xml_line};
ghost use Rattle.test_report.specs.Report.{xml_lines};

use crate::ascii::ascii;
use crate::joined::joined;
use px_bytes::{M, Text};
use std::alloc::Global;

fn xml_byte(alloc: Global, byte: u8) -> M<Text>
    ensures { IfOk result (λ text. text ≡ xml_byte byte) }
{
    match byte {
        b'&' => Text::new(alloc, b"&amp;"),
        b'<' => Text::new(alloc, b"&lt;"),
        b'>' => Text::new(alloc, b"&gt;"),
        b'"' => Text::new(alloc, b"&quot;"),
        _ => Text::new(alloc, &[byte]),
    }
}

fn escaped(alloc: Global, bytes: &[u8]) -> M<Text>
    ensures { IfOk result (λ text. text ≡ flat_map xml_byte bytes.now) }
{
    let mut text = Text::empty(alloc);
    for byte in bytes {
        let part = xml_byte(alloc, *byte)?;
        text.push(part.as_bytes())?;
    }
    Ok(text)
}

/// A text of XML that is these bytes, as ASCII.
pub(crate) fn xml(alloc: Global, bytes: &[u8]) -> M<Text>
    ensures { IfOk result (λ text. text ≡ xml bytes.now) }
{
    let shown = ascii(alloc, bytes)?;
    escaped(alloc, shown.as_bytes())
}

fn xml_line(alloc: Global, line: &[u8]) -> M<Text>
    ensures { IfOk result (λ text. text ≡ xml_line line.now) }
{
    let shown = xml(alloc, line)?;
    joined(alloc, &[b"\n", shown.as_bytes()])
}

fn xml_lines(alloc: Global, lines: &[Text]) -> M<Text>
    ensures { IfOk result (λ text. text ≡ xml_lines lines.now) }
{
    let mut text = Text::empty(alloc);
    for line in lines {
        let part = xml_line(alloc, line.as_bytes())?;
        text.push(part.as_bytes())?;
    }
    Ok(text)
}

fn failure_head(alloc: Global, line: &[u8]) -> M<Text>
    ensures { IfOk result (λ text. text ≡ failure_head line.now) }
{
    let message = xml(alloc, line)?;
    joined(
        alloc,
        &[b"      <failure message=\"", message.as_bytes(), b"\">"],
    )
}

fn failure_of(alloc: Global, line: &[u8], lines: &[Text]) -> M<Text>
    ensures { IfOk result (λ text. text ≡ failure_text (line.now ∷ lines.now)) }
{
    let head = failure_head(alloc, line)?;
    let first = xml(alloc, line)?;
    let rest = xml_lines(alloc, lines)?;
    joined(
        alloc,
        &[
            head.as_bytes(),
            first.as_bytes(),
            rest.as_bytes(),
            b"</failure>\n",
        ],
    )
}

/// The element of a failure that is told by these lines.
pub(crate) fn failure_text(alloc: Global, lines: &[Text]) -> M<Text>
    ensures { IfOk result (λ text. text ≡ failure_text lines.now) }
{
    match lines {
        [] => Text::new(alloc, b"      <failure/>\n"),
        [first, rest @ ..] => failure_of(alloc, first.as_bytes(), rest),
    }
}
