// One element of a list.

ghost use Rattle.std.specs.Prelude.{◌≡◌, ◌+◌, ◌<◌, ◌^◌, IfOk, drop, length, slice_index};
ghost use Rattle.tcl_lists.specs.Element.{bare, element, enclosed, stands_alone, value_of};
ghost use Rattle.tcl_lists.specs.Element.{place_of};
ghost use Rattle.tcl_lists.specs.Seen.{seen, seen_found, Gives};

use crate::cut::{bare_len, brace_len, quote_len};
use crate::value::replaced;
use crate::{ElementPlace, ListFault};
use px_bytes::{M, Text, is_space};
use std::alloc::Global;

/// An element's bytes without braces or quotes, where they begin, and whether it is in braces.
#[derive(Clone, Copy)]
pub(crate) struct Element<'a> {
    pub raw: &'a [u8],
    pub start: usize,
    pub braced: bool,
}

/// The element's value: in braces its bytes, else with its escapes replaced.
pub(crate) fn value(alloc: Global, element: Element) -> M<Text>
    ensures { IfOk result (λ text. text ≡ value_of (seen element.entry)) }
{
    if element.braced {
        Text::new(alloc, element.raw)
    } else {
        replaced(alloc, element.raw)
    }
}

/// Where the element stands.
pub(crate) fn place(element: Element) -> ElementPlace
    requires { element.start + length element.raw.now < 2 ^ 64 }
    ensures { result ≡ place_of (seen element.entry) }
{
    ElementPlace {
        start: element.start,
        end: element.start + element.raw.len(),
        braced: element.braced,
    }
}

/// An element, and how many bytes behind its first it takes.
#[derive(Clone, Copy)]
pub(crate) struct Found<'a> {
    pub element: Element<'a>,
    pub more: usize,
}

/// The element whose first byte is at the place and begins the text.
pub(crate) fn read_element(at: usize, text: &[u8]) -> Result<Found<'_>, ListFault>
    requires some { 0 < length text.now }
    requires fits { at + length text.now < 2 ^ 64 }
    ensures { Gives (element at (slice_index text.now 0) (drop 1 text.now)) at (length text.now) result }
{
    let [first, rest @ ..] = text else {
        unreachable!();
    };
    match first {
        b'{' => enclosed(at, ListFault::OpenBrace(at), true, brace_len(rest), rest),
        b'"' => enclosed(at, ListFault::OpenQuote(at), false, quote_len(rest), rest),
        _ => Ok(bare(at, text)),
    }
}

// An element that begins with neither a brace nor a quote.
fn bare(at: usize, text: &[u8]) -> Found<'_>
    requires some { 0 < length text.now }
    ensures found { seen_found result ≡ bare at (slice_index text.now 0) (drop 1 text.now) }
    ensures within { result.more < length text.now }
{
    let more = bare_len(text);
    Found {
        element: Element {
            raw: &text[..more + 1],
            start: at,
            braced: false,
        },
        more,
    }
}

// The element whose brace or quote is at the place, and whose closing one stands behind `count`
// bytes of the rest.
fn enclosed(
    at: usize,
    fault: ListFault,
    braced: bool,
    count: usize,
    rest: &[u8],
) -> Result<Found<'_>, ListFault>
    requires { at + length rest.now + 1 < 2 ^ 64 }
    ensures { Gives (enclosed at fault braced count rest.now) at (length rest.now + 1) result }
{
    if count >= rest.len() {
        return Err(fault);
    }
    if !stands_alone(&rest[count + 1..]) {
        return Err(ListFault::Extra(at));
    }
    Ok(Found {
        element: Element {
            raw: &rest[..count],
            start: at + 1,
            braced,
        },
        more: count + 1,
    })
}

// White space or the end.
fn stands_alone(text: &[u8]) -> bool
    ensures { result ≡ stands_alone text.now }
{
    match text {
        [] => true,
        [first, ..] => is_space(*first),
    }
}
