// The next element of what is left of a text.

ghost use Rattle.std.specs.Prelude.{◌≡◌, ◌+◌, ◌<◌, ◌≤◌, ◌^◌, length};
ghost use Rattle.tcl_lists.specs.Seen.{IsNext, IsWithoutWhite};

use crate::ListFault;
use crate::element::{Element, read_element};
use px_bytes::is_space;

/// What is left of a text, and its place.
#[derive(Clone, Copy)]
pub(crate) struct Rest<'a> {
    pub text: &'a [u8],
    pub at: usize,
}

/// An element, and what stands behind it.
#[derive(Clone, Copy)]
pub(crate) struct Next<'a> {
    pub element: Element<'a>,
    pub rest: Rest<'a>,
}

/// The next element; none at the text's end.
pub(crate) fn next_element(rest: Rest<'_>) -> Result<Option<Next<'_>>, ListFault>
    requires { rest.at + length rest.text.now < 2 ^ 64 }
    ensures { IsNext rest.entry.text.now rest.entry.at result }
{
    let Rest { text, at } = without_white(rest);
    if text.is_empty() {
        return Ok(None);
    }
    let found = read_element(at, text)?;
    Ok(Some(Next {
        element: found.element,
        rest: Rest {
            text: &text[found.more + 1..],
            at: at + found.more + 1,
        },
    }))
}

// What is left behind the white space at the front.
fn without_white(rest: Rest<'_>) -> Rest<'_>
    requires { rest.at + length rest.text.now < 2 ^ 64 }
    ensures { IsWithoutWhite rest.entry result }
{
    let Rest { mut text, mut at } = rest;
    while let [first, behind @ ..] = text {
        if !is_space(*first) {
            break;
        }
        text = behind;
        at += 1;
    }
    Rest { text, at }
}
