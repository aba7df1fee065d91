// Reading lists.

ghost use Rattle.tcl_lists.specs.Grammar.{SplitsList};
ghost use Rattle.tcl_lists.specs.Read.{Answers, list_places, list_values};

use crate::element::{place, value};
use crate::rest::{Rest, next_element};
use crate::{ElementPlaces, ListFault};
use px_bytes::Texts;
use std::alloc::Global;

/// The values of a list's elements, or the fault of the first bad one.
pub fn split(alloc: Global, text: &[u8]) -> Result<Texts, ListFault>
    ensures value { Answers (list_values text.now) result }
    ensures grammar { SplitsList text.now result }
{
    values(alloc, text)
}

fn values(alloc: Global, text: &[u8]) -> Result<Texts, ListFault>
    ensures { Answers (list_values text.now) result }
{
    let mut texts = Texts::new(alloc);
    let mut rest = Rest { text, at: 0 };
    while let Some(next) = next_element(rest)? {
        texts.push(value(alloc, next.element)?)?;
        rest = next.rest;
    }
    Ok(texts)
}

/// Where a list's elements stand, or the fault of the first bad one: the same elements as `split`
/// gives, and the same faults.
pub fn places(alloc: Global, text: &[u8]) -> Result<ElementPlaces, ListFault>
    ensures { Answers (list_places text.now) result }
{
    let mut places = ElementPlaces::new(alloc);
    let mut rest = Rest { text, at: 0 };
    while let Some(next) = next_element(rest)? {
        places.push(place(next.element))?;
        rest = next.rest;
    }
    Ok(places)
}
