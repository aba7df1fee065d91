// Elements that are found by their text.

ghost use Rattle.std.specs.Prelude.{◌≡◌, IfOk, position};
ghost use Rattle.px_bytes.specs.Gives.{Gives};
ghost use Rattle.tcl_list_commands.specs.Searching.{found, lsearch_value, place_text, search_of};
ghost use Rattle.tcl_list_commands.specs.Searching.{suits};

use crate::reading::elements;
use crate::writing::printed;
use px_bytes::{M, Raise, Text, glob};
use std::alloc::Global;

/// How an element is compared with what is searched.
#[derive(Clone, Copy)]
pub(crate) enum Search {
    Exact,
    Glob,
}

/// `lsearch ?-exact|-glob? LIST PATTERN`: the place of the first element that matches, or -1. The
/// pattern is a glob pattern unless `-exact` says that it is the element itself.
pub fn lsearch(alloc: Global, arguments: &[Text]) -> Result<Text, Raise>
    ensures { Gives result (lsearch_value arguments.now) }
{
    match arguments {
        [list, pattern] => found(
            alloc,
            Some(Search::Glob),
            list.as_bytes(),
            pattern.as_bytes(),
        ),
        [option, list, pattern] => {
            let search = search_of(option.as_bytes());
            found(alloc, search, list.as_bytes(), pattern.as_bytes())
        }
        _ => Raise::arity(alloc, b"lsearch"),
    }
}

fn search_of(option: &[u8]) -> Option<Search>
    ensures { result ≡ search_of option.now }
{
    if option == b"-exact".as_slice() {
        return Some(Search::Exact);
    }
    if option == b"-glob".as_slice() {
        return Some(Search::Glob);
    }
    None
}

// The place where a list is searched so; an option that is none is a syntax error.
fn found(alloc: Global, search: Option<Search>, list: &[u8], pattern: &[u8]) -> Result<Text, Raise>
    ensures { Gives result (found search list.now pattern.now) }
{
    let Some(search) = search else {
        return Raise::syntax(alloc, b"lsearch");
    };
    let elements = elements(alloc, b"lsearch", list)?;
    let place = first_place(search, elements.as_slice(), pattern);
    Ok(place_text(alloc, place)?)
}

fn first_place(search: Search, elements: &[Text], pattern: &[u8]) -> Option<usize>
    ensures { result ≡ position (suits search pattern.now) elements.now }
{
    elements
        .iter()
        .position(|element| suits(search, pattern, element.as_bytes()))
}

fn suits(search: Search, pattern: &[u8], element: &[u8]) -> bool
    ensures { result ≡ suits search pattern.now element.now }
{
    match search {
        Search::Exact => pattern == element,
        Search::Glob => glob(pattern, element),
    }
}

fn place_text(alloc: Global, place: Option<usize>) -> M<Text>
    ensures { IfOk result (λ text. text ≡ place_text place) }
{
    match place {
        Some(place) => printed(alloc, place),
        None => Text::new(alloc, b"-1"),
    }
}
