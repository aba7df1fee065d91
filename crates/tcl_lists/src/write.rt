// Writing lists.

ghost use Rattle.std.specs.Prelude.{◌≡◌, ◌++◌, ◌<◌, IfOk, OnOk, Ok, length};
ghost use Rattle.std.specs.List.{position_or_len};
ghost use Rattle.tcl_lists.specs.Read.{list_values};
ghost use Rattle.tcl_lists.specs.Write.{blank_behind, escaped, is_special, joined, spelled};
ghost use Rattle.tcl_lists.specs.Write.{spelled_byte, spelled_bytes};

use crate::form::{escape_letter, fits_braces, is_special, stands_bare};
use px_bytes::{M, Text, Texts};
use std::alloc::Global;

/// The elements as a list, each written as it is, in braces or with backslashes, and with a blank
/// between each two. `split` reads it back.
pub fn join_list(alloc: Global, items: &Texts) -> M<Text>
    ensures written { IfOk result (λ text. text ≡ joined items.now) }
    ensures reads_back { IfOk result (λ text. list_values text ≡ Ok items.now) }
{
    let mut out = Text::empty(alloc);
    for (at, item) in items.as_slice().iter().enumerate() {
        push_blank(&mut out, at)?;
        push_element(&mut out, item.as_bytes())?;
    }
    Ok(out)
}

// Adds a blank where elements are written already.
fn push_blank(out: &mut Text, written: usize) -> M<()>
    ensures { OnOk result (out.new ≡ out.old ++ blank_behind written) }
{
    if written == 0 {
        return Ok(());
    }
    out.push(b" ")
}

// Adds an element as it is written.
fn push_element(out: &mut Text, element: &[u8]) -> M<()>
    ensures { OnOk result (out.new ≡ out.old ++ spelled element.now) }
{
    if element.is_empty() {
        return out.push(b"{}");
    }
    if stands_bare(element) {
        return out.push(element);
    }
    if fits_braces(element) {
        out.push(b"{")?;
        out.push(element)?;
        return out.push(b"}");
    }
    push_escaped(out, element)
}

// Adds an element with backslashes.
fn push_escaped(out: &mut Text, element: &[u8]) -> M<()>
    ensures { OnOk result (out.new ≡ out.old ++ escaped element.now) }
{
    match element {
        [b'#', rest @ ..] => {
            out.push(b"\\#")?;
            push_bytes(out, rest)
        }
        _ => push_bytes(out, element),
    }
}

// Adds bytes, each special one with a backslash before it.
fn push_bytes(out: &mut Text, bytes: &[u8]) -> M<()>
    ensures { OnOk result (out.new ≡ out.old ++ spelled_bytes bytes.now) }
{
    let mut rest = bytes;
    loop {
        let (plain, other) = rest.split_at(plain_len(rest));
        out.push(plain)?;
        let [byte, behind @ ..] = other else {
            return Ok(());
        };
        out.push(&[b'\\', escape_letter(*byte)])?;
        rest = behind;
    }
}

// How many bytes stand before the first special one.
fn plain_len(bytes: &[u8]) -> usize
    ensures { result ≡ position_or_len is_special bytes.now }
{
    bytes
        .iter()
        .position(|byte| is_special(*byte))
        .unwrap_or(bytes.len())
}
