// Texts of notes: in hexadecimal, as lists, with escapes.

ghost use Rattle.std.specs.Prelude.{◌≡◌, ◌↔◌, ◌∷◌, ◌<◌, ◌≤◌, codes, IfOk, length, List, None, true, ℕ};
ghost use Rattle.px_bytes.specs.Escapes.{escaped};
ghost use Rattle.px_bytes.specs.Hexadecimal.{hex_text};
ghost use Rattle.tcl_lists.specs.Write.{joined};
ghost use Rattle.journal_value.specs.Exact.{Exact};
ghost use Rattle.journal_value.specs.Unescaped.{nibble, unescaped};
ghost use Rattle.journal_value.specs.Words.{AreBytes, IsCall, call_text};

use px_bytes::{M, Memory, Text, Texts, escape, print_hex, read_hex};
use std::alloc::Global;
use tcl_lists::{ListFault, join_list, split};

/// The bytes of a word in hexadecimal, with digits in lower case; `-` stands for no bytes.
pub fn hex_word(alloc: Global, word: &[u8]) -> M<Option<Text>>
    ensures { IfOk result (Exact (List ℕ) (List ℕ) hex_text AreBytes word.now) }
{
    if is_dash(word) {
        Ok(Some(Text::empty(alloc)))
    } else {
        pairs_word(alloc, word)
    }
}

fn is_dash(word: &[u8]) -> bool
    ensures { (result ≡ true) ↔ (word.now ≡ codes "-") }
{
    word == b"-".as_slice()
}

// The bytes of pairs of digits.
fn pairs_word(alloc: Global, word: &[u8]) -> M<Option<Text>>
    requires { ¬ (word.now ≡ codes "-") }
    ensures { IfOk result (Exact (List ℕ) (List ℕ) hex_text AreBytes word.now) }
{
    let Some(bytes) = read_hex(alloc, word)? else {
        return Ok(None);
    };
    let same = is_hex_of(alloc, &bytes, word)?;
    Ok(same.then_some(bytes))
}

fn is_hex_of(alloc: Global, bytes: &Text, word: &[u8]) -> M<bool>
    ensures { IfOk result (λ same. (same ≡ true) ↔ (hex_text bytes.now ≡ word.now)) }
{
    let text = print_hex(alloc, bytes.as_bytes())?;
    Ok(text.as_bytes() == word)
}

/// The words of a call, from the list that is written in hexadecimal.
pub fn call_word(alloc: Global, word: &[u8]) -> M<Option<Texts>>
    ensures { IfOk result (Exact (List (List ℕ)) (List ℕ) call_text IsCall word.now) }
{
    match hex_word(alloc, word)? {
        Some(text) => call_of(alloc, &text),
        None => Ok(None),
    }
}

// The words of a call, from its list.
fn call_of(alloc: Global, text: &Text) -> M<Option<Texts>>
    ensures { IfOk result (Exact (List (List ℕ)) (List ℕ) joined IsCall text.now) }
{
    match split(alloc, text.as_bytes()) {
        Ok(call) => {
            let same = is_list_of(alloc, &call, text)?;
            Ok(same.then_some(call))
        }
        Err(fault) => no_call(fault),
    }
}

// No call is written so, unless memory was refused.
fn no_call(fault: ListFault) -> M<Option<Texts>>
    ensures none { IfOk result (λ call. call ≡ None) }
    ensures found_memory { IfOk result (λ call. ¬ (fault ≡ ListFault.Memory)) }
{
    match fault {
        ListFault::Memory => Err(Memory),
        _ => Ok(None),
    }
}

fn is_list_of(alloc: Global, call: &Texts, text: &Text) -> M<bool>
    ensures { IfOk result (λ same. (same ≡ true) ↔ (joined call.now ≡ text.now)) }
{
    let list = join_list(alloc, call)?;
    Ok(list.as_bytes() == text.as_bytes())
}

/// The bytes that were written with escapes as this text.
pub fn escaped_text(alloc: Global, text: &[u8]) -> M<Option<Text>>
    ensures { IfOk result (Exact (List ℕ) (List ℕ) escaped AreBytes text.now) }
{
    let bytes = unescaped(alloc, text)?;
    let same = is_escape_of(alloc, &bytes, text)?;
    Ok(same.then_some(bytes))
}

fn is_escape_of(alloc: Global, bytes: &Text, text: &[u8]) -> M<bool>
    ensures { IfOk result (λ same. (same ≡ true) ↔ (escaped bytes.now ≡ text.now)) }
{
    let written = escape(alloc, bytes.as_bytes())?;
    Ok(written.as_bytes() == text)
}

// Each `\x` with two digits as its byte, and each other byte as it is.
fn unescaped(alloc: Global, text: &[u8]) -> M<Text>
    ensures { IfOk result (λ bytes. bytes ≡ unescaped text.now) }
{
    let mut out = Vec::with_capacity(alloc, text.len())?;
    let mut rest = text;
    while let [byte, more @ ..] = rest {
        let (byte, after) = next_byte(*byte, more);
        out.push(byte)?;
        rest = after;
    }
    Ok(Text::from_vec(out))
}

// The byte that stands first, and what stands behind it.
fn next_byte(byte: u8, more: &[u8]) -> (u8, &[u8])
    ensures first { unescaped (byte ∷ more.now) ≡ result.0 ∷ unescaped result.1.now }
    ensures shorter { length result.1.now ≤ length more.now }
{
    match more {
        [_, high, low, after @ ..] if byte == b'\\' => (16 * nibble(*high) + nibble(*low), after),
        _ => (byte, more),
    }
}

// The number of a hexadecimal digit in lower case, and some number below 16 for another byte.
fn nibble(digit: u8) -> u8
    ensures number { result ≡ nibble digit }
    ensures small { result < 16 }
{
    let first = if digit < b'a' { b'0' } else { b'a' - 10 };
    digit.saturating_sub(first) % 16
}
