// The words behind the number of a note's connection.

ghost use Rattle.std.specs.Prelude.{◌≡◌, List, ℕ, map, ◌∷◌, [], codes, find};
ghost use Rattle.std.specs.Fmt.{decimal};
ghost use Rattle.std.specs.Str.{bytes_eq};
ghost use Rattle.core_events.specs.declared.note.Cause.{Cause};
ghost use Rattle.px_bytes.specs.Address.{addr_text};
ghost use Rattle.px_bytes.specs.declared.addr.Addr.{Addr};
ghost use Rattle.journal_value.specs.Exact.{Anything, Exact};
ghost use Rattle.journal_value.specs.Words.{IsDest, IsLong, IsPortless, cause_words, every_plain};
ghost use Rattle.journal_value.specs.Words.{plain_text};

use crate::choices::{http_of, kind_of, reason_of};
use core_events::Cause;
use px_bytes::{Addr, read_addr, read_decimal, read_ip};

const PLAIN: [Cause; 4] = [
    Cause::Closed,
    Cause::Unselected,
    Cause::Rejected,
    Cause::Memory,
];

/// A number of 64 bits.
pub fn number_word(word: &[u8]) -> Option<u64>
    ensures { Exact ℕ (List ℕ) decimal IsLong word.now result }
{
    read_decimal(word, u64::MAX)
}

/// An address, whose port may be 0.
pub fn addr_word(word: &[u8]) -> Option<Addr>
    ensures { Exact Addr (List ℕ) addr_text IsDest word.now result }
{
    match read_addr(word) {
        Some(addr) => Some(addr),
        None => portless(word),
    }
}

// An address with port 0.
fn portless(word: &[u8]) -> Option<Addr>
    ensures { Exact Addr (List ℕ) addr_text IsPortless word.now result }
{
    let ip = read_ip(word.strip_suffix(b":0")?)?;
    Some(Addr { ip, port: 0 })
}

/// Why a connection finishes, by its one or two words.
pub fn cause_of(rest: &[&[u8]]) -> Option<Cause>
    ensures { Exact Cause (List (List ℕ)) cause_words Anything (map (λ w. w.now) rest.now) result }
{
    match rest {
        [word] => plain_cause(word),
        [word, more] => told_cause(word, more),
        _ => None,
    }
}

// A cause of one word.
fn plain_cause(word: &[u8]) -> Option<Cause>
    ensures { Exact Cause (List (List ℕ)) cause_words Anything (word.now ∷ []) result }
{
    plain_at(word)
}

fn plain_at(word: &[u8]) -> Option<Cause>
    ensures { result ≡ find (λ cause. bytes_eq (plain_text cause) word.now) every_plain }
{
    PLAIN
        .iter()
        .copied()
        .find(|cause| plain_text(*cause) == word)
}

fn plain_text(cause: Cause) -> &'static [u8]
    ensures { result.now ≡ plain_text cause }
{
    match cause {
        Cause::Closed => b"closed",
        Cause::Unselected => b"unselected",
        Cause::Rejected => b"rejected",
        Cause::Memory => b"memory",
        Cause::Tcl(_) | Cause::Http(_) | Cause::Cut(_) => b"",
    }
}

// A cause whose second word tells more.
fn told_cause(word: &[u8], more: &[u8]) -> Option<Cause>
    ensures { Exact Cause (List (List ℕ)) cause_words Anything (word.now ∷ more.now ∷ []) result }
{
    if word == b"tcl".as_slice() {
        return Some(Cause::Tcl(kind_of(more)?));
    }
    if word == b"http".as_slice() {
        return Some(Cause::Http(http_of(more)?));
    }
    if word == b"cut".as_slice() {
        return Some(Cause::Cut(reason_of(more)?));
    }
    None
}
