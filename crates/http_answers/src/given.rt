// The fields that an answer is given.

ghost use Rattle.std.specs.Prelude.{◌≡◌, ◌++◌, false, length, IfOk, OnOk};
ghost use Rattle.std.specs.List.{list_all};
ghost use Rattle.http_heads.specs.Fields.{is_field};
ghost use Rattle.http_heads.specs.Written.{lines_of};
ghost use Rattle.http_answers.specs.Answers.{gives_close, is_close, is_framing, is_written};
ghost use Rattle.http_answers.specs.Answers.{written_given};
ghost use Rattle.http_answers.specs.Options.{pairs_of};

use http_heads::{is_field, put_field};
use px_bytes::{M, Text, same_name};

/// Whether names and values may be those of fields.
pub fn are_fields(words: &[Text]) -> bool
    ensures { result ≡ list_all is_field (pairs_of words.now) }
{
    let mut rest = words;
    while let [name, value, behind @ ..] = rest {
        if !is_field(name.as_bytes(), value.as_bytes()) {
            return false;
        }
        rest = behind;
    }
    true
}

// Whether it is `Connection: close`.
fn is_close(name: &[u8], value: &[u8]) -> bool
    ensures { result ≡ is_close (name.now, value.now) }
{
    same_name(name, b"connection") && same_name(value, b"close")
}

/// Whether a `Connection: close` is given.
pub fn gives_close(words: &[Text]) -> bool
    ensures { result ≡ gives_close (pairs_of words.now) }
{
    let mut rest = words;
    while let [name, value, behind @ ..] = rest {
        if is_close(name.as_bytes(), value.as_bytes()) {
            return true;
        }
        rest = behind;
    }
    false
}

// Whether it is a length or a coding.
fn is_framing(name: &[u8], value: &[u8]) -> bool
    ensures { result ≡ is_framing (name.now, value.now) }
{
    same_name(name, b"content-length") || same_name(name, b"transfer-encoding")
}

// Whether a given field is written, by whether a `Connection: close` was.
fn is_written(closed: bool, name: &[u8], value: &[u8]) -> bool
    ensures { result ≡ is_written closed (name.now, value.now) }
{
    !is_framing(name, value) && !(closed && is_close(name, value))
}

/// Writes the lines of the given fields that an answer has; tells how many these are.
pub(crate) fn put_given(out: &mut Vec<u8>, words: &[Text]) -> M<usize>
    ensures text { OnOk result (out.new.items
        ≡ out.old.items ++ lines_of (written_given false (pairs_of words.now))) }
    ensures count { IfOk result (λ n. n ≡ length (written_given false (pairs_of words.now))) }
{
    let mut count = 0;
    let mut closed = false;
    let mut rest = words;
    while let [name, value, behind @ ..] = rest {
        if is_written(closed, name.as_bytes(), value.as_bytes()) {
            put_field(out, name.as_bytes(), value.as_bytes())?;
            count += 1;
        }
        closed = closed || is_close(name.as_bytes(), value.as_bytes());
        rest = behind;
    }
    Ok(count)
}
