// The end of a chunked body.

ghost use Rattle.std.specs.Prelude.{◌≡◌, ◌+◌, ◌-◌, ◌<◌, ◌≤◌, ◌^◌, drop, false, length, take, true};
ghost use Rattle.http_frames.specs.Looked.{IsEndOf, NoEnd, cr_before};
ghost use Rattle.http_frames.specs.Units.{IsEnd, begun, is_paired, may_follow, of_lines};
ghost use Rattle.http_frames.specs.Units.{open_trailers, waits, whole_trailers};

use crate::unit::Unit;
use px_bytes::HttpFault;
use seg_buffer::find_crlf2;

/// The most bytes of the trailers with their empty line.
const MOST_TRAILERS: usize = 60_000;

/// Nothing yet, where more may come.
pub(crate) fn waits(ended: bool) -> Unit
    ensures { result ≡ waits ended }
{
    if ended {
        Unit::Fault(HttpFault::ShortBody)
    } else {
        Unit::NotYet
    }
}

// How much of CR LF CR LF stands at the end.
fn begun(text: &[u8]) -> usize
    ensures value { result ≡ begun text.now }
    ensures within { result ≤ 3 }
{
    if text.ends_with(b"\r\n\r") {
        3
    } else if text.ends_with(b"\r\n") {
        2
    } else if text.ends_with(b"\r") {
        1
    } else {
        0
    }
}

// Whether a byte may stand there, behind a CR or not.
fn may_follow(behind: bool, byte: u8) -> bool
    ensures { result ≡ may_follow behind byte }
{
    if behind { byte == b'\n' } else { byte != b'\n' }
}

// Whether each CR and each LF behind a CR or not belongs to a CRLF, but for a CR at the end.
fn is_paired(behind: bool, text: &[u8]) -> bool
    ensures { result ≡ is_paired behind text.now }
{
    let mut after = behind;
    for byte in text {
        if !may_follow(after, *byte) {
            return false;
        }
        after = *byte == b'\r';
    }
    true
}

// Whether a CR stands before the place.
#[tactic(auto, using(crate::proofs::LookedOnce::cr_none, crate::proofs::LookedOnce::cr_some))]
fn is_behind_cr(text: &[u8], from: usize) -> bool
    requires { from ≤ length text.now }
    ensures { result ≡ cr_before false from text.now }
{
    if from == 0 {
        return false;
    }
    text[from - 1] == b'\r'
}

// Whether a text is made of lines, as it is before the place.
fn are_lines(text: &[u8], from: usize) -> bool
    requires inside { from ≤ length text.now }
    requires lines { is_paired false (take from text.now) ≡ true }
    ensures { result ≡ is_paired false text.now }
{
    is_paired(is_behind_cr(text, from), &text[from..])
}

// The unit, where it is.
fn of_lines(text: &[u8], from: usize, unit: Unit) -> Unit
    requires inside { from ≤ length text.now }
    requires lines { is_paired false (take from text.now) ≡ true }
    ensures { result ≡ of_lines text.now unit }
{
    if are_lines(text, from) {
        unit
    } else {
        Unit::Fault(HttpFault::BadChunk)
    }
}

// The end, whose CR LF CR LF stands at a place of the text, and this at a place of what is held.
fn whole_trailers(at: usize, text: &[u8], from: usize, place: usize) -> Unit
    requires behind { from ≤ place }
    requires lines { is_paired false (take from text.now) ≡ true }
    requires inside { place + 4 ≤ length text.now }
    requires fits { at + length text.now < 2 ^ 63 }
    ensures { result ≡ whole_trailers at text.now place }
{
    if place + 2 > MOST_TRAILERS {
        return Unit::Fault(HttpFault::BadChunk);
    }
    of_lines(&text[..place + 4], from, Unit::Finished(at + place + 4))
}

// Trailers whose end isn't there yet.
fn open_trailers(text: &[u8], from: usize, ended: bool) -> Unit
    requires inside { from ≤ length text.now }
    requires lines { is_paired false (take from text.now) ≡ true }
    ensures { result ≡ open_trailers text.now ended }
{
    if text.len() + (4 - begun(text)) > MOST_TRAILERS + 2 {
        return Unit::Fault(HttpFault::BadChunk);
    }
    of_lines(text, from, waits(ended))
}

// The end of a body in a text that begins with the CRLF of its last chunk line, which stands at a place.
fn end_behind(at: usize, text: &[u8], from: usize, ended: bool) -> Unit
    requires fits { at + length text.now < 2 ^ 63 }
    requires looked { NoEnd text.now from }
    ensures { IsEndOf at text.now ended result }
{
    match find_crlf2(text, from) {
        Some(place) => whole_trailers(at, text, from, place),
        None => open_trailers(text, from, ended),
    }
}

/// The end of a body, where the CRLF of its last chunk line stands at a place; so many bytes of what is held
/// were looked at, and held no end.
pub(crate) fn end_unit(at: usize, held: &[u8], looked: usize, ended: bool) -> Unit
    requires inside { at ≤ length held.now }
    requires looked { NoEnd (drop at held.now) (looked - (at + 3)) }
    ensures { IsEnd at held.now ended result }
{
    end_behind(at, &held[at..], looked.saturating_sub(at + 3), ended)
}
