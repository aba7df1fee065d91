// The limits of a head.

ghost use Rattle.std.specs.Prelude.{◌≡◌, ◌+◌, nat_le, sum_by};
ghost use Rattle.http_heads.specs.Fields.{line_length, room_beside};
ghost use Rattle.irule_http.specs.Heads.{holds, request_fits, request_with};
ghost use Rattle.http_answers.specs.Limits.{response_fits};
ghost use Rattle.irule_http.specs.Heads.{response_with, target_with};

use crate::Http;
use crate::form::is_response;
use event_order::EventName;
use http_heads::{Fields, RequestHead, RequestTarget, ResponseHead};
use px_bytes::Text;

/// The most bytes that the method, the target and the lines of the fields have together in a head of
/// 65,536: two blanks, the version and two line ends stand beside them.
const REQUEST_MOST: usize = 65_536 - 14;

/// The most bytes that the reason and the lines of the fields have together in one: the version, the
/// code, two blanks and two line ends stand beside them.
const RESPONSE_MOST: usize = 65_536 - 17;

// What is left of so many bytes beside the line of a field.
fn room_beside(room: usize, field: &(Text, Text)) -> Option<usize>
    ensures { result ≡ room_beside room (line_length field.now) }
{
    let room = room.checked_sub(field.0.len())?;
    let room = room.checked_sub(field.1.len())?;
    room.checked_sub(4)
}

// Whether the lines of the fields have at most so many bytes together.
fn lines_fit(most: usize, fields: &[(Text, Text)]) -> bool
    ensures { result ≡ nat_le (sum_by line_length fields.now) most }
{
    let mut room = most;
    for field in fields {
        match room_beside(room, field) {
            Some(rest) => room = rest,
            None => return false,
        }
    }
    true
}

// Whether two lengths and the lines of the fields are at most so many bytes together.
fn fits_beside(most: usize, first: usize, second: usize, fields: &[(Text, Text)]) -> bool
    ensures { result ≡ nat_le (first + second + sum_by line_length fields.now) most }
{
    if first > most || second > most - first {
        return false;
    }
    lines_fit(most - first - second, fields)
}

/// Whether a request's head with this target is within its limits.
pub(crate) fn target_fits(target: &RequestTarget, head: &RequestHead) -> bool
    ensures { result ≡ request_fits (target_with target.now head.now) }
{
    fits_beside(
        REQUEST_MOST,
        head.method.as_bytes().len(),
        target.as_bytes().len(),
        head.fields.as_slice(),
    )
}

fn request_holds(fields: &Fields, head: &RequestHead) -> bool
    ensures { result ≡ request_fits (request_with fields.now head.now) }
{
    fits_beside(
        REQUEST_MOST,
        head.method.as_bytes().len(),
        head.target.as_bytes().len(),
        fields.as_slice(),
    )
}

fn response_holds(fields: &Fields, head: &ResponseHead) -> bool
    ensures { result ≡ response_fits (response_with fields.now head.now) }
{
    fits_beside(
        RESPONSE_MOST,
        head.reason.as_bytes().len(),
        0,
        fields.as_slice(),
    )
}

/// Whether the head of the event's message is within its limits with these fields.
pub(crate) fn holds(event: EventName, fields: &Fields, state: &Http) -> bool
    ensures { result ≡ holds event fields.now state.now }
{
    match (is_response(event), &state.request, &state.response) {
        (true, _, Some(head)) => response_holds(fields, head),
        (false, Some(head), _) => request_holds(fields, head),
        _ => false,
    }
}
