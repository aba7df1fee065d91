// The message of an event.

ghost use Rattle.std.specs.Prelude.{◌≡◌, option_map};
ghost use Rattle.irule_http.specs.Heads.{left_with};
ghost use Rattle.irule_http.specs.State.{fields_here};

use crate::Http;
use crate::form::is_response;
use event_order::EventName;
use http_heads::Fields;

/// The fields of the event's message.
pub(crate) fn fields_here(event: EventName, state: &Http) -> Option<&Fields>
    ensures { option_map (λ fields. fields.now) result ≡ fields_here event state.now }
{
    match (is_response(event), &state.request, &state.response) {
        (true, _, Some(head)) => Some(&head.fields),
        (false, Some(head), _) => Some(&head.fields),
        _ => None,
    }
}

/// Puts fields in place of those of the event's message.
pub(crate) fn leave(event: EventName, fields: Fields, state: &mut Http)
    ensures { state.new ≡ left_with event fields state.old }
{
    if is_response(event) {
        if let Some(head) = &mut state.response {
            head.fields = fields;
        }
    } else if let Some(head) = &mut state.request {
        head.fields = fields;
    }
}
