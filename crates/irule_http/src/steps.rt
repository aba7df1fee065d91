// What each form does.

ghost use Rattle.std.specs.Prelude.{◌≡◌, ◌++◌};
ghost use Rattle.irule_net.specs.Answered.{CarriedOut};
ghost use Rattle.irule_http.specs.Commands.{bytes_of};
ghost use Rattle.irule_http.specs.Steps.{done};

use crate::Http;
use crate::answers::{redirects, responds};
use crate::edits::{
    no_value, puts_cookie, puts_field, removes_cookie, removes_field, sets_path, sets_uri,
};
use crate::form::Form;
use crate::payload::{PAYLOAD_LIMIT, collects, collects_word, releases, replaces};
use crate::told::told;
use event_order::EventName;
use px_bytes::{HostAnswer, Raise, Text};
use std::alloc::Global;

/// Does what a command of this name asks in a form with these words.
pub(crate) fn done(
    alloc: Global,
    state: &mut Http,
    event: EventName,
    name: &[u8],
    words: &[Text],
    form: Form,
    sent: &mut Text,
) -> Result<HostAnswer, Raise>
    ensures { CarriedOut (done event name.now words.now form state.old) result state.new
        (λ es. sent.new ≡ sent.old ++ bytes_of es) }
{
    match form {
        Form::SetUri => sets_uri(alloc, state, name, words),
        Form::SetPath => sets_path(alloc, state, name, words),
        Form::FieldInsert | Form::FieldReplace => {
            puts_field(alloc, state, event, form, name, words)
        }
        Form::FieldRemove => removes_field(alloc, state, event, name, words),
        Form::CookieInsert => puts_cookie(alloc, state, event, name, words),
        Form::CookieRemove => removes_cookie(alloc, state, event, name, words),
        Form::CollectAll => collects(alloc, state, name, PAYLOAD_LIMIT),
        Form::Collect => collects_word(alloc, state, name, words),
        Form::Release => releases(alloc, state, name),
        Form::Close => {
            state.closes = true;
            Ok(no_value(alloc))
        }
        Form::Replace => replaces(alloc, state, name, words),
        Form::Respond => responds(alloc, state, event, name, words, sent),
        Form::Redirect => redirects(alloc, state, event, name, words, sent),
        form => Ok(HostAnswer::Value(told(alloc, event, form, words, state)?)),
    }
}
