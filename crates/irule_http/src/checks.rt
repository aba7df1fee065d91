// The tests that come first at each HTTP command.

ghost use Rattle.std.specs.Prelude.{◌≡◌};
ghost use Rattle.px_bytes.specs.Gives.{Gives};
ghost use Rattle.irule_http.specs.Checks.{checked, placed, shaped};
ghost use Rattle.irule_http.specs.State.{is_there};
ghost use Rattle.irule_net.specs.Checks.{allows, command_of};

use crate::Http;
use crate::faults::not_here;
use crate::form::{Form, arity_fits, form_of, is_response, runs_in, some_fits};
use event_order::{EventName, HostCommand, read_command};
use px_bytes::{Raise, Text};
use std::alloc::Global;

/// The host command of a name.
pub(crate) fn command_of(name: &[u8]) -> Option<HostCommand>
    ensures { result ≡ command_of name.now }
{
    read_command(name)
}

fn allows(command: HostCommand, event: EventName) -> bool
    ensures { result ≡ allows command event }
{
    command.is_allowed(event)
}

// Whether the event's message is there.
fn is_there(event: EventName, state: &Http) -> bool
    ensures { result ≡ is_there event state.now }
{
    state.request.is_some() && (!is_response(event) || state.response.is_some())
}

/// The form of a command with these words in an event.
pub(crate) fn checked(
    alloc: Global,
    command: HostCommand,
    event: EventName,
    state: &Http,
    words: &[Text],
) -> Result<Form, Raise>
    ensures { Gives result (checked command event state.now words.now) }
{
    if !allows(command, event) || !is_there(event, state) {
        return not_here(alloc, command.name());
    }
    let form = shaped(alloc, command, form_of(command, words), words.len())?;
    placed(alloc, command, event, form)
}

fn shaped(
    alloc: Global,
    command: HostCommand,
    form: Option<Form>,
    count: usize,
) -> Result<Form, Raise>
    ensures { Gives result (shaped command form count) }
{
    match form {
        Some(form) if arity_fits(form, count) => Ok(form),
        None if some_fits(command, count) => Raise::syntax(alloc, command.name()),
        _ => Raise::arity(alloc, command.name()),
    }
}

fn placed(alloc: Global, command: HostCommand, event: EventName, form: Form) -> Result<Form, Raise>
    ensures { Gives result (placed command event form) }
{
    if runs_in(form, event) {
        Ok(form)
    } else {
        not_here(alloc, command.name())
    }
}
