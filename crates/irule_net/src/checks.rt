// The tests that come first at each network command.

ghost use Rattle.std.specs.Prelude.{◌≡◌};
ghost use Rattle.px_bytes.specs.Gives.{Gives};
ghost use Rattle.irule_net.specs.Checks.{allows, checked, command_of, shaped};

use crate::faults::not_here;
use crate::form::{Form, arity_fits, form_of, some_fits, without_http};
use event_order::{EventName, HostCommand, read_command};
use px_bytes::{Raise, Text};
use std::alloc::Global;

/// The host command of a name.
pub(crate) fn command_of(name: &[u8]) -> Option<HostCommand>
    ensures { result ≡ command_of name.now }
{
    read_command(name)
}

fn allows(command: HostCommand, event: EventName) -> bool
    ensures { result ≡ allows command event }
{
    command.is_allowed(event)
}

/// The form of a command with these words in an event: the event is tested first, then whether the
/// virtual server has HTTP, the number of words, and whether the word that is to name a form does.
pub(crate) fn checked(
    alloc: Global,
    command: HostCommand,
    http: bool,
    event: EventName,
    words: &[Text],
) -> Result<Form, Raise>
    ensures { Gives result (checked command http event words.now) }
{
    if !allows(command, event) || (http && without_http(command)) {
        return not_here(alloc, command.name());
    }
    shaped(alloc, command, form_of(command, words), words.len())
}

fn shaped(
    alloc: Global,
    command: HostCommand,
    form: Option<Form>,
    count: usize,
) -> Result<Form, Raise>
    ensures { Gives result (shaped command form count) }
{
    match form {
        Some(form) if arity_fits(form, count) => Ok(form),
        None if some_fits(command, count) => Raise::syntax(alloc, command.name()),
        _ => Raise::arity(alloc, command.name()),
    }
}
