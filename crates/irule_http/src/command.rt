// HTTP commands.

ghost use Rattle.std.specs.Prelude.{◌≡◌, ◌++◌, Err};
ghost use Rattle.px_bytes.specs.Answered.{DidStep};
ghost use Rattle.px_bytes.specs.FaultText.{no_command};
ghost use Rattle.px_bytes.specs.Gives.{Gives};
ghost use Rattle.irule_net.specs.Answered.{CarriedOut};
ghost use Rattle.irule_net.specs.Commands.{is_http};
ghost use Rattle.irule_http.specs.Commands.{bytes_of, carried, found, http_step, named};

use crate::Http;
use crate::checks::{checked, command_of};
use crate::steps::done;
use crate::words::word_at;
use event_order::{EventName, HostCommand};
use http_answers::behind_first;
use px_bytes::{HostAnswer, Raise, TclFault, Text, Texts};
use std::alloc::Global;

/// Carries out the HTTP command that the first word names, in an event. What it sends to the client
/// stands behind what was sent before. A name that is no HTTP command is no command. A fault changes
/// nothing; where memory is refused nothing is said of the state.
pub fn http_command(
    alloc: Global,
    state: &mut Http,
    event: EventName,
    words: &Texts,
    sent: &mut Text,
) -> HostAnswer
    ensures { DidStep (http_step event state.old words.now) result state.new
        (λ es. sent.new ≡ sent.old ++ bytes_of es) }
{
    match stepped(alloc, state, event, words.as_slice(), sent) {
        Ok(answer) => answer,
        Err(Raise::Fault(fault)) => HostAnswer::Fault(fault),
        Err(Raise::Memory) => HostAnswer::Memory,
    }
}

fn stepped(
    alloc: Global,
    state: &mut Http,
    event: EventName,
    words: &[Text],
    sent: &mut Text,
) -> Result<HostAnswer, Raise>
    ensures { CarriedOut (http_step event state.old words.now) result state.new
        (λ es. sent.new ≡ sent.old ++ bytes_of es) }
{
    named(
        alloc,
        state,
        event,
        word_at(words, 0),
        behind_first(words),
        sent,
    )
}

fn named(
    alloc: Global,
    state: &mut Http,
    event: EventName,
    name: &[u8],
    words: &[Text],
    sent: &mut Text,
) -> Result<HostAnswer, Raise>
    ensures { CarriedOut (named event name.now words.now state.old) result state.new
        (λ es. sent.new ≡ sent.old ++ bytes_of es) }
{
    match found(name) {
        Some(command) => carried(alloc, state, event, command, words, sent),
        None => no_command(alloc, name),
    }
}

fn carried(
    alloc: Global,
    state: &mut Http,
    event: EventName,
    command: HostCommand,
    words: &[Text],
    sent: &mut Text,
) -> Result<HostAnswer, Raise>
    ensures { CarriedOut (carried event words.now command state.old) result state.new
        (λ es. sent.new ≡ sent.old ++ bytes_of es) }
{
    let form = checked(alloc, command, event, state, words)?;
    done(alloc, state, event, command.name(), words, form, sent)
}

fn no_command<T>(alloc: Global, name: &[u8]) -> Result<T, Raise>
    ensures { Gives result (Err (no_command name.now)) }
{
    Err(Raise::Fault(TclFault::no_command(alloc, name)?))
}

// The HTTP command of a name.
fn found(name: &[u8]) -> Option<HostCommand>
    ensures { result ≡ found name.now }
{
    if is_http(name) {
        return command_of(name);
    }
    None
}

// A command that HTTP alone has.
fn is_http(name: &[u8]) -> bool
    ensures { result ≡ is_http name.now }
{
    name.starts_with(b"HTTP::")
}
