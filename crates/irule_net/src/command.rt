// Network commands.

ghost use Rattle.std.specs.Prelude.{◌≡◌, ◌++◌, Err};
ghost use Rattle.px_bytes.specs.FaultText.{no_command};
ghost use Rattle.px_bytes.specs.Gives.{Gives};
ghost use Rattle.px_bytes.specs.Answered.{DidStep};
ghost use Rattle.irule_net.specs.Answered.{CarriedOut};
ghost use Rattle.irule_net.specs.Commands.{asked, asked_by, is_http, net_step};
ghost use Rattle.irule_net.specs.State.{side_of};

use crate::asked::request_of;
use crate::checks::{checked, command_of};
use crate::request::Request;
use crate::steps::carry_out;
use crate::{Effects, Groups, NetState};
use event_order::{EventName, HostCommand};
use px_bytes::{HostAnswer, Raise, Side, TclFault, Text, Texts};
use std::alloc::Global;

/// Carries out the network command that the first word names, in an event. What it does outside the
/// script stands behind what was made before. A name that is no network command is no command. A
/// fault changes nothing; where memory is refused nothing is said of the state.
pub fn net_command(
    alloc: Global,
    state: &mut NetState,
    groups: &Groups,
    event: EventName,
    words: &Texts,
    made: &mut Effects,
) -> HostAnswer
    ensures { DidStep (net_step groups.now event state.old words.now) result state.new
        (λ es. made.new ≡ made.old ++ es) }
{
    match stepped(alloc, state, groups, event, words.as_slice(), made) {
        Ok(answer) => answer,
        Err(Raise::Fault(fault)) => HostAnswer::Fault(fault),
        Err(Raise::Memory) => HostAnswer::Memory,
    }
}

fn stepped(
    alloc: Global,
    state: &mut NetState,
    groups: &Groups,
    event: EventName,
    words: &[Text],
    made: &mut Effects,
) -> Result<HostAnswer, Raise>
    ensures { CarriedOut (net_step groups.now event state.old words.now) result state.new
        (λ es. made.new ≡ made.old ++ es) }
{
    let request = asked(alloc, groups, event, state, words)?;
    carry_out(alloc, state, side_of(event), request, made)
}

// What the words of a network command ask.
fn asked(
    alloc: Global,
    groups: &Groups,
    event: EventName,
    state: &NetState,
    words: &[Text],
) -> Result<Request, Raise>
    ensures { Gives result (asked groups.now event state.now words.now) }
{
    let [name, words @ ..] = words else {
        return no_command(alloc, b"");
    };
    if is_http(name.as_bytes()) {
        return no_command(alloc, name.as_bytes());
    }
    match command_of(name.as_bytes()) {
        Some(command) => asked_by(alloc, groups, event, state, command, words),
        None => no_command(alloc, name.as_bytes()),
    }
}

// What a command with these words asks in an event.
fn asked_by(
    alloc: Global,
    groups: &Groups,
    event: EventName,
    state: &NetState,
    command: HostCommand,
    words: &[Text],
) -> Result<Request, Raise>
    ensures { Gives result (asked_by groups.now event state.now command words.now) }
{
    let form = checked(alloc, command, state.http, event, words)?;
    request_of(alloc, groups, state.port, form, words)
}

fn no_command<T>(alloc: Global, name: &[u8]) -> Result<T, Raise>
    ensures { Gives result (Err (no_command name.now)) }
{
    Err(Raise::Fault(TclFault::no_command(alloc, name)?))
}

// A command that HTTP alone has.
fn is_http(name: &[u8]) -> bool
    ensures { result ≡ is_http name.now }
{
    name.starts_with(b"HTTP::")
}

// The side on which an event runs whose bodies may collect and send.
fn side_of(event: EventName) -> Side
    ensures { result ≡ side_of event }
{
    match event {
        EventName::ServerConnected | EventName::ServerData => Side::Server,
        _ => Side::Client,
    }
}
