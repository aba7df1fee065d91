// Names of host commands, and the events in which they may be called.

ghost use Rattle.std.specs.Prelude.{◌≡◌, ◌↔◌, Some, IsTrue, find};
ghost use Rattle.std.specs.Str.{bytes_eq};
ghost use Rattle.event_order.specs.Command.{Allows, IsHostCommand, command_row, every_command};
ghost use Rattle.event_order.specs.declared.command.HostCommand.{HostCommand};

use crate::{EventName, HostCommand};

/// The host command of this name.
pub fn read_command(name: &[u8]) -> Option<HostCommand>
    ensures { (c : HostCommand) → (result ≡ Some c) ↔ (name.now ≡ (command_row c).name) }
{
    first_of_name(name)
}

fn first_of_name(name: &[u8]) -> Option<HostCommand>
    ensures { result ≡ find (λ c. bytes_eq (command_row c).name name.now) every_command }
{
    HostCommand::ALL
        .iter()
        .copied()
        .find(|command| command.name() == name)
}

/// Whether a host command has this name.
pub fn is_host_command(name: &[u8]) -> bool
    ensures { IsTrue result ↔ IsHostCommand name.now }
{
    read_command(name).is_some()
}

/// Whether the host command of this name may be called in the event, in one of its forms at least.
pub fn allowed(command: &[u8], event: EventName) -> bool
    ensures { IsTrue result ↔ Allows command.now event }
{
    match read_command(command) {
        Some(command) => command.is_allowed(event),
        None => false,
    }
}
