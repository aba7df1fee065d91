// The host's commands of today.

ghost use Rattle.std.specs.Prelude.{◌≡◌};
ghost use Rattle.irule_net.specs.Checks.{command_of};
ghost use Rattle.conn_trace.specs.Host.{is_there, names_one};

use event_order::{HostCommand, read_command};

/// Whether a name is that of a command that a rule may call today.
pub fn is_there(name: &[u8]) -> bool
    ensures { result ≡ names_one (command_of name.now) }
{
    match command_of(name) {
        Some(command) => is_command_there(command),
        None => false,
    }
}

fn command_of(name: &[u8]) -> Option<HostCommand>
    ensures { result ≡ command_of name.now }
{
    read_command(name)
}

fn is_command_there(command: HostCommand) -> bool
    ensures { result ≡ is_there command }
{
    match command {
        HostCommand::Log
        | HostCommand::Class
        | HostCommand::IpClientAddr
        | HostCommand::IpServerAddr
        | HostCommand::TcpClientPort
        | HostCommand::LbServer
        | HostCommand::TcpRespond
        | HostCommand::ActiveMembers
        | HostCommand::Table
        | HostCommand::Clock
        | HostCommand::After
        | HostCommand::Pool
        | HostCommand::Node
        | HostCommand::LbReselect
        | HostCommand::LbDetach
        | HostCommand::Reject
        | HostCommand::Drop
        | HostCommand::TcpClose
        | HostCommand::TcpCollect
        | HostCommand::TcpRelease
        | HostCommand::TcpPayload => true,
        _ => false,
    }
}
