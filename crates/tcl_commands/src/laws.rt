// What holds of the kinds of commands.

ghost use Rattle.tcl_commands.specs.Kind.{HostCommandsAreThoseOfEvents, OneKind};

/// The law that no name is of two kinds.
pub fn one_kind()
    ensures { OneKind }
{}

/// The law that a command is the host's exactly where some event allows it.
pub fn host_commands_are_those_of_events()
    ensures { HostCommandsAreThoseOfEvents }
{}
