// Laws of the table of host commands.

ghost use Rattle.event_order.specs.Command.{HostCommandsHaveEvents, NamesDiffer};
ghost use Rattle.event_order.specs.Phase.{FinishingIsFinal};

/// A name is that of a host command exactly where some event allows it.
pub fn host_commands_have_events()
    ensures { HostCommandsHaveEvents }
{}

/// No two host commands share a name.
pub fn names_differ()
    ensures { NamesDiffer }
{}

/// A connection that finishes isn't live again.
pub fn finishing_is_final()
    ensures { FinishingIsFinal }
{}
