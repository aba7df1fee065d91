// What holds of the commands of one event.

ghost use Rattle.irule_net.specs.Laws.{ChoiceAloneStays, CommandsKeepGiven, EventsAreApart};
ghost use Rattle.irule_net.specs.Laws.{FaultsChangeNothing, HeldBytesFit, ReleasesAreBounded};
ghost use Rattle.irule_net.specs.Laws.{SendsAreBounded};

/// The law that the bodies of one event never send more than 1,114,112 bytes to its side.
pub fn sends_are_bounded()
    ensures { SendsAreBounded }
{}

/// The law that what is held of an event's side, what was let go and what its collect asks for
/// together stay within 1,048,576 bytes.
pub fn held_bytes_fit()
    ensures { HeldBytesFit }
{}

/// The law that the bodies of one event then never send more than 1,048,576 bytes to the other side.
pub fn releases_are_bounded()
    ensures { ReleasesAreBounded }
{}

/// The law that no command changes what was given with the connection, or the selected server.
pub fn commands_keep_given()
    ensures { CommandsKeepGiven }
{}

/// The law that an event begins without what the bodies of another did and asked for.
pub fn events_are_apart()
    ensures { EventsAreApart }
{}

/// The law that a fault changes nothing and does nothing, and that a shared call changes nothing.
pub fn faults_change_nothing()
    ensures { FaultsChangeNothing }
{}

/// The law that of what a command does in an event, the choice of a pool, member or node alone is
/// there when the next one begins, but for collects, held bytes and the count of reselects.
pub fn choice_alone_stays()
    ensures { ChoiceAloneStays }
{}
