// What holds of every past.

ghost use Rattle.proxy_core.specs.Bounds.{BytesAreBounded};
ghost use Rattle.proxy_core.specs.Fitting.{NotesFitEdges};
ghost use Rattle.proxy_core.specs.Headline.{EveryPastMatches};
ghost use Rattle.proxy_core.specs.Numbered.{ServersAreNumbered};
ghost use Rattle.proxy_core.specs.Others.{OnlyItsOwnChanges};

/// For every configuration and every past that leads to a state of the scheduler: the bytes that
/// each client took are a front of what the evaluator gives, all of it when nothing is ready, and
/// nothing is pending or was dropped; the notes are those of its items; and a connection ends for its named cause.
pub fn output_matches_evaluator()
    ensures { EveryPastMatches }
{}

/// An event changes what may be asked of its own connection alone, a Run of the one at the ring's
/// front: of all others the ends, what is wanted and what is pending stay.
pub fn only_changed()
    ensures { OnlyItsOwnChanges }
{}

/// Behind every past, each note of an event fits where the notes before it put the ends of its
/// connection: a server is asked for where there is none, what is half closed or closed is there,
/// and no end is half closed a second time.
pub fn notes_fit_edges()
    ensures { NotesFitEdges }
{}

/// Behind every past, what each server connection of a connection took is within what was sent to
/// it, and to one that wasn't heard of nothing was sent.
pub fn servers_are_numbered()
    ensures { ServersAreNumbered }
{}

/// Behind every past, of each side of a connection no more than 65,536 bytes lie unread, and fewer
/// than 2,400,000 are pending to it; of a body no more than 1,048,576 are gathered, and heads have no
/// more than 100 fields and 66,000 bytes.
pub fn bytes_are_bounded()
    ensures { BytesAreBounded }
{}
