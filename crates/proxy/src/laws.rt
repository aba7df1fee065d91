// What holds of every configuration that loads, and of every journal.

ghost use Rattle.proxy.specs.Journal.{JournalHasNoFault, JournalIsRead, JournalReplays};
ghost use Rattle.proxy.specs.Loads.{LoadedIsRun};

/// A configuration that loads is what the core runs, unless something of it isn't built.
pub fn loaded_is_run()
    ensures { LoadedIsRun }
{}

/// The journal of what was served is a schedule, each line of which is read, and its events are
/// exactly those that were served, where a line can write them.
pub fn journal_is_read()
    ensures { JournalIsRead }
{}

/// A replay of such a journal meets no faulty line.
pub fn journal_has_no_fault()
    ensures { JournalHasNoFault }
{}

/// A replay of such a journal that comes to its end had exactly the events that were served.
pub fn journal_replays()
    ensures { JournalReplays }
{}
