// What Runs and Turns come to.

ghost use Rattle.core_progress.specs.Progress.{SettledComes};

/// Behind every past, so many Runs and Turns that find something to do come at most, one after the
/// other, before the core is settled: as many as connections are ready, twice as many as calls wait,
/// and twice as many as items are passed and slices are spent in them. Slices are paid for by the
/// cost of bodies (`conn_trace`'s `SlicesPaid`), so a core that never settles passes items for ever.
pub fn settled_comes()
    ensures { SettledComes }
{}
