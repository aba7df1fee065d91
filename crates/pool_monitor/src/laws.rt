// What holds of pumps, one after another.

ghost use Rattle.pool_monitor.specs.History.{MarksAreDefined};
ghost use Rattle.pool_monitor.specs.Laws.{ReadAreNew};

use px_outside::Net;

/// The law that over every list of pumps, from members that were never probed on, the marks are
/// those of the monitors' definition on what the net answered.
pub fn marks_are_defined<N: Net>(_net: &N)
    ensures { MarksAreDefined N.did }
{}

/// The law that members that were read were never probed.
pub fn read_are_new()
    ensures { ReadAreNew }
{}
