// Laws of a mirror.

ghost use Rattle.table_mirror.specs.Laws.{AppliesNext, BeginsInOrder, HistoryIsMirrored};
ghost use Rattle.table_mirror.specs.Laws.{OneOutcome, PlanHolds, StaysInOrder};

/// Acknowledged entries were applied, and applied ones were pushed: at first ..
pub fn begins_in_order()
    ensures { BeginsInOrder }
{}

/// .. and behind each line of a plan.
pub fn stays_in_order()
    ensures { StaysInOrder }
{}

/// An entry is applied once, and behind the one before it.
pub fn applies_next()
    ensures { AppliesNext }
{}

/// Where the replies are those of a table that answered the entries in order, the standby's never differ.
pub fn history_is_mirrored()
    ensures { HistoryIsMirrored }
{}

/// A plan comes to one outcome.
pub fn one_outcome()
    ensures { OneOutcome }
{}

/// A whole plan keeps that order; and a reply that differs shows that the entries are no history.
pub fn plan_holds()
    ensures { PlanHolds }
{}
