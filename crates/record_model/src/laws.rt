// What holds of the bodies that run, of the static variables, and of the session table.

ghost use Rattle.record_model.specs.History.{HistoryIsLive};
ghost use Rattle.record_model.specs.Laws.{BodiesRunInOrder, RowsAreFew, StaticsStay};

/// The bodies of rules run at an event each once, by their priorities, and those of one priority in
/// the order of the rules and of their places.
pub fn bodies_run_in_order()
    ensures { BodiesRunInOrder }
{}

/// A connection sees the static variables that RULE_INIT left, for ever.
pub fn statics_stay()
    ensures { StaticsStay }
{}

/// The session table behind a past has at most the configuration's `rows`.
pub fn rows_are_few()
    ensures { RowsAreFew }
{}

/// All rows and records of the store behind a history are live at the moment of the last Tick.
pub fn history_is_live()
    ensures { HistoryIsLive }
{}
