// What holds of rows and calls.

ghost use Rattle.session_table.specs.Laws.{CountersCount, FaultsChangeNothing, KeysAreAll};
ghost use Rattle.session_table.specs.Laws.{KeysAreSorted, KeysStayOnce, LivesToDeadline};
ghost use Rattle.session_table.specs.Laws.{LiveRowsStay, TouchNeverShortens};
ghost use Rattle.session_table.specs.Laws.{RowsStayFew};

/// The law that to touch a row never shortens its life.
pub fn touch_never_shortens()
    ensures { TouchNeverShortens }
{}

/// The law that a row is live exactly up to its deadline.
pub fn lives_to_deadline()
    ensures { LivesToDeadline }
{}

/// The law that calls leave no two rows under one key.
pub fn keys_stay_once()
    ensures { KeysStayOnce }
{}

/// The law that the keys of a subtable are sorted.
pub fn keys_are_sorted()
    ensures { KeysAreSorted }
{}

/// The law that the keys of a subtable have each key of a row once.
pub fn keys_are_all()
    ensures { KeysAreAll }
{}

/// The law that a counter counts.
pub fn counters_count()
    ensures { CountersCount }
{}

/// The law that a fault changes nothing.
pub fn faults_change_nothing()
    ensures { FaultsChangeNothing }
{}

/// The law that a call at a moment leaves live rows, where all were live.
pub fn live_rows_stay()
    ensures { LiveRowsStay }
{}

/// The law that no call leaves more rows than the limit.
pub fn rows_stay_few()
    ensures { RowsStayFew }
{}
