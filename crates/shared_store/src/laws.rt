// What holds of the store and its calls.

ghost use Rattle.shared_store.specs.Laws.{ExpiredIsLive, LiveIsKept, LiveStoreStays, RowsStayFew};

/// The law that the rows and records that are left at a moment are live at it.
pub fn expired_is_live()
    ensures { ExpiredIsLive }
{}

/// The law that nothing is taken away where all rows and records are live.
pub fn live_is_kept()
    ensures { LiveIsKept }
{}

/// The law that a call at a moment leaves live rows and records, where all were live.
pub fn live_store_stays()
    ensures { LiveStoreStays }
{}

/// The law that no call leaves more rows than the session table's limit.
pub fn rows_stay_few()
    ensures { RowsStayFew }
{}
