// Laws of reading and writing.

ghost use Rattle.tcl_lists.specs.Grammar.{ReadsExactlyLists};
ghost use Rattle.tcl_lists.specs.Laws.{BracesKeepBytes, PlacesHoldValues, WhiteSpaceMoves};
ghost use Rattle.tcl_lists.specs.Laws.{WrittenListsJoin, WrittenReadsBack};

/// A text reads as values exactly where the grammar makes it a list of them.
pub fn reads_exactly_lists()
    ensures { ReadsExactlyLists }
{}

/// What `join_list` writes, `split` reads, for every list of texts.
pub fn written_reads_back()
    ensures { WrittenReadsBack }
{}

/// An element in braces is its bytes unchanged.
pub fn braces_keep_bytes()
    ensures { BracesKeepBytes }
{}

/// White space before a list only moves its faults.
pub fn white_space_moves()
    ensures { WhiteSpaceMoves }
{}

/// Two written lists with a blank between them are one list.
pub fn written_lists_join()
    ensures { WrittenListsJoin }
{}

/// The places of a list are those of its values, and its faults are the same.
pub fn places_hold_values()
    ensures { PlacesHoldValues }
{}
