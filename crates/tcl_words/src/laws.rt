// Laws of the definitions, each the contract of a function that does nothing.

ghost use Rattle.tcl_words.specs.Laws.{ReadingIsGrammar, OneReading};
ghost use Rattle.tcl_words.specs.Rules.{SubstitutionsSplitNothing, WhiteSpaceSeparates};
ghost use Rattle.tcl_words.specs.Rules.{BracketsShield, IndexesShield, QuotesEndAtQuotes};
ghost use Rattle.tcl_words.specs.Rules.{BracketsEndWords, SeparatorsEndWords, ReturnIsOrdinary};
ghost use Rattle.tcl_words.specs.Rules.{BracesKeepBytes, BracesKeepBackslashes};
ghost use Rattle.tcl_words.specs.Rules.{BracesReplaceNewlines, BackslashedBracesDontCount};
ghost use Rattle.tcl_words.specs.Rules.{NewlinesEndComments, BackslashesContinueComments};
ghost use Rattle.tcl_words.specs.Rules.{HashesBeginComments, LoneDollars, LastTwoDigits};
ghost use Rattle.tcl_words.specs.Rules.{DepthIsLimited, DepthLimitsIndexes, DepthLimitsWords};
ghost use Rattle.tcl_words.specs.Rules.{LeastPlaceIsTold};

/// The law that the reading gives a script exactly where the text spells it.
pub fn reading_is_grammar()
    ensures { ReadingIsGrammar }
{}

/// The law that a text spells at most one script.
pub fn one_reading()
    ensures { OneReading }
{}

/// Sentences of the manual that hold of the definitions.
pub fn rules_of_the_source()
    ensures substitutions_split_nothing { SubstitutionsSplitNothing }
    ensures white_space_separates { WhiteSpaceSeparates }
    ensures brackets_shield { BracketsShield }
    ensures indexes_shield { IndexesShield }
    ensures quotes_end_at_quotes { QuotesEndAtQuotes }
    ensures brackets_end_words { BracketsEndWords }
    ensures separators_end_words { SeparatorsEndWords }
    ensures return_is_ordinary { ReturnIsOrdinary }
    ensures braces_keep_bytes { BracesKeepBytes }
    ensures braces_keep_backslashes { BracesKeepBackslashes }
    ensures braces_replace_newlines { BracesReplaceNewlines }
    ensures backslashed_braces_dont_count { BackslashedBracesDontCount }
    ensures newlines_end_comments { NewlinesEndComments }
    ensures backslashes_continue_comments { BackslashesContinueComments }
    ensures hashes_begin_comments { HashesBeginComments }
    ensures lone_dollars { LoneDollars }
    ensures last_two_digits { LastTwoDigits }
    ensures depth_is_limited { DepthIsLimited }
    ensures depth_limits_indexes { DepthLimitsIndexes }
    ensures depth_limits_words { DepthLimitsWords }
    ensures least_place_is_told { LeastPlaceIsTold }
{}
