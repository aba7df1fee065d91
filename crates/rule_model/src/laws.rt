// Laws of the evaluator.

ghost use Rattle.rule_model.specs.Laws.{ActsStay, AskedByNoneWaitsNever, CallersVariablesStay};
ghost use Rattle.rule_model.specs.Laws.{CallsKeepLevels, HostShowsActs, MoreRepliesOnlyLengthen};
ghost use Rattle.rule_model.specs.Laws.{SpentBudgetPasses, TurnsShowNoNumber, WiderHostAgrees};
ghost use Rattle.rule_model.specs.Laws.{WordsGoFromTheLeft};

/// What was done before an evaluation stays, its cost never falls, and its budget never rises.
pub fn acts_stay<H>()
    ensures { ActsStay H }
{}

/// Replies behind those that an evaluation took don't change it.
pub fn more_replies_only_lengthen<H>()
    ensures { MoreRepliesOnlyLengthen H }
{}

/// A host's state may hold something of all that was done.
pub fn host_shows_acts<H, M>()
    ensures { HostShowsActs H M }
{}

/// A host that also holds what no command reads evaluates alike.
pub fn wider_host_agrees<H, K>()
    ensures { WiderHostAgrees H K }
{}

/// Where no host command asks, no evaluation waits.
pub fn asked_by_none_waits_never<H>()
    ensures { AskedByNoneWaitsNever H }
{}

/// What a procedure's body does leaves its callers' variables as they are.
pub fn callers_variables_stay<H>()
    ensures { CallersVariablesStay H }
{}

/// A call's own variables go with it, and its caller's are as they were.
pub fn calls_keep_levels<H>()
    ensures { CallsKeepLevels H }
{}

/// A spent budget goes through a `catch`.
pub fn spent_budget_passes<H>()
    ensures { SpentBudgetPasses H }
{}

/// A loop's turns never show how many may be made, where those are as many as the budget or more.
pub fn turns_show_no_number<H>()
    ensures { TurnsShowNoNumber H }
{}

/// Words are evaluated from the left, each where the one before it ended.
pub fn words_go_from_the_left<H>()
    ensures { WordsGoFromTheLeft H }
{}
