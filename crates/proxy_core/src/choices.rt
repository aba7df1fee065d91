// What leaves nothing open.

ghost use Rattle.proxy_core.specs.Determined.{ChoicesDetermine};

/// Two pasts of a configuration with the same events and the same recorded choices and cuts, in which
/// no Run stopped in the middle and none found no memory, have the same notes and lead to the same
/// state.
pub fn choices_determine()
    ensures { ChoicesDetermine }
{}
