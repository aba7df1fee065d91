// What holds of setting variables and taking them away.

ghost use Rattle.tcl_vars.specs.Laws.{SetIsRead, SetKeepsOthers, UnsetIsGone, UnsetKeepsOthers};
ghost use Rattle.tcl_vars.specs.Laws.{OuterLevelsStay, CallsHaveTheirOwn};

/// The law that what was set is what is read.
pub fn set_is_read()
    ensures { SetIsRead }
{}

/// The law that setting a variable or an element keeps each other one.
pub fn set_keeps_others()
    ensures { SetKeepsOthers }
{}

/// The law that what was taken away isn't there.
pub fn unset_is_gone()
    ensures { UnsetIsGone }
{}

/// The law that taking a variable or an element away keeps each other one.
pub fn unset_keeps_others()
    ensures { UnsetKeepsOthers }
{}

/// The law that the levels outside the innermost stay.
pub fn outer_levels_stay()
    ensures { OuterLevelsStay }
{}

/// The law that a procedure call begins with no variables of its own, and that its end gives the
/// caller's back.
pub fn calls_have_their_own()
    ensures { CallsHaveTheirOwn }
{}
