// What the moves of a run come to.

ghost use Rattle.test_plan.specs.Laws.{TextsAreWhole};

/// The law that a deed sends its whole text, whatever the cut.
pub fn texts_are_whole()
    ensures { TextsAreWhole }
{}
