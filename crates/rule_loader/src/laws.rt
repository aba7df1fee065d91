// What holds of the order of handlers, and of the fault that is told.

ghost use Rattle.rule_loader.specs.Laws.{HandlersRunInOrder, LeastIsTold};

/// The law that the bodies of several rules run each once, by their priorities, and those of one
/// priority in the order of the rules and of their places.
pub fn handlers_run_in_order()
    ensures { HandlersRunInOrder }
{}

/// The law that of the faults of a text one is told before which none comes, and none only where
/// there is none.
pub fn least_is_told()
    ensures { LeastIsTold }
{}
