// Laws of whole runs.

ghost use Rattle.frame_machine.specs.Runs.{MachineEqualsEvaluator, TicksAreBounded};

/// In any slicing into steps, a body asks exactly where the evaluator waits, and is done exactly
/// where it ends.
pub fn machine_equals_evaluator<H>()
    ensures { MachineEqualsEvaluator H }
{}

/// What a body ticks is bounded by what it costs.
pub fn ticks_are_bounded<H>()
    ensures { TicksAreBounded H }
{}
