// A run on a core of a configuration.

ghost use Rattle.std.specs.Prelude.{IfOk};
ghost use Rattle.tested_core.specs.Runs.{Followed, Ran};

use proxy_core::Core;
use px_bytes::M;
use run_config::Config;
use std::alloc::Global;
use test_past::RunEnd;
use test_plan::TestMove;
use test_run::TestRun;
use test_text::PlacedStep;

/// A run, and how it ended.
#[derive(Drop)]
pub struct RunDone {
    pub run: TestRun<Core>,
    pub end: RunEnd,
}

// Makes the moves on a core that stands at its start.
fn follow(run: TestRun<Core>, steps: &[PlacedStep], moves: &[TestMove]) -> M<RunDone>
    ensures { IfOk result (λ done. Followed run steps.now moves.now done) }
{
    let mut run = run;
    match run.follow(steps, moves) {
        Ok(end) => Ok(RunDone { run, end }),
        Err(why) => {
            drop(run);
            Err(why)
        }
    }
}

/// Makes the moves of a test on a core of this configuration.
pub fn run_moves(
    alloc: Global,
    config: Config,
    steps: &[PlacedStep],
    moves: &[TestMove],
) -> M<RunDone>
    ensures { IfOk result (λ done. Ran config steps.now moves.now done) }
{
    let (core, notes) = Core::new(alloc, config)?;
    let run = TestRun::new(alloc, core, notes.as_slice())?;
    follow(run, steps, moves)
}
