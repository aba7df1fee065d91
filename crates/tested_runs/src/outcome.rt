// What all runs of a test come to.

ghost use Rattle.std.specs.Prelude.{◌≡◌, ◌<◌, IfErr, IfOk, IfSome, IsSome, None, OnOk, false};
ghost use Rattle.std.specs.Prelude.{length, true};
ghost use Rattle.tested_runs.specs.Runs.{CutsCome, RunComes, WaysCome, cuts_of, is_passed};
ghost use Rattle.tested_runs.specs.Schedules.{CutTold, Keeps, RunTold, Tells, WayTold, schedule_in};
ghost use Rattle.tested_runs.specs.Sources.{TellsNoFile};

use crate::runs::{JudgedRun, Way, add_failure, cuts_of, judged, schedule_of};
use crate::stop::TestStop;
use px_bytes::{M, Seq, Text, Texts};
use px_outside::Files;
use std::alloc::Global;
use test_failure::add_way;
use test_orders::Cut;
use test_past::Verdict;
use test_plan::StepOrders;
use test_text::TestCase;

/// What all runs of a test came to.
#[derive(Drop)]
pub struct TestOutcome {
    /// How many runs were made.
    pub runs: usize,
    pub passed: bool,
    /// What the run that failed is told by.
    pub failure: Texts,
    /// The lines of the events of the run that failed, or of the first one.
    pub schedule: Option<Text>,
}

fn is_passed(verdict: Verdict) -> bool
    ensures { result ≡ is_passed verdict }
{
    matches!(verdict, Verdict::Passed)
}

impl TestOutcome {
    fn new(alloc: Global) -> TestOutcome
        ensures passed { result.passed ≡ true }
        ensures no_schedule { result.schedule ≡ None }
    {
        TestOutcome {
            runs: 0,
            passed: true,
            failure: Texts::new(alloc),
            schedule: None,
        }
    }

    // Keeps the schedule of a run, if it is the first one or failed.
    fn keep(&mut self, alloc: Global, passed: bool, run: &JudgedRun) -> M<()>
        ensures same { self.new.passed ≡ self.old.passed }
        ensures there { OnOk result (IsSome self.new.schedule) }
        ensures schedule { OnOk result
            (Keeps passed self.old.schedule self.new.schedule (schedule_in run.now)) }
    {
        if self.schedule.is_none() || !passed {
            self.schedule = Some(schedule_of(alloc, run.done.run.entries())?);
        }
        Ok(())
    }

    fn fail(&mut self, alloc: Global, test: &TestCase, way: Way<'_>, run: &JudgedRun) -> M<()>
        ensures passed { OnOk result (self.new.passed ≡ false) }
        ensures same { OnOk result (self.new.schedule ≡ self.old.schedule) }
    {
        add_failure(alloc, &mut self.failure, test, run)?;
        add_way(alloc, &mut self.failure, way.cut, way.orders)?;
        self.passed = false;
        Ok(())
    }

    // Adds a run. Says whether it passed.
    fn add(&mut self, alloc: Global, test: &TestCase, way: Way<'_>, run: &JudgedRun) -> M<bool>
        ensures passed { IfOk result (λ passed. passed ≡ is_passed run.now.verdict) }
        ensures kept { IfOk result
            (λ passed. self.old.passed ≡ true → self.new.passed ≡ passed) }
        ensures schedule { IfOk result (λ passed.
            Keeps passed self.old.schedule self.new.schedule (schedule_in run.now)) }
        ensures there { OnOk result (IsSome self.new.schedule) }
    {
        let passed = is_passed(run.verdict);
        self.keep(alloc, passed, run)?;
        self.runs = self.runs.saturating_add(1);
        if !passed {
            self.fail(alloc, test, way, run)?;
        }
        Ok(passed)
    }

    // Makes a run. Says whether it passed.
    fn run_way<F: Files>(
        &mut self,
        alloc: Global,
        files: &mut F,
        config: &[u8],
        test: &TestCase,
        way: Way<'_>,
    ) -> Result<bool, TestStop>
        ensures comes { IfOk result (λ passed. RunComes (F.told files.old) config.now
            test.now.steps way.entry.orders.now passed way.entry.cut) }
        ensures kept { IfOk result
            (λ passed. self.old.passed ≡ true → self.new.passed ≡ passed) }
        ensures schedule { IfOk result (λ passed. Tells passed self.old.schedule
            self.new.schedule (λ text. RunTold (F.told files.old) config.now test.now.steps
            way.entry.orders.now passed text way.entry.cut)) }
        ensures there { OnOk result (IsSome self.new.schedule) }
        ensures fault { IfErr result TellsNoFile }
        ensures same_files { F.told files.new ≡ F.told files.old }
    {
        let run = judged(alloc, files, config, test.steps.as_slice(), way)?;
        let added = self.add(alloc, test, way, &run);
        drop(run);
        Ok(added?)
    }

    // Makes the runs of an order, one for each cut, up to the first that fails. Says whether all
    // passed.
    fn run_cuts<F: Files>(
        &mut self,
        alloc: Global,
        files: &mut F,
        config: &[u8],
        test: &TestCase,
        cuts: &[Cut],
        orders: &[Seq<usize>],
    ) -> Result<bool, TestStop>
        ensures comes { IfOk result (λ passed. CutsCome (F.told files.old) config.now
            test.now.steps cuts.now passed orders.now) }
        ensures kept { IfOk result
            (λ passed. self.old.passed ≡ true → self.new.passed ≡ passed) }
        ensures schedule { IfOk result (λ passed. Tells passed self.old.schedule
            self.new.schedule (CutTold (F.told files.old) config.now test.now.steps cuts.now
            orders.now passed)) }
        ensures there { OnOk result (0 < length cuts.now → IsSome self.new.schedule) }
        ensures fault { IfErr result TellsNoFile }
        ensures same_files { F.told files.new ≡ F.told files.old }
    {
        for cut in cuts {
            let way = Way { cut: *cut, orders };
            if !self.run_way(alloc, files, config, test, way)? {
                return Ok(false);
            }
        }
        Ok(true)
    }

    // Makes the runs of each order, up to the first that fails. Says whether all passed.
    fn run_ways<F: Files>(
        &mut self,
        alloc: Global,
        files: &mut F,
        config: &[u8],
        test: &TestCase,
        cuts: &[Cut],
        ways: &[StepOrders],
    ) -> Result<bool, TestStop>
        ensures comes { IfOk result (λ passed. WaysCome (F.told files.old) config.now
            test.now.steps cuts.now passed ways.now) }
        ensures kept { IfOk result
            (λ passed. self.old.passed ≡ true → self.new.passed ≡ passed) }
        ensures schedule { IfOk result (λ passed. Tells passed self.old.schedule
            self.new.schedule (WayTold (F.told files.old) config.now test.now.steps cuts.now
            ways.now passed)) }
        ensures there { OnOk result
            (0 < length cuts.now → 0 < length ways.now → IsSome self.new.schedule) }
        ensures fault { IfErr result TellsNoFile }
        ensures same_files { F.told files.new ≡ F.told files.old }
    {
        for orders in ways {
            if !self.run_cuts(alloc, files, config, test, cuts, orders.as_slice())? {
                return Ok(false);
            }
        }
        Ok(true)
    }
}

/// Makes the runs of a test up to the first that fails: one for each of these orders, by each cut.
pub fn outcome_of<F: Files>(
    alloc: Global,
    files: &mut F,
    config: &[u8],
    test: &TestCase,
    all_cuts: bool,
    ways: &[StepOrders],
) -> Result<TestOutcome, TestStop>
    ensures comes { IfOk result (λ outcome. WaysCome (F.told files.old) config.now
        test.now.steps (cuts_of all_cuts test.now.steps) outcome.passed ways.now) }
    ensures schedule { IfOk result (λ outcome. IfSome outcome.schedule (WayTold
        (F.told files.old) config.now test.now.steps (cuts_of all_cuts test.now.steps) ways.now
        outcome.passed)) }
    ensures there { IfOk result (λ outcome. 0 < length ways.now → IsSome outcome.schedule) }
    ensures fault { IfErr result TellsNoFile }
    ensures same_files { F.told files.new ≡ F.told files.old }
{
    let cuts = cuts_of(alloc, all_cuts, test.steps.as_slice())?;
    let mut outcome = TestOutcome::new(alloc);
    outcome.run_ways(alloc, files, config, test, cuts.as_slice(), ways)?;
    Ok(outcome)
}
