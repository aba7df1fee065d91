// A test is run.

ghost use Rattle.std.specs.Prelude.{◌≡◌, IfErr, IfOk, OnOk, Some, length};
ghost use Rattle.rule_tests.specs.Named.{IsNamed, TellsNames, TellsPlace};
ghost use Rattle.rule_tests.specs.Results.{Adds, IsPlaced, IsResult, chosen_in, told_schedule};
ghost use Rattle.rule_tests.specs.Tests.{TestComes, config_name, is_chosen};
ghost use Rattle.rule_tests.specs.Told.{TellsOrders};
ghost use Rattle.test_plan.specs.Ways.{ways};
ghost use Rattle.tested_runs.specs.Sources.{TellsNoFile};

use crate::places::place_line;
use crate::say::say;
use px_bytes::{M, Seq};
use px_outside::{Files, Sink};
use std::alloc::Global;
use test_names::unnamed_of;
use test_plan::{StepOrders, ways};
use test_report::TestResult;
use test_text::TestCase;
use test_words::TestWords;
use tested_runs::{TestOutcome, TestSource, TestStop, config_of, outcome_of};
use text_places::line_of;

// Whether a test is to be run.
fn is_chosen(words: &TestWords, test: &TestCase) -> bool
    ensures { result ≡ is_chosen words.now test.now }
{
    match &words.only {
        Some(name) => name.as_bytes() == test.name.as_bytes(),
        None => true,
    }
}

// The name of a test's configuration.
fn config_name<'a>(source: &'a TestSource, test: &TestCase) -> &'a [u8]
    ensures { result.now ≡ config_name source.entry.now test.now }
{
    match source.file.configs.get(test.config) {
        Some(config) => config.name.as_bytes(),
        None => b"",
    }
}

// A fault of a test file.
fn fault_at(alloc: Global, source: &TestSource, place: usize, words: &str) -> TestStop
    ensures { TellsPlace source.now place words.now result }
{
    match place_line(
        alloc,
        source.name.as_bytes(),
        source.text.as_bytes(),
        place,
        words,
    ) {
        Ok(line) => TestStop::File(line),
        Err(_) => TestStop::Memory,
    }
}

/// Sees that the configuration of a test has what it names.
pub(crate) fn check_test<F: Files>(
    alloc: Global,
    files: &mut F,
    source: &TestSource,
    test: &TestCase,
) -> Result<(), TestStop>
    ensures named { OnOk result (IsNamed (F.told files.old) source.now test.now) }
    ensures fault { IfErr result (TellsNames (F.told files.old) source.now test.now) }
    ensures same_files { F.told files.new ≡ F.told files.old }
{
    let config = config_of(alloc, files, config_name(source, test))?;
    let found = unnamed_of(alloc, &config, test.steps.as_slice());
    drop(config);
    match found? {
        Some(found) => Err(fault_at(alloc, source, found.place, found.what.words())),
        None => Ok(()),
    }
}

// The ways in which a test may go.
fn ways_of(
    alloc: Global,
    words: &TestWords,
    source: &TestSource,
    test: &TestCase,
) -> Result<Seq<StepOrders>, TestStop>
    ensures ways { IfOk result (λ found.
        ways words.now.orders (length test.now.clients) test.now.steps ≡ Some found) }
    ensures fault { IfErr result (TellsOrders words.now source.now test.now) }
{
    let clients = test.clients.len();
    match ways(alloc, words.orders, clients, test.steps.as_slice())? {
        Some(ways) => Ok(ways),
        None => Err(fault_at(alloc, source, test.place, "more than 10,000 orders")),
    }
}

// What a test came to, with its place.
fn result_of(source: &TestSource, test: &TestCase, outcome: TestOutcome) -> M<TestResult>
    ensures passed { IfOk result (λ told. told.passed ≡ outcome.passed) }
    ensures placed { IfOk result (IsPlaced source.now test.now) }
{
    let (file, name) = (source.name.copy()?, test.name.copy()?);
    let TestOutcome {
        runs,
        passed,
        failure,
        ..
    } = outcome;
    Ok(TestResult {
        file,
        line: line_of(source.text.as_bytes(), test.place),
        name,
        runs,
        passed,
        failure,
    })
}

fn say_schedule<S: Sink>(outcome: &TestOutcome, schedule: &mut S) -> Result<(), TestStop>
    ensures written { OnOk result (S.written schedule.new
        ≡ told_schedule (S.written schedule.old) outcome.now.schedule) }
    ensures fault { IfErr result TellsNoFile }
{
    match &outcome.schedule {
        Some(events) => say(schedule, events.as_bytes()),
        None => Ok(()),
    }
}

// Writes the schedule of a test's run, and gives its result.
fn told<S: Sink>(
    source: &TestSource,
    test: &TestCase,
    outcome: TestOutcome,
    schedule: &mut S,
) -> Result<TestResult, TestStop>
    ensures passed { IfOk result (λ told. told.passed ≡ outcome.passed) }
    ensures placed { IfOk result (IsPlaced source.now test.now) }
    ensures written { OnOk result (S.written schedule.new
        ≡ told_schedule (S.written schedule.old) outcome.schedule) }
    ensures fault { IfErr result TellsNoFile }
{
    if let Err(stop) = say_schedule(&outcome, schedule) {
        drop(outcome);
        return Err(stop);
    }
    Ok(result_of(source, test, outcome)?)
}

fn run_test<F: Files, S: Sink>(
    alloc: Global,
    words: &TestWords,
    files: &mut F,
    source: &TestSource,
    test: &TestCase,
    schedule: &mut S,
) -> Result<TestResult, TestStop>
    ensures told { IfOk result (λ told. IsResult (F.told files.old) words.now source.now test.now
        told (S.written schedule.old) (S.written schedule.new)) }
    ensures fault { IfErr result (TellsOrders words.now source.now test.now) }
    ensures same_files { F.told files.new ≡ F.told files.old }
{
    let ways = ways_of(alloc, words, source, test)?;
    let config = config_name(source, test);
    let outcome = outcome_of(alloc, files, config, test, words.cuts, ways.as_slice());
    drop(ways);
    told(source, test, outcome?, schedule)
}

/// Adds the result of a test that is to be run. Says whether it passed, or isn't to be run.
#[tactic(auto, using(crate::proofs::Results::adds_other, crate::proofs::Results::adds_one))]
pub(crate) fn run_chosen<F: Files, S: Sink>(
    alloc: Global,
    words: &TestWords,
    files: &mut F,
    source: &TestSource,
    test: &TestCase,
    schedule: &mut S,
    results: &mut Seq<TestResult>,
) -> Result<bool, TestStop>
    ensures comes { IfOk result
        (λ passed. TestComes (F.told files.old) words.now source.now passed test.now) }
    ensures results { OnOk result (Adds (F.told files.old) words.now
        (chosen_in words.now source.now test.now) results.old results.new
        (S.written schedule.old) (S.written schedule.new)) }
    ensures fault { IfErr result (TellsOrders words.now source.now test.now) }
    ensures same_files { F.told files.new ≡ F.told files.old }
{
    if !is_chosen(words, test) {
        return Ok(true);
    }
    let told = run_test(alloc, words, files, source, test, schedule)?;
    let passed = told.passed;
    results.push(told)?;
    Ok(passed)
}
