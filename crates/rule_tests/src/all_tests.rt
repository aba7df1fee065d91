// All tests are run.

ghost use Rattle.std.specs.List.{All};
ghost use Rattle.std.specs.Prelude.{◌≡◌, ◌&&◌, IfErr, IfOk, OnOk};
ghost use Rattle.px_outside.specs.Outside.{told_more};
ghost use Rattle.rule_tests.specs.Named.{AreNamed, TellsAllNames, TellsNamesOf};
ghost use Rattle.rule_tests.specs.Results.{Adds, Reported, chosen_from, chosen_of};
ghost use Rattle.rule_tests.specs.Tests.{AreSources, SourceComes, SourcesCome, TellsSources};
ghost use Rattle.rule_tests.specs.Told.{FilesCome, Quiet, TellsAllOrders, TellsFiles, TellsOfSources};
ghost use Rattle.rule_tests.specs.Told.{TellsOrdersOf};
ghost use Rattle.test_report.specs.Report.{report_text};
ghost use Rattle.tested_runs.specs.Sources.{TellsNoFile};

use crate::one_test::{check_test, run_chosen};
use crate::say::say;
use px_bytes::{Seq, Text};
use px_outside::{Files, Sink};
use std::alloc::Global;
use test_report::{TestResult, report_text};
use test_words::TestWords;
use tested_runs::{TestSource, TestStop, read_source};

fn read_sources<F: Files>(
    alloc: Global,
    files: &mut F,
    names: &[Text],
) -> Result<Seq<TestSource>, TestStop>
    ensures sources { IfOk result (AreSources (F.told files.old) names.now) }
    ensures fault { IfErr result (TellsSources (F.told files.old) names.now) }
    ensures same_files { F.told files.new ≡ F.told files.old }
{
    let mut sources = Seq::new(alloc);
    for name in names {
        sources.push(read_source(alloc, files, name.as_bytes())?)?;
    }
    Ok(sources)
}

fn check_source<F: Files>(alloc: Global, files: &mut F, source: &TestSource) -> Result<(), TestStop>
    ensures named { OnOk result (AreNamed (F.told files.old) source.now) }
    ensures fault { IfErr result (TellsNamesOf (F.told files.old) source.now) }
    ensures same_files { F.told files.new ≡ F.told files.old }
{
    for test in source.file.tests.as_slice() {
        check_test(alloc, files, source, test)?;
    }
    Ok(())
}

fn check_sources<F: Files>(
    alloc: Global,
    files: &mut F,
    sources: &[TestSource],
) -> Result<(), TestStop>
    ensures named { OnOk result (All (AreNamed (F.told files.old)) sources.now) }
    ensures fault { IfErr result (TellsAllNames (F.told files.old) sources.now) }
    ensures same_files { F.told files.new ≡ F.told files.old }
{
    for source in sources {
        check_source(alloc, files, source)?;
    }
    Ok(())
}

// Adds the results of the tests of a file. Says whether all passed.
fn run_source<F: Files, S: Sink>(
    alloc: Global,
    words: &TestWords,
    files: &mut F,
    source: &TestSource,
    schedule: &mut S,
    results: &mut Seq<TestResult>,
) -> Result<bool, TestStop>
    ensures comes { IfOk result
        (λ passed. SourceComes (F.told files.old) words.now passed source.now) }
    ensures results { OnOk result (Adds (F.told files.old) words.now
        (chosen_from words.now source.now) results.old results.new (S.written schedule.old)
        (S.written schedule.new)) }
    ensures fault { IfErr result (TellsOrdersOf words.now source.now) }
    ensures same_files { F.told files.new ≡ F.told files.old }
{
    let mut all = true;
    for test in source.file.tests.as_slice() {
        let passed = run_chosen(alloc, words, files, source, test, schedule, results)?;
        all = both(all, passed);
    }
    Ok(all)
}

fn both(all: bool, passed: bool) -> bool
    ensures { result ≡ all && passed }
{
    all && passed
}

// Adds the results of all tests. Says whether all passed.
fn run_sources<F: Files, S: Sink>(
    alloc: Global,
    words: &TestWords,
    files: &mut F,
    sources: &[TestSource],
    schedule: &mut S,
    results: &mut Seq<TestResult>,
) -> Result<bool, TestStop>
    ensures comes { IfOk result
        (λ passed. SourcesCome (F.told files.old) words.now passed sources.now) }
    ensures results { OnOk result (Adds (F.told files.old) words.now
        (chosen_of words.now sources.now) results.old results.new (S.written schedule.old)
        (S.written schedule.new)) }
    ensures fault { IfErr result (TellsAllOrders words.now sources.now) }
    ensures same_files { F.told files.new ≡ F.told files.old }
{
    let mut all = true;
    for source in sources {
        let passed = run_source(alloc, words, files, source, schedule, results)?;
        all = both(all, passed);
    }
    Ok(all)
}

// Tells what tests came to.
fn say_results<K: Sink>(
    alloc: Global,
    words: &TestWords,
    results: &[TestResult],
    out: &mut K,
) -> Result<(), TestStop>
    ensures written { OnOk result (K.written out.new
        ≡ told_more (K.written out.old) (report_text words.now.shape results.now)) }
    ensures fault { IfErr result TellsNoFile }
{
    let text = report_text(alloc, words.shape, results)?;
    say(out, text.as_bytes())
}

// Makes all runs, and tells what they came to. Says whether all passed.
fn run_and_say<F: Files, K: Sink, S: Sink>(
    alloc: Global,
    words: &TestWords,
    files: &mut F,
    sources: &[TestSource],
    out: &mut K,
    schedule: &mut S,
    results: &mut Seq<TestResult>,
) -> Result<bool, TestStop>
    ensures comes { IfOk result
        (λ passed. SourcesCome (F.told files.old) words.now passed sources.now) }
    ensures results { OnOk result (Adds (F.told files.old) words.now
        (chosen_of words.now sources.now) results.old results.new (S.written schedule.old)
        (S.written schedule.new)) }
    ensures written { OnOk result (K.written out.new
        ≡ told_more (K.written out.old) (report_text words.now.shape results.new)) }
    ensures fault { IfErr result (TellsOfSources (F.told files.old) words.now sources.now) }
    ensures quiet { IfErr result (Quiet (K.written out.old) (K.written out.new)) }
{
    check_sources(alloc, files, sources)?;
    let passed = run_sources(alloc, words, files, sources, schedule, results)?;
    say_results(alloc, words, results.as_slice(), out)?;
    Ok(passed)
}

// The same, with a place for the results.
#[tactic(auto, using(crate::proofs::Told::reports))]
fn test_sources<F: Files, K: Sink, S: Sink>(
    alloc: Global,
    words: &TestWords,
    files: &mut F,
    sources: &[TestSource],
    out: &mut K,
    schedule: &mut S,
) -> Result<bool, TestStop>
    ensures comes { IfOk result
        (λ passed. SourcesCome (F.told files.old) words.now passed sources.now) }
    ensures reported { OnOk result (Reported (F.told files.old) words.now sources.now
        (S.written schedule.old) (S.written schedule.new) (K.written out.old)
        (K.written out.new)) }
    ensures fault { IfErr result (TellsOfSources (F.told files.old) words.now sources.now) }
    ensures quiet { IfErr result (Quiet (K.written out.old) (K.written out.new)) }
{
    let mut results = Seq::new(alloc);
    let passed = run_and_say(alloc, words, files, sources, out, schedule, &mut results);
    drop(results);
    passed
}

/// Reads the files, makes all runs, and tells what they came to. Says whether all passed.
#[tactic(auto, using(crate::proofs::Told::files_come))]
pub(crate) fn test_files<F: Files, K: Sink, S: Sink>(
    alloc: Global,
    words: &TestWords,
    files: &mut F,
    out: &mut K,
    schedule: &mut S,
) -> Result<bool, TestStop>
    ensures comes { IfOk result (FilesCome (F.told files.old) words.now
        (S.written schedule.old) (S.written schedule.new) (K.written out.old)
        (K.written out.new)) }
    ensures fault { IfErr result (TellsFiles (F.told files.old) words.now) }
    ensures quiet { IfErr result (Quiet (K.written out.old) (K.written out.new)) }
{
    let sources = read_sources(alloc, files, words.files.as_slice())?;
    let passed = test_sources(alloc, words, files, sources.as_slice(), out, schedule);
    drop(sources);
    passed
}
