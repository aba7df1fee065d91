// The runs of a test.

ghost use Rattle.std.specs.Prelude.{◌≡◌, ◌++◌, IfErr, IfOk, OnOk};
ghost use Rattle.tested_runs.specs.Runs.{IsJudged, cuts_of, verdict_in};
ghost use Rattle.tested_runs.specs.Schedules.{entry_line, schedule_text};
ghost use Rattle.tested_runs.specs.Sources.{TellsNoFile};

use crate::source::config_of;
use crate::stop::TestStop;
use journal_text::write_event;
use px_bytes::{M, Seq, Text, Texts};
use px_outside::Files;
use std::alloc::Global;
use test_failure::FailedRun;
use test_orders::{Cut, cuts};
use test_past::{RunEntry, Verdict, verdict_of};
use test_plan::{lengths, moves};
use test_text::{PlacedStep, TestCase};
use tested_core::{RunDone, run_moves};

/// A way in which a test may go.
#[derive(Clone, Copy)]
pub(crate) struct Way<'a> {
    pub cut: Cut,
    pub orders: &'a [Seq<usize>],
}

/// A run, and what it came to.
#[derive(Drop)]
pub struct JudgedRun {
    pub done: RunDone,
    pub verdict: Verdict,
    /// How many rows of the session table may be live.
    pub rows: u32,
}

/// Makes a run of a test on a core of its own.
pub(crate) fn judged<F: Files>(
    alloc: Global,
    files: &mut F,
    config: &[u8],
    steps: &[PlacedStep],
    way: Way<'_>,
) -> Result<JudgedRun, TestStop>
    ensures fault { IfErr result TellsNoFile }
    ensures judged { IfOk result (IsJudged (F.told files.old) config.now steps.now way.entry.cut
        way.entry.orders.now) }
    ensures same_files { F.told files.new ≡ F.told files.old }
{
    let config = config_of(alloc, files, config)?;
    let rows = config.rows;
    let moves = moves(alloc, way.cut, way.orders, steps)?;
    let done = run_moves(alloc, config, steps, moves.as_slice())?;
    let verdict = verdict_in(alloc, rows, steps, &done)?;
    Ok(JudgedRun {
        done,
        verdict,
        rows,
    })
}

fn verdict_in(alloc: Global, rows: u32, steps: &[PlacedStep], done: &RunDone) -> M<Verdict>
    ensures { IfOk result (λ verdict. verdict ≡ verdict_in rows steps.now done.now) }
{
    let came = done.run.known().came.as_slice();
    verdict_of(alloc, rows, steps, came, done.end, done.run.entries())
}

/// The ways to cut the texts of a test: all, or none is cut.
pub(crate) fn cuts_of(alloc: Global, all: bool, steps: &[PlacedStep]) -> M<Seq<Cut>>
    ensures { IfOk result (λ found. found ≡ cuts_of all steps.now) }
{
    if all {
        let lengths = lengths(alloc, steps)?;
        return cuts(alloc, lengths.as_slice());
    }
    let mut whole = Seq::new(alloc);
    whole.push(Cut::Whole)?;
    Ok(whole)
}

// What happened before the question of a step was asked.
fn before_step(entries: &[RunEntry], step: usize) -> &[RunEntry] {
    for (at, entry) in entries.iter().enumerate() {
        if let RunEntry::Asks { step: asked } = entry {
            if *asked == step {
                return &entries[..at];
            }
        }
    }
    entries
}

/// Adds the lines that tell why a run failed.
pub(crate) fn add_failure(
    alloc: Global,
    lines: &mut Texts,
    test: &TestCase,
    judged: &JudgedRun,
) -> M<()> {
    let all = judged.done.run.entries();
    let entries = match judged.verdict {
        Verdict::Question { step } => before_step(all, step),
        _ => all,
    };
    let failed = FailedRun {
        test,
        came: judged.done.run.known().came.as_slice(),
        entries,
        rows: judged.rows,
    };
    failed.add_lines(alloc, lines, judged.done.end, judged.verdict)
}

// Adds the line of an event that was given.
fn add_line(alloc: Global, text: &mut Text, entry: &RunEntry) -> M<()>
    ensures { OnOk result (text.new ≡ text.old ++ entry_line entry.now) }
{
    match entry {
        RunEntry::Given(event) => text.push(write_event(alloc, event)?.as_bytes()),
        _ => Ok(()),
    }
}

/// The lines of the events of a run: a schedule that `replay` reads.
pub(crate) fn schedule_of(alloc: Global, entries: &[RunEntry]) -> M<Text>
    ensures { IfOk result (λ text. text ≡ schedule_text entries.now) }
{
    let mut text = Text::empty(alloc);
    for entry in entries {
        add_line(alloc, &mut text, entry)?;
    }
    Ok(text)
}
