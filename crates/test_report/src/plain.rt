// The plain report.

ghost use Rattle.std.specs.Prelude.{◌≡◌, IfOk};
ghost use Rattle.test_report.specs.Report.{failures, plain_all, plain_head, plain_line, plain_one};
ghost use Rattle.test_report.specs.Report.{plain_place, plain_text, runs_text, runs_word};

use crate::ascii::{ascii, ascii_lines};
use crate::joined::{joined, print_number};
use crate::result::TestResult;
use px_bytes::{M, Text};
use std::alloc::Global;

/// How many tests failed.
pub(crate) fn failures(results: &[TestResult]) -> usize
    ensures { result ≡ failures results.now }
{
    results.iter().filter(|one| !one.passed).count()
}

fn runs_word(runs: usize) -> &'static [u8]
    ensures { result.now ≡ runs_word runs }
{
    if runs == 1 { b" run)" } else { b" runs)" }
}

fn runs_text(alloc: Global, one: &TestResult) -> M<Text>
    ensures { IfOk result (λ text. text ≡ runs_text one.now) }
{
    if !one.passed {
        return Ok(Text::empty(alloc));
    }
    let runs = print_number(alloc, one.runs)?;
    joined(alloc, &[b"  (", runs.as_bytes(), runs_word(one.runs)])
}

fn plain_head(passed: bool) -> &'static [u8]
    ensures { result.now ≡ plain_head passed }
{
    if passed { b"ok   " } else { b"FAIL " }
}

fn plain_place(alloc: Global, one: &TestResult) -> M<Text>
    ensures { IfOk result (λ text. text ≡ plain_place one.now) }
{
    let file = ascii(alloc, one.file.as_bytes())?;
    let line = print_number(alloc, one.line)?;
    joined(alloc, &[file.as_bytes(), b":", line.as_bytes()])
}

fn plain_line(alloc: Global, one: &TestResult) -> M<Text>
    ensures { IfOk result (λ text. text ≡ plain_line one.now) }
{
    let place = plain_place(alloc, one)?;
    let name = ascii(alloc, one.name.as_bytes())?;
    let runs = runs_text(alloc, one)?;
    joined(
        alloc,
        &[
            plain_head(one.passed),
            place.as_bytes(),
            b"  ",
            name.as_bytes(),
            runs.as_bytes(),
            b"\n",
        ],
    )
}

fn plain_one(alloc: Global, one: &TestResult) -> M<Text>
    ensures { IfOk result (λ text. text ≡ plain_one one.now) }
{
    let line = plain_line(alloc, one)?;
    let failure = ascii_lines(alloc, b"  ", one.failure.as_slice())?;
    joined(alloc, &[line.as_bytes(), failure.as_bytes()])
}

fn plain_all(alloc: Global, results: &[TestResult]) -> M<Text>
    ensures { IfOk result (λ text. text ≡ plain_all results.now) }
{
    let mut text = Text::empty(alloc);
    for one in results {
        let part = plain_one(alloc, one)?;
        text.push(part.as_bytes())?;
    }
    Ok(text)
}

/// A line for each test, with the lines of its failure behind it, and how many passed.
pub(crate) fn plain_text(alloc: Global, results: &[TestResult]) -> M<Text>
    ensures { IfOk result (λ text. text ≡ plain_text results.now) }
{
    let count = failures(results);
    let all = plain_all(alloc, results)?;
    let passed = print_number(alloc, results.len().saturating_sub(count))?;
    let failed = print_number(alloc, count)?;
    joined(
        alloc,
        &[
            all.as_bytes(),
            passed.as_bytes(),
            b" passed, ",
            failed.as_bytes(),
            b" failed\n",
        ],
    )
}
