// The report as JUnit has it.

ghost use Rattle.std.specs.Prelude.{◌≡◌, IfOk, None, option_map};
ghost use Rattle.test_report.specs.Report.{case_end, case_text, counts_text, first_of, is_of, is_open};
ghost use Rattle.test_report.specs.Report.{junit_text, new_suite, suite_begin, suite_end, suites_from};
ghost use Rattle.test_report.specs.Report.{turn_text, turned_case};

use crate::joined::{joined, print_number};
use crate::plain::failures;
use crate::result::TestResult;
use crate::xml::{failure_text, xml};
use px_bytes::{M, Text};
use std::alloc::Global;

fn case_end(alloc: Global, one: &TestResult) -> M<Text>
    ensures { IfOk result (λ text. text ≡ case_end one.now) }
{
    if one.passed {
        return Text::new(alloc, b"\"/>\n");
    }
    let failure = failure_text(alloc, one.failure.as_slice())?;
    joined(alloc, &[b"\">\n", failure.as_bytes(), b"    </testcase>\n"])
}

fn case_text(alloc: Global, one: &TestResult) -> M<Text>
    ensures { IfOk result (λ text. text ≡ case_text one.now) }
{
    let file = xml(alloc, one.file.as_bytes())?;
    let name = xml(alloc, one.name.as_bytes())?;
    let end = case_end(alloc, one)?;
    joined(
        alloc,
        &[
            b"    <testcase classname=\"",
            file.as_bytes(),
            b"\" name=\"",
            name.as_bytes(),
            end.as_bytes(),
        ],
    )
}

fn counts_text(alloc: Global, results: &[TestResult]) -> M<Text>
    ensures { IfOk result (λ text. text ≡ counts_text results.now) }
{
    let tests = print_number(alloc, results.len())?;
    let failed = print_number(alloc, failures(results))?;
    joined(
        alloc,
        &[
            b"\" tests=\"",
            tests.as_bytes(),
            b"\" failures=\"",
            failed.as_bytes(),
            b"\">\n",
        ],
    )
}

fn is_of(file: &[u8], one: &TestResult) -> bool
    ensures { result ≡ is_of file.now one.now }
{
    one.file.as_bytes() == file
}

// The first results that are of a file.
fn first_of<'a>(file: &[u8], results: &'a [TestResult]) -> &'a [TestResult]
    ensures { result.now ≡ first_of file.now results.entry.now }
{
    for (at, one) in results.iter().enumerate() {
        if !is_of(file, one) {
            return &results[..at];
        }
    }
    results
}

fn suite_begin(alloc: Global, file: &[u8], results: &[TestResult]) -> M<Text>
    ensures { IfOk result (λ text. text ≡ suite_begin file.now results.now) }
{
    let name = xml(alloc, file)?;
    let counts = counts_text(alloc, first_of(file, results))?;
    joined(
        alloc,
        &[b"  <testsuite name=\"", name.as_bytes(), counts.as_bytes()],
    )
}

fn suite_end(before: Option<&[u8]>) -> &'static [u8]
    ensures { result.now ≡ suite_end (option_map (λ b. b.now) before.entry) }
{
    match before {
        None => b"",
        Some(_) => b"  </testsuite>\n",
    }
}

fn is_open(before: Option<&[u8]>, one: &TestResult) -> bool
    ensures { result ≡ is_open (option_map (λ b. b.now) before.entry) one.now }
{
    match before {
        None => false,
        Some(file) => is_of(file, one),
    }
}

// The end of a suite, if one is open, and the begin of another one.
fn new_suite(
    alloc: Global,
    before: Option<&[u8]>,
    one: &TestResult,
    results: &[TestResult],
) -> M<Text>
    ensures { IfOk result (λ text. text
        ≡ new_suite (option_map (λ b. b.now) before.entry) one.now results.now) }
{
    let begin = suite_begin(alloc, one.file.as_bytes(), results)?;
    let end = suite_end(before);
    joined(alloc, &[end, begin.as_bytes()])
}

// What stands before the case of the first of these results.
fn turn_text(
    alloc: Global,
    before: Option<&[u8]>,
    one: &TestResult,
    results: &[TestResult],
) -> M<Text>
    ensures { IfOk result (λ text. text
        ≡ turn_text (option_map (λ b. b.now) before.entry) one.now results.now) }
{
    if is_open(before, one) {
        return Ok(Text::empty(alloc));
    }
    new_suite(alloc, before, one, results)
}

fn turned_case(
    alloc: Global,
    before: Option<&[u8]>,
    one: &TestResult,
    results: &[TestResult],
) -> M<Text>
    ensures { IfOk result (λ text. text
        ≡ turned_case (option_map (λ b. b.now) before.entry) one.now results.now) }
{
    let turn = turn_text(alloc, before, one, results)?;
    let case = case_text(alloc, one)?;
    joined(alloc, &[turn.as_bytes(), case.as_bytes()])
}

// Suites, one for each run of results of one file.
fn suites(alloc: Global, results: &[TestResult]) -> M<Text>
    ensures { IfOk result (λ text. text ≡ suites_from None results.now) }
{
    let mut text = Text::empty(alloc);
    let mut before: Option<&[u8]> = None;
    for (at, one) in results.iter().enumerate() {
        let part = turned_case(alloc, before, one, &results[at..])?;
        text.push(part.as_bytes())?;
        before = Some(one.file.as_bytes());
    }
    text.push(suite_end(before))?;
    Ok(text)
}

/// A suite for each file, and in it a case for each test.
pub(crate) fn junit_text(alloc: Global, results: &[TestResult]) -> M<Text>
    ensures { IfOk result (λ text. text ≡ junit_text results.now) }
{
    let tests = print_number(alloc, results.len())?;
    let failed = print_number(alloc, failures(results))?;
    let suites = suites(alloc, results)?;
    joined(
        alloc,
        &[
            b"<?xml version=\"1.0\" encoding=\"UTF-8\"?>\n<testsuites",
            b" tests=\"",
            tests.as_bytes(),
            b"\" failures=\"",
            failed.as_bytes(),
            b"\">\n",
            suites.as_bytes(),
            b"</testsuites>\n",
        ],
    )
}
