// The report of tests.

ghost use Rattle.std.specs.Prelude.{◌≡◌, IfOk};
ghost use Rattle.test_report.specs.Report.{report_text};

use crate::junit::junit_text;
use crate::plain::plain_text;
use crate::result::TestResult;
use crate::tap::tap_text;
use px_bytes::{M, Text};
use std::alloc::Global;
use test_words::ReportForm;

/// The report of what tests came to: plain, where no form is said.
pub fn report_text(alloc: Global, shape: Option<ReportForm>, results: &[TestResult]) -> M<Text>
    ensures { IfOk result (λ text. text ≡ report_text shape results.now) }
{
    match shape {
        None | Some(ReportForm::Plain) => plain_text(alloc, results),
        Some(ReportForm::Tap) => tap_text(alloc, results),
        Some(ReportForm::Junit) => junit_text(alloc, results),
    }
}
