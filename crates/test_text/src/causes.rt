// Causes for which connections end, in a report's words.

ghost use Rattle.std.specs.Prelude.{◌≡◌, ◌≤◌};
ghost use Rattle.journal_text.specs.Notes.{fault_number, http_number};
ghost use Rattle.test_text.specs.Expectations.{cause_at, http_cause, http_of, is_pair, kind_of};
ghost use Rattle.test_text.specs.Expectations.{pair_cause, reason_at, tcl_cause, word_cause};
ghost use Rattle.test_text.specs.Line.{line_view};

use crate::deeds::MOST;
use crate::fault::{TestFault, TestFaultKind, fault_at};
use crate::line::Line;
use core_events::{Cause, CutReason};
use px_bytes::{FaultKind, HttpFault};

const KINDS: [FaultKind; 14] = [
    FaultKind::NoVariable,
    FaultKind::NoCommand,
    FaultKind::Arity,
    FaultKind::NotWhole,
    FaultKind::OutOfRange,
    FaultKind::DivideByZero,
    FaultKind::TooLong,
    FaultKind::TooDeep,
    FaultKind::Budget,
    FaultKind::Context,
    FaultKind::Raised,
    FaultKind::Syntax,
    FaultKind::NoSuch,
    FaultKind::TableFull,
];

const HTTP_FAULTS: [HttpFault; 8] = [
    HttpFault::BadHead,
    HttpFault::LongHead,
    HttpFault::Host,
    HttpFault::Framing,
    HttpFault::BadChunk,
    HttpFault::ShortBody,
    HttpFault::Switching,
    HttpFault::Method,
];

fn kind_of(number: u64) -> Option<FaultKind>
    ensures { result ≡ kind_of number }
{
    KINDS
        .iter()
        .copied()
        .find(|kind| fault_number(*kind) == number)
}

fn fault_number(kind: FaultKind) -> u64
    ensures { result ≡ fault_number kind }
{
    kind as u64
}

fn http_of(number: u64) -> Option<HttpFault>
    ensures { result ≡ http_of number }
{
    HTTP_FAULTS
        .iter()
        .copied()
        .find(|fault| http_number(*fault) == number)
}

fn http_number(fault: HttpFault) -> u64
    ensures { result ≡ http_number fault }
{
    fault as u64 + 1
}

fn reason(line: Line<'_>, at: usize) -> Result<CutReason, TestFault>
    ensures { result ≡ reason_at (line_view line.entry) at }
{
    if line.has(at, b"client-reset") {
        return Ok(CutReason::ClientReset);
    }
    if line.has(at, b"server-reset") {
        return Ok(CutReason::ServerReset);
    }
    if line.has(at, b"idle") {
        return Ok(CutReason::Idle);
    }
    Err(line.odd(at))
}

// A cause of one word.
fn word_cause(line: Line<'_>, at: usize) -> Result<Cause, TestFault>
    ensures { result ≡ word_cause (line_view line.entry) at }
{
    if line.has(at, b"closed") {
        return Ok(Cause::Closed);
    }
    if line.has(at, b"rejected") {
        return Ok(Cause::Rejected);
    }
    if line.has(at, b"unselected") {
        return Ok(Cause::Unselected);
    }
    if line.has(at, b"memory") {
        return Ok(Cause::Memory);
    }
    Err(line.odd(at))
}

fn tcl_cause(line: Line<'_>, at: usize) -> Result<Cause, TestFault>
    ensures { result ≡ tcl_cause (line_view line.entry) at }
{
    match kind_of(line.number(MOST, at)?) {
        Some(kind) => Ok(Cause::Tcl(kind)),
        None => Err(fault_at(TestFaultKind::NoCause, line.place(at))),
    }
}

fn http_cause(line: Line<'_>, at: usize) -> Result<Cause, TestFault>
    ensures { result ≡ http_cause (line_view line.entry) at }
{
    match http_of(line.number(MOST, at)?) {
        Some(fault) => Ok(Cause::Http(fault)),
        None => Err(fault_at(TestFaultKind::NoCause, line.place(at))),
    }
}

// `tcl 1`, `http 1`, `cut idle`
fn pair_cause(line: Line<'_>, at: usize) -> Result<Cause, TestFault>
    requires { at ≤ 8 }
    ensures { result ≡ pair_cause (line_view line.entry) at }
{
    if line.has(at, b"tcl") {
        return tcl_cause(line, at + 1);
    }
    if line.has(at, b"http") {
        return http_cause(line, at + 1);
    }
    Ok(Cause::Cut(reason(line, at + 1)?))
}

fn is_pair(line: Line<'_>, at: usize) -> bool
    ensures { result ≡ is_pair (line_view line.entry) at }
{
    line.has(at, b"tcl") || line.has(at, b"http") || line.has(at, b"cut")
}

impl Line<'_> {
    /// The cause at a place, behind which nothing stands.
    pub(crate) fn cause(self, at: usize) -> Result<Cause, TestFault>
        requires { at ≤ 8 }
        ensures { result ≡ cause_at (line_view self.entry) at }
    {
        if is_pair(self, at) {
            let cause = pair_cause(self, at)?;
            self.ends(at + 2)?;
            return Ok(cause);
        }
        let cause = word_cause(self, at)?;
        self.ends(at + 1)?;
        Ok(cause)
    }
}
