// Words of which there are a few: sides, reasons, kinds of faults.

ghost use Rattle.std.specs.Prelude.{◌≡◌, find, List, ℕ, nat_eq, Bool, ◌==◌};
ghost use Rattle.std.specs.Str.{bytes_eq};
ghost use Rattle.core_events.specs.declared.note.CutReason.{CutReason};
ghost use Rattle.px_bytes.specs.declared.addr.Side.{Side};
ghost use Rattle.px_bytes.specs.declared.fault.FaultKind.{FaultKind};
ghost use Rattle.px_bytes.specs.declared.fault.HttpFault.{HttpFault};
ghost use Rattle.std.specs.Fmt.{decimal};
ghost use Rattle.journal_text.specs.Notes.{cut_text, fault_number, http_number, kept_text};
ghost use Rattle.journal_text.specs.Notes.{side_text};
ghost use Rattle.journal_value.specs.Exact.{Anything, Exact};
ghost use Rattle.journal_value.specs.Words.{every_http, every_kept, every_kind, every_reason};
ghost use Rattle.journal_value.specs.Words.{every_side};

use core_events::CutReason;
use px_bytes::{FaultKind, HttpFault, Side, read_decimal};

const SIDES: [Side; 2] = [Side::Client, Side::Server];

const KEPT: [bool; 2] = [true, false];

const REASONS: [CutReason; 3] = [
    CutReason::ClientReset,
    CutReason::ServerReset,
    CutReason::Idle,
];

const KINDS: [FaultKind; 14] = [
    FaultKind::NoVariable,
    FaultKind::NoCommand,
    FaultKind::Arity,
    FaultKind::NotWhole,
    FaultKind::OutOfRange,
    FaultKind::DivideByZero,
    FaultKind::TooLong,
    FaultKind::TooDeep,
    FaultKind::Budget,
    FaultKind::Context,
    FaultKind::Raised,
    FaultKind::Syntax,
    FaultKind::NoSuch,
    FaultKind::TableFull,
];

const HTTP_FAULTS: [HttpFault; 8] = [
    HttpFault::BadHead,
    HttpFault::LongHead,
    HttpFault::Host,
    HttpFault::Framing,
    HttpFault::BadChunk,
    HttpFault::ShortBody,
    HttpFault::Switching,
    HttpFault::Method,
];

/// The side of this name.
pub fn side_of(word: &[u8]) -> Option<Side>
    ensures { Exact Side (List ℕ) side_text Anything word.now result }
{
    side_at(word)
}

fn side_at(word: &[u8]) -> Option<Side>
    ensures { result ≡ find (λ side. bytes_eq (side_text side) word.now) every_side }
{
    SIDES.iter().copied().find(|side| side_text(*side) == word)
}

fn side_text(side: Side) -> &'static [u8]
    ensures { result.now ≡ side_text side }
{
    match side {
        Side::Client => b"client",
        Side::Server => b"server",
    }
}

/// Whether a server connection is used again, by its word.
pub fn kept_of(word: &[u8]) -> Option<bool>
    ensures { Exact Bool (List ℕ) kept_text Anything word.now result }
{
    kept_at(word)
}

fn kept_at(word: &[u8]) -> Option<bool>
    ensures { result ≡ find (λ kept. bytes_eq (kept_text kept) word.now) every_kept }
{
    KEPT.iter().copied().find(|kept| kept_text(*kept) == word)
}

fn kept_text(kept: bool) -> &'static [u8]
    ensures { result.now ≡ kept_text kept }
{
    if kept { b"kept" } else { b"gone" }
}

/// Why a connection was cut, by its word.
pub fn reason_of(word: &[u8]) -> Option<CutReason>
    ensures { Exact CutReason (List ℕ) cut_text Anything word.now result }
{
    reason_at(word)
}

fn reason_at(word: &[u8]) -> Option<CutReason>
    ensures { result ≡ find (λ reason. bytes_eq (cut_text reason) word.now) every_reason }
{
    REASONS
        .iter()
        .copied()
        .find(|reason| cut_text(*reason) == word)
}

fn cut_text(reason: CutReason) -> &'static [u8]
    ensures { result.now ≡ cut_text reason }
{
    match reason {
        CutReason::ClientReset => b"client-reset",
        CutReason::ServerReset => b"server-reset",
        CutReason::Idle => b"idle",
    }
}

/// The kind of a fault, by its number.
pub fn kind_of(word: &[u8]) -> Option<FaultKind>
    ensures { Exact FaultKind (List ℕ) (λ kind. decimal (fault_number kind)) Anything word.now result }
{
    kind_at(read_decimal(word, u64::MAX)?)
}

fn kind_at(number: u64) -> Option<FaultKind>
    ensures { result ≡ find (λ kind. fault_number kind == number) every_kind }
{
    KINDS
        .iter()
        .copied()
        .find(|kind| fault_number(*kind) == number)
}

fn fault_number(kind: FaultKind) -> u64
    ensures { result ≡ fault_number kind }
{
    kind as u64
}

/// The fault of an HTTP message, by its number.
pub fn http_of(word: &[u8]) -> Option<HttpFault>
    ensures { Exact HttpFault (List ℕ) (λ fault. decimal (http_number fault)) Anything word.now result }
{
    http_at(read_decimal(word, u64::MAX)?)
}

fn http_at(number: u64) -> Option<HttpFault>
    ensures { result ≡ find (λ fault. http_number fault == number) every_http }
{
    HTTP_FAULTS
        .iter()
        .copied()
        .find(|fault| http_number(*fault) == number)
}

// The first one is 1.
fn http_number(fault: HttpFault) -> u64
    ensures { result ≡ http_number fault }
{
    match fault {
        HttpFault::BadHead => 1,
        HttpFault::LongHead => 2,
        HttpFault::Host => 3,
        HttpFault::Framing => 4,
        HttpFault::BadChunk => 5,
        HttpFault::ShortBody => 6,
        HttpFault::Switching => 7,
        HttpFault::Method => 8,
    }
}
