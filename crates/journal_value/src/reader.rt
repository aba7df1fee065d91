// The lines of a journal, one after another.

ghost use Rattle.std.specs.Prelude.{◌≡◌, ◌<◌, ◌∷◌, ◌+◌, [], IfErr, IfNone, IfOk, IfSome, List, length, ℕ};
ghost use Rattle.journal_value.specs.Journal.{FirstFault, is_skipped, parts_of, unended_kind};
ghost use Rattle.journal_value.specs.Reading.{HasNext, HasRead, IsNextLine};
ghost use Rattle.journal_value.specs.declared.journal.JournalLine.{JournalLine};

use crate::journal::{JournalLine, LineFault};
use crate::line::line_of;
use journal_text::{LONGEST_LINE, LineKind};
use memchr::memchr;
use std::alloc::Global;
use std::marker::Model;

/// Reads the lines of a journal one after another, and keeps none of them.
#[derive(Drop)]
pub struct JournalReader<'a> {
    rest: &'a [u8],
    line: u64,
}

impl<'a> Model for JournalReader<'a> {
    ghost use Rattle.std.specs.Prelude.{ℕ, ◌+◌, ◌<◌, ◌^◌, List, length};

    /// What wasn't read yet, and how many lines were.
    ghost Value = { List ℕ × ℕ };

    ghost view = { λ r. (r.rest.now, r.line) };

    ghost invariant = { λ r. r.line + length r.rest.now < 2 ^ 63 };
}

impl<'a> JournalReader<'a> {
    pub fn new(text: &'a [u8]) -> JournalReader<'a>
        ensures begins { HasRead text.now result [] }
    {
        JournalReader {
            rest: text,
            line: 0,
        }
    }

    /// What the next line tells that tells something; None where all were read.
    pub fn next(&mut self, alloc: Global) -> Result<Option<JournalLine>, LineFault>
        ensures told { IfOk result (λ told. (text : List ℕ) (past : List JournalLine)
            → HasRead text self.old past → HasNext text self.new past told) }
        ensures shorter { IfOk result (λ told. IfSome told (λ line.
            length self.new.0 < length self.old.0)) }
        ensures fault { IfErr result (λ fault. (text : List ℕ) (past : List JournalLine)
            → HasRead text self.old past → FirstFault text fault) }
    {
        while let Some(line) = self.next_line() {
            match line_of(alloc, line) {
                Ok(None) => {}
                Ok(Some(told)) => return Ok(Some(told)),
                Err(kind) => {
                    return Err(LineFault {
                        line: self.line,
                        kind,
                    });
                }
            }
        }
        if self.rest.is_empty() {
            return Ok(None);
        }
        Err(LineFault {
            line: self.line + 1,
            kind: unended(self.rest),
        })
    }

    // The next line that has its LF.
    fn next_line(&mut self) -> Option<&'a [u8]>
        ensures some { IfSome result (λ line. IsNextLine self.old line.now self.new) }
        ensures none { IfNone result ((self.new ≡ self.old)
            × (parts_of self.old.0 ≡ self.old.0 ∷ [])) }
    {
        let Some(at) = memchr(b'\n', self.rest) else {
            return None;
        };
        let line = &self.rest[..at];
        self.rest = &self.rest[at + 1..];
        self.line += 1;
        Some(line)
    }
}

// What is wrong with a last line without LF.
fn unended(line: &[u8]) -> LineKind
    ensures { result ≡ unended_kind line.now }
{
    if is_skipped(line) || line.len() <= LONGEST_LINE {
        LineKind::NoNewline
    } else {
        LineKind::LongLine
    }
}

fn is_skipped(line: &[u8]) -> bool
    ensures { result ≡ is_skipped line.now }
{
    matches!(line, [] | [b'#' | b'>', ..])
}
