// The command that tests rules.

ghost use Rattle.std.specs.Prelude.{◌≡◌, IfOk};
ghost use Rattle.px_outside.specs.Outside.{told_more};
ghost use Rattle.rule_tests.specs.Tests.{Ends, IsOther};
ghost use Rattle.rule_tests.specs.Told.{SaysEnd, SaysStop, Tested};
ghost use Rattle.test_words.specs.Words.{words_of};

use crate::all_tests::test_files;
use crate::say::say;
use proxy::Status;
use px_bytes::Texts;
use px_outside::{Files, Sink};
use std::alloc::Global;
use test_words::words_of;
use tested_runs::TestStop;

// The status behind a text that was said, unless that failed.
fn said<K: Sink>(out: &mut K, text: &[u8], status: u8) -> Status
    requires { IsOther status }
    ensures other { IsOther result.0 }
    ensures as_said { result.0 ≡ 11 → status ≡ 11 }
    ensures written { result.0 ≡ 11 → (K.written out.new ≡ told_more (K.written out.old) text.now) }
{
    match say(out, text) {
        Ok(()) => Status(status),
        Err(TestStop::Write) => Status(6),
        Err(_) => Status(7),
    }
}

// The status where tests weren't run, and why they weren't.
fn stopped<K: Sink>(out: &mut K, stop: TestStop) -> Status
    ensures other { IsOther result.0 }
    ensures told { result.0 ≡ 11 → SaysStop stop (K.written out.old) (K.written out.new) }
{
    match stop {
        TestStop::Read => Status(5),
        TestStop::Write => Status(6),
        TestStop::Config(line) => said(out, line.as_bytes(), 3),
        TestStop::File(line) => said(out, line.as_bytes(), 11),
        TestStop::Memory => Status(7),
    }
}

fn ended<K: Sink>(out: &mut K, passed: Result<bool, TestStop>) -> Status
    ensures ends { Ends passed result.0 }
    ensures told { result.0 ≡ 11 → SaysEnd passed (K.written out.old) (K.written out.new) }
    ensures quiet { IfOk passed (λ all. K.written out.new ≡ K.written out.old) }
{
    match passed {
        Ok(true) => Status(0),
        Ok(false) => Status(10),
        Err(stop) => stopped(out, stop),
    }
}

/// Tests what the words say, and gives the status: 0 where all tests passed, 10 where one failed.
#[tactic(auto, using(crate::proofs::Told::tested))]
pub fn test_command<F: Files, K: Sink, S: Sink>(
    alloc: Global,
    words: &Texts,
    files: &mut F,
    out: &mut K,
    schedule: &mut S,
) -> Status
    ensures { Tested (F.told files.old) (words_of words.now) result.0 (S.written schedule.old)
        (S.written schedule.new) (K.written out.old) (K.written out.new) }
{
    match words_of(alloc, words.as_slice()) {
        Ok(Some(said)) => {
            let passed = test_files(alloc, &said, files, out, schedule);
            ended(out, passed)
        }
        Ok(None) => said(out, b"usage fault\n", 2),
        Err(_) => Status(7),
    }
}
