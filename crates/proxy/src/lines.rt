// The lines of a schedule.

ghost use Rattle.std.specs.Prelude.{◌≡◌, ◌≤◌, ◌<◌, ◌+◌, ◌^◌, OnOk, IfErr, IfSome, Option, List, []};
ghost use Rattle.std.specs.Prelude.{ℕ, length, nat_eq};
ghost use Rattle.std.specs.List.{position_from};
ghost use Rattle.px_outside.specs.Outside.{Rose};
ghost use Rattle.run_config.specs.declared.config.Config.{Config};
ghost use Rattle.journal_text.specs.Line.{IsSkipped};
ghost use Rattle.journal_text.specs.declared.line_kind.LineKind.TheVariants.{NoNewline};
ghost use Rattle.proxy.specs.Lines.{IsLine, unended_kind};
ghost use Rattle.proxy.specs.Stops.{GoesOnBehind, StopsBehind, Stopped};
ghost use Rattle.proxy.specs.Written.{Stands, StandsAtEnd};

use crate::replay::{Replay, Stop};
use journal_text::{LONGEST_LINE, LineKind, line_event};
use px_bytes::Steps;
use px_outside::Sink;
use std::alloc::Global;
use std::sync::ledger::Ledger;

impl Replay {
    /// Gives the events of all lines to the core, and writes their notes.
    pub fn lines<K: Sink, L: Ledger>(
        &mut self,
        alloc: Global,
        schedule: &[u8],
        steps: &mut Steps<L>,
        out: &mut K,
    ) -> Result<(), Stop>
        requires { self.old.events ≡ 0 }
        ensures goes_on { OnOk result ((C : Config) (told : Option (List ℕ)) →
            Stands C [] 0 self.old.core self.old.taken.items self.old.events told
            (K.written out.old) →
            StandsAtEnd C schedule.now self.new.core self.new.taken.items self.new.events told
            (K.written out.new)) }
        ensures stops { IfErr result (λ why. (C : Config) (told : Option (List ℕ)) →
            Stands C [] 0 self.old.core self.old.taken.items self.old.events told
            (K.written out.old) →
            Stopped C schedule.now self.new.core self.new.taken.items self.new.events told
            (K.written out.new) why) }
        ensures failed_is_counted { IfErr result
            (λ why. why ≡ Stop.WriteFault → Rose (K.faults out.old) (K.faults out.new)) }
        ensures faults_never_fall { K.faults out.old ≤ K.faults out.new }
    {
        let mut at = 0;
        let mut line = 0;
        while at < schedule.len() {
            line += 1;
            let Some(len) = line_len(&schedule[at..]) else {
                let kind = last_kind(alloc, &schedule[at..]);
                return Err(Stop::Text { line, kind });
            };
            if let Err(why) = self.line(alloc, line, &schedule[at..at + len], steps, out) {
                return Err(why);
            }
            at += len + 1;
        }
        Ok(())
    }

    // Gives the event of one line to the core.
    fn line<K: Sink, L: Ledger>(
        &mut self,
        alloc: Global,
        line: u64,
        text: &[u8],
        steps: &mut Steps<L>,
        out: &mut K,
    ) -> Result<(), Stop>
        requires room { self.old.events + 1 < 2 ^ 64 }
        requires is_line { IsLine text.now }
        ensures goes_on { OnOk result (GoesOnBehind text.now self.old.core self.new.core
            self.old.taken.items self.new.taken.items self.old.events self.new.events
            (K.written out.old) (K.written out.new)) }
        ensures stops { IfErr result (StopsBehind line text.now self.old.core self.new.core
            self.old.taken.items self.new.taken.items self.old.events self.new.events
            (K.written out.old) (K.written out.new)) }
        ensures failed_is_counted { IfErr result
            (λ why. why ≡ Stop.WriteFault → Rose (K.faults out.old) (K.faults out.new)) }
        ensures faults_never_fall { K.faults out.old ≤ K.faults out.new }
        ensures counts { self.new.events ≤ self.old.events + 1 }
    {
        match line_event(alloc, text) {
            Ok(None) => Ok(()),
            Ok(Some(event)) => self.event(alloc, line, event, steps, out),
            Err(LineKind::Memory) => Err(Stop::Memory),
            Err(kind) => Err(Stop::Text { line, kind }),
        }
    }
}

// What is wrong with a last line without its newline, skipped or not.
fn last_kind(alloc: Global, text: &[u8]) -> LineKind
    ensures skipped { IsSkipped text.now → result ≡ NoNewline }
    ensures not_skipped { (IsSkipped text.now → ⊥) → result ≡ unended_kind text.now }
{
    match line_event(alloc, text) {
        Ok(None) => LineKind::NoNewline,
        _ => unended_kind(text),
    }
}

// The same of one that isn't skipped.
fn unended_kind(text: &[u8]) -> LineKind
    ensures { result ≡ unended_kind text.now }
{
    if LONGEST_LINE < text.len() {
        LineKind::LongLine
    } else {
        LineKind::NoNewline
    }
}

// How many bytes stand before the first newline.
fn line_len(bytes: &[u8]) -> Option<usize>
    ensures place { result ≡ position_from (λ b. nat_eq b 10) 0 bytes.now }
    ensures within { IfSome result (λ len. len < length bytes.now) }
{
    bytes.iter().position(|b| *b == b'\n')
}
