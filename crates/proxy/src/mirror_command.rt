// A standby of the session table of a record, fed as a plan says.

ghost use Rattle.std.specs.Prelude.{◌≡◌, ◌<◌, ◌≤◌, Err, IfErr, IfOk, IsErrOf, length, List};
ghost use Rattle.config.specs.Outcomes.{Answers};
ghost use Rattle.journal_value.specs.Journal.{IsJournal};
ghost use Rattle.journal_value.specs.declared.journal.JournalLine.{JournalLine};
ghost use Rattle.px_outside.specs.Outside.{Rose};
ghost use Rattle.proxy.specs.Command.{mirror_names};
ghost use Rattle.proxy.specs.Mirroring.{AreTexts, FollowsPlan, HasRows, MirrorsFiles, MirrorsTo};
ghost use Rattle.proxy.specs.Mirroring.{NamesMoment, OfMoments, TellsMade, TellsSome, outcome_end, outcome_text};
ghost use Rattle.proxy.specs.Mirroring.{stop_end, stop_text};
ghost use Rattle.proxy.specs.declared.end.End.TheVariants.{Schedule};
ghost use Rattle.table_mirror.specs.Outcomes.{ComesTo};
ghost use Rattle.table_mirror.specs.Pushed.{out_of_order, pushed};

use crate::command::MirrorFiles;
use crate::end::End;
use crate::offline_commands::{read_end, refuse, tell};
use crate::report::{mirror_differs_line, plan_fault_line, text_fault_line};
use crate::report_command::tell_line_fault;
use config::{ConfigError, read_config};
use journal_value::{JournalLines, read_journal};
use px_bytes::{M, Text};
use px_outside::{Failed, Files, Sink};
use std::alloc::Global;
use table_mirror::{MirrorOutcome, MirrorStop, follow_plan, out_of_order, pushed_of, told_line};

/// How many rows the table may have, and what a record and a plan hold.
#[derive(Drop)]
pub struct MirrorTexts {
    pub rows: u32,
    pub record_text: Text,
    pub plan: Text,
}

/// Reads the files, and says what the plan comes to; or why the configuration doesn't load.
pub fn mirror<F: Files, K: Sink>(
    alloc: Global,
    named: MirrorFiles<'_>,
    files: &mut F,
    out: &mut K,
) -> End
    ensures { MirrorsFiles (mirror_names named.entry) (F.told files.old) (K.written out.old)
        (K.written out.new) (F.faults files.old) (F.faults files.new) (K.faults out.old)
        (K.faults out.new) result }
{
    let rows = match read_rows(alloc, named.config, files) {
        Ok(rows) => rows,
        Err(why) => return refuse(alloc, why, out),
    };
    match read_texts(alloc, rows, named, files) {
        Ok(texts) => mirror_texts(alloc, &texts, out),
        Err(failed) => read_end(failed),
    }
}

// How many rows the session table of a configuration may have.
fn read_rows<F: Files>(alloc: Global, name: &[u8], files: &mut F) -> Result<u32, ConfigError>
    ensures rows { IfOk result (HasRows (F.told files.old) name.now) }
    ensures refused { IfErr result (λ why. Answers (F.told files.old) (F.faults files.old)
        (F.faults files.new) name.now (Err why)) }
    ensures same_files { F.told files.new ≡ F.told files.old }
    ensures faults_never_fall { F.faults files.old ≤ F.faults files.new }
{
    match read_config(alloc, files, name) {
        Ok(loaded) => Ok(loaded.settings.rows),
        Err(why) => Err(why),
    }
}

fn read_texts<F: Files>(
    alloc: Global,
    rows: u32,
    named: MirrorFiles<'_>,
    files: &mut F,
) -> Result<MirrorTexts, Failed>
    ensures texts { IfOk result (AreTexts (F.told files.old) (mirror_names named.entry) rows) }
    ensures failed_is_counted { IsErrOf result Failed.Failed
        → Rose (F.faults files.old) (F.faults files.new) }
{
    let record_text = files.read(alloc, named.record_file)?;
    let plan = files.read(alloc, named.plan)?;
    Ok(MirrorTexts {
        rows,
        record_text,
        plan,
    })
}

fn mirror_texts<K: Sink>(alloc: Global, texts: &MirrorTexts, out: &mut K) -> End
    ensures { TellsSome (MirrorsTo texts.now.rows texts.now.record_text texts.now.plan)
        (K.written out.old) (K.written out.new) (K.faults out.old) (K.faults out.new) result }
{
    match read_journal(alloc, texts.record_text.as_bytes()) {
        Ok(journal) => mirror_journal(alloc, &journal, texts, out),
        Err(fault) => tell_line_fault(alloc, fault, out),
    }
}

// Says which line's moment is the first out of order; where there is none, what the plan comes to.
fn mirror_journal<K: Sink>(
    alloc: Global,
    journal: &JournalLines,
    texts: &MirrorTexts,
    out: &mut K,
) -> End
    requires { IsJournal texts.now.record_text journal.now }
    ensures { TellsSome (OfMoments (out_of_order 0 journal.now) texts.now.rows texts.now.record_text
        journal.now texts.now.plan) (K.written out.old) (K.written out.new) (K.faults out.old)
        (K.faults out.new) result }
{
    match out_of_order(journal.as_slice()) {
        Some(place) => {
            let line = moment_line(alloc, texts.record_text.as_bytes(), place);
            tell_made(End::Schedule, line, out)
        }
        None => follow(alloc, journal, texts, out),
    }
}

// Names the line that tells what stands at this place of a journal.
fn moment_line(alloc: Global, record_text: &[u8], place: usize) -> M<Text>
    ensures { IfOk result (λ text. (told : List JournalLine) → IsJournal record_text.now told
        → place < length told → NamesMoment record_text.now place text Schedule) }
{
    let line = told_line(alloc, record_text, place)?;
    plan_fault_line(alloc, line, 2)
}

// Follows the plan, and says what it comes to.
fn follow<K: Sink>(alloc: Global, journal: &JournalLines, texts: &MirrorTexts, out: &mut K) -> End
    ensures { TellsSome (FollowsPlan texts.now.rows journal.now texts.now.plan) (K.written out.old)
        (K.written out.new) (K.faults out.old) (K.faults out.new) result }
{
    match outcome_of(alloc, journal, texts) {
        Ok(outcome) => {
            let usual = outcome_end(&outcome);
            tell_made(usual, outcome_line(alloc, outcome), out)
        }
        Err(_) => End::Memory,
    }
}

fn outcome_of(alloc: Global, journal: &JournalLines, texts: &MirrorTexts) -> M<MirrorOutcome>
    ensures { IfOk result (ComesTo texts.now.rows (pushed journal.now) texts.now.plan) }
{
    let entries = pushed_of(alloc, journal.as_slice())?;
    follow_plan(alloc, texts.rows, &entries, texts.plan.as_bytes())
}

fn outcome_end(outcome: &MirrorOutcome) -> End
    ensures { result ≡ outcome_end outcome.now }
{
    match outcome {
        MirrorOutcome::Mirrored(_) => End::Done,
        MirrorOutcome::Faulty { .. } => End::Schedule,
        MirrorOutcome::Stopped { stop, .. } => stop_end(*stop),
    }
}

fn stop_end(stop: MirrorStop) -> End
    ensures { result ≡ stop_end stop }
{
    match stop {
        MirrorStop::NotSent => End::Schedule,
        MirrorStop::Differs(_) => End::Differs,
    }
}

fn outcome_line(alloc: Global, outcome: MirrorOutcome) -> M<Text>
    ensures { IfOk result (λ text. text ≡ outcome_text outcome) }
{
    match outcome {
        MirrorOutcome::Mirrored(text) => Ok(text),
        MirrorOutcome::Faulty { line, kind } => text_fault_line(alloc, line, kind),
        MirrorOutcome::Stopped { line, stop } => stop_line(alloc, line, stop),
    }
}

fn stop_line(alloc: Global, line: u64, stop: MirrorStop) -> M<Text>
    ensures { IfOk result (λ text. text ≡ stop_text line stop) }
{
    match stop {
        MirrorStop::NotSent => plan_fault_line(alloc, line, 1),
        MirrorStop::Differs(number) => mirror_differs_line(alloc, number),
    }
}

/// Says a text that was made, and ends so.
pub fn tell_made<K: Sink>(usual: End, text: M<Text>, out: &mut K) -> End
    ensures { TellsMade text usual (K.written out.old) (K.written out.new) (K.faults out.old)
        (K.faults out.new) result }
{
    match text {
        Ok(text) => tell(usual, text.as_bytes(), out),
        Err(_) => End::Memory,
    }
}
