// A plan, line by line.

ghost use Rattle.std.specs.Prelude.{◌≡◌, ◌+◌, ◌<◌, ◌^◌, IfOk, List, map, string_bytes, ℕ};
ghost use Rattle.table_mirror.specs.Entries.{entry_view};
ghost use Rattle.table_mirror.specs.Network.{World};
ghost use Rattle.table_mirror.specs.Outcomes.{ComesTo, Goes, counts_text, mirrored_text};
ghost use Rattle.table_mirror.specs.Pushed.{Entry};
ghost use Rattle.table_mirror.specs.Runs.{Followed};
ghost use Rattle.table_mirror.specs.Worlds.{Shows};

use crate::entry::PushedEntry;
use crate::network::Network;
use crate::outcome::MirrorOutcome;
use crate::plan::read_line;
use crate::told::lines_of;
use journal_text::LineKind;
use px_bytes::{M, Memory, Text};
use std::alloc::Global;

/// What a plan comes to, with the entries that are pushed and how many rows the table may have.
pub fn follow_plan(
    alloc: Global,
    limit: u32,
    entries: &[PushedEntry<'_>],
    plan: &[u8],
) -> M<MirrorOutcome>
    ensures { IfOk result (ComesTo limit (map entry_view entries.now) plan.now) }
{
    let lines = lines_of(alloc, plan)?;
    let mut network = Network::new(alloc, entries.len(), limit);
    match lines.as_slice() {
        [lines @ .., rest] => run_lines(alloc, &mut network, entries, lines, rest),
        [] => mirrored(alloc, &network),
    }
}

// The lines, each of which had its LF, and what stands behind the last one.
fn run_lines(
    alloc: Global,
    network: &mut Network,
    entries: &[PushedEntry<'_>],
    lines: &[&[u8]],
    rest: &[u8],
) -> M<MirrorOutcome>
    ensures { IfOk result (λ outcome. (limit : ℕ) (w : World)
        → Shows limit (map entry_view entries.now) network.old w
        → Goes limit (map entry_view entries.now) 1 (map (λ line. line.now) lines.now) rest.now w outcome) }
{
    for (index, line) in lines.iter().enumerate() {
        if let Some(outcome) = run_line(alloc, network, entries, index, line)? {
            return Ok(outcome);
        }
    }
    if rest.is_empty() {
        mirrored(alloc, network)
    } else {
        Ok(MirrorOutcome::Faulty {
            line: lines.len() as u64 + 1,
            kind: LineKind::NoNewline,
        })
    }
}

// The line of this place; none where the next is to be followed.
fn run_line(
    alloc: Global,
    network: &mut Network,
    entries: &[PushedEntry<'_>],
    index: usize,
    line: &[u8],
) -> M<Option<MirrorOutcome>>
    requires { index < 2 ^ 63 }
    ensures { IfOk result (λ ended. (limit : ℕ) (w : World)
        → Shows limit (map entry_view entries.now) network.old w
        → Followed limit (map entry_view entries.now) (index + 1) line.now w network.new ended) }
{
    let line_number = index as u64 + 1;
    match read_line(alloc, line) {
        Ok(Some(step)) => match network.step(alloc, entries, step)? {
            Some(stop) => Ok(Some(MirrorOutcome::Stopped {
                line: line_number,
                stop,
            })),
            None => Ok(None),
        },
        Ok(None) => Ok(None),
        Err(LineKind::Memory) => Err(Memory),
        Err(kind) => Ok(Some(MirrorOutcome::Faulty {
            line: line_number,
            kind,
        })),
    }
}

// All lines were followed.
fn mirrored(alloc: Global, network: &Network) -> M<MirrorOutcome>
    ensures { IfOk result (λ outcome. (limit : ℕ) (entries : List Entry) (w : World)
        → Shows limit entries network.now w → outcome ≡ MirrorOutcome.Mirrored (mirrored_text limit entries w)) }
{
    let counts = counts_text(
        alloc,
        network.standby.applied,
        network.sender.acked,
        network.sender.pushed,
    )?;
    let mut text = network.standby.table.dump(alloc)?;
    text.push(counts.as_bytes())?;
    Ok(MirrorOutcome::Mirrored(text))
}

fn counts_text(alloc: Global, applied: usize, acked: usize, pushed: usize) -> M<Text>
    ensures { IfOk result (λ text. text ≡ counts_text applied acked pushed) }
{
    let mut text = text_of(format!(in alloc; "> mirror applied {applied} acked {acked}")?);
    text.push(text_of(format!(in alloc; " of {pushed}\n")?).as_bytes())?;
    Ok(text)
}

fn text_of(line: String) -> Text
    ensures { result ≡ string_bytes line }
{
    Text::from_vec(line.into_bytes())
}
