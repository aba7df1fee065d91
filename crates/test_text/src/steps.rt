// The steps of a test.

ghost use Rattle.std.specs.Prelude.{map};
ghost use Rattle.test_text.specs.Deeds.{GivesBehind};
ghost use Rattle.test_text.specs.Expectations.{lines_in};
ghost use Rattle.test_text.specs.Files.{deeds_of, deeds_read, step_of, steps_of, together};
ghost use Rattle.test_text.specs.Line.{command_line, line_view};

use crate::braces::{commands_in, judged};
use crate::deeds::done;
use crate::expected::expected;
use crate::fault::Stopped;
use crate::line::Line;
use crate::test_file::{PlacedDeed, PlacedStep, TestStep};
use px_bytes::{Seq, Texts};
use std::alloc::Global;
use tcl_words::{ScriptCommand, Span};

// What is done by the lines, behind these clients.
fn deeds(
    alloc: Global,
    commands: &[ScriptCommand],
    clients: &mut Texts,
) -> Result<Seq<PlacedDeed>, Stopped>
    ensures { GivesBehind result clients.new
        (deeds_of clients.old (map command_line commands.now)) }
{
    let mut deeds = Seq::new(alloc);
    for command in commands {
        let line = Line::of(command);
        let deed = done(alloc, line, clients)?;
        deeds.push(PlacedDeed {
            place: line.place(0),
            deed,
        })?;
    }
    Ok(deeds)
}

// What is done between two places of a text.
fn deeds_within(
    alloc: Global,
    text: &[u8],
    span: Span,
    clients: &mut Texts,
) -> Result<Seq<PlacedDeed>, Stopped>
    ensures { GivesBehind result clients.new
        (deeds_read clients.old (lines_in text.now span)) }
{
    let (commands, fault) = commands_in(alloc, text, span)?;
    judged(fault, deeds(alloc, commands.as_slice(), clients))
}

// `together { .. }`
fn together(
    alloc: Global,
    text: &[u8],
    line: Line<'_>,
    clients: &mut Texts,
) -> Result<Seq<PlacedDeed>, Stopped>
    ensures { GivesBehind result clients.new
        (together text.now clients.old (line_view line.entry)) }
{
    let span = line.braces(1)?;
    line.ends(2)?;
    deeds_within(alloc, text, span, clients)
}

// The step that a line is.
fn step(
    alloc: Global,
    text: &[u8],
    line: Line<'_>,
    clients: &mut Texts,
) -> Result<TestStep, Stopped>
    ensures { GivesBehind result clients.new
        (step_of text.now clients.old (line_view line.entry)) }
{
    if line.has(0, b"expect") {
        return Ok(TestStep::Expect(expected(alloc, text, line, clients)?));
    }
    if line.has(0, b"together") {
        return Ok(TestStep::Together(together(alloc, text, line, clients)?));
    }
    Ok(TestStep::One(done(alloc, line, clients)?))
}

/// The steps that the lines are, behind these clients.
pub(crate) fn steps(
    alloc: Global,
    text: &[u8],
    commands: &[ScriptCommand],
    clients: &mut Texts,
) -> Result<Seq<PlacedStep>, Stopped>
    ensures { GivesBehind result clients.new
        (steps_of text.now clients.old (map command_line commands.now)) }
{
    let mut steps = Seq::new(alloc);
    for command in commands {
        let line = Line::of(command);
        let step = step(alloc, text, line, clients)?;
        steps.push(PlacedStep {
            place: line.place(0),
            step,
        })?;
    }
    Ok(steps)
}
