// The reader of test files.

ghost use Rattle.std.specs.Prelude.{◌≡◌, map};
ghost use Rattle.test_text.specs.Deeds.{GivesBehind};
ghost use Rattle.test_text.specs.Faults.{Gives, read_all};
ghost use Rattle.test_text.specs.Expectations.{lines_in};
ghost use Rattle.test_text.specs.Files.{Leaves, file_of, last_config, no_tests};
ghost use Rattle.test_text.specs.Files.{steps_read, test_of, with_config, with_line, with_test};
ghost use Rattle.test_text.specs.Line.{command_line, line_view};

use crate::braces::{commands_in, judged};
use crate::deed::PlacedName;
use crate::fault::{Stopped, TestFault, TestFaultKind, fault_at};
use crate::line::Line;
use crate::steps::steps;
use crate::test_file::{PlacedStep, TestCase, TestFile};
use px_bytes::{Seq, Texts};
use std::alloc::Global;
use tcl_words::{ScriptCommand, Span};

// The steps in the braces of a test, and its clients.
fn steps_in(
    alloc: Global,
    text: &[u8],
    span: Span,
    clients: &mut Texts,
) -> Result<Seq<PlacedStep>, Stopped>
    ensures { GivesBehind result clients.new
        (steps_read text.now clients.old (lines_in text.now span)) }
{
    let (commands, fault) = commands_in(alloc, text, span)?;
    judged(fault, steps(alloc, text, commands.as_slice(), clients))
}

// `test NAME { .. }`
fn test(alloc: Global, text: &[u8], config: usize, line: Line<'_>) -> Result<TestCase, Stopped>
    ensures { Gives result (test_of text.now config (line_view line.entry)) }
{
    let name = line.text(alloc, 1)?;
    let span = line.braces(2)?;
    line.ends(3)?;
    let mut clients = Texts::new(alloc);
    let steps = steps_in(alloc, text, span, &mut clients)?;
    Ok(TestCase {
        place: line.place(0),
        name,
        config,
        clients,
        steps,
    })
}

// The number of the last configuration.
fn last_config(configs: &[PlacedName], line: Line<'_>) -> Result<usize, TestFault>
    ensures { result ≡ last_config configs.now (line_view line.entry) }
{
    match configs {
        [] => Err(fault_at(TestFaultKind::NoConfig, line.place(0))),
        [_, rest @ ..] => Ok(rest.len()),
    }
}

impl TestFile {
    // `test NAME { .. }`
    fn test(&mut self, alloc: Global, text: &[u8], line: Line<'_>) -> Result<(), Stopped>
        ensures { Leaves result self.new (with_test text.now self.old (line_view line.entry)) }
    {
        let config = last_config(self.configs.as_slice(), line)?;
        let test = test(alloc, text, config, line)?;
        Ok(self.tests.push(test)?)
    }

    // `config FILE`
    fn config(&mut self, alloc: Global, line: Line<'_>) -> Result<(), Stopped>
        ensures { Leaves result self.new (with_config self.old (line_view line.entry)) }
    {
        let name = line.name(alloc, 1)?;
        line.ends(2)?;
        Ok(self.configs.push(name)?)
    }

    fn line(&mut self, alloc: Global, text: &[u8], line: Line<'_>) -> Result<(), Stopped>
        ensures { Leaves result self.new (with_line text.now self.old (line_view line.entry)) }
    {
        if line.has(0, b"config") {
            return self.config(alloc, line);
        }
        if line.has(0, b"test") {
            return self.test(alloc, text, line);
        }
        Err(Stopped::Fault(line.odd(0)))
    }
}

// The configurations and tests that the lines are.
fn file(alloc: Global, text: &[u8], commands: &[ScriptCommand]) -> Result<TestFile, Stopped>
    ensures { Gives result
        (read_all (with_line text.now) no_tests (map command_line commands.now)) }
{
    let mut file = TestFile {
        configs: Seq::new(alloc),
        tests: Seq::new(alloc),
    };
    for command in commands {
        file.line(alloc, text, Line::of(command))?;
    }
    Ok(file)
}

/// The test file that a text is, or its fault with the least place.
pub fn read_test_file(alloc: Global, text: &[u8]) -> Result<TestFile, Stopped>
    ensures { Gives result (file_of text.now) }
{
    let all = Span {
        start: 0,
        end: text.len(),
    };
    let (commands, fault) = commands_in(alloc, text, all)?;
    judged(fault, file(alloc, text, commands.as_slice()))
}
