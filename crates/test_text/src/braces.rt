// What stands in braces.

ghost use Rattle.std.specs.Prelude.{◌≡◌, ℕ, List, [], IfOk, Ok, Result, map, take};
ghost use Rattle.tcl_words.specs.View.{command_view, script_view};
ghost use Rattle.test_text.specs.Expectations.{clients_at, clients_of, clients_on, clients_read};
ghost use Rattle.test_text.specs.Expectations.{lines_in};
ghost use Rattle.test_text.specs.Expectations.{script_in};
ghost use Rattle.test_text.specs.Deeds.{GivesBehind};
ghost use Rattle.test_text.specs.Faults.{Gives, judged, spoiled};
ghost use Rattle.test_text.specs.Line.{command_line, line_of, line_view};
ghost use Rattle.test_text.specs.declared.fault.TestFault.{TestFault};

use crate::fault::{Stopped, TestFaultKind, fault_at, first_of};
use crate::line::Line;
use crate::names::client_in;
use px_bytes::{M, Seq, Texts};
use std::alloc::Global;
use tcl_words::{Fault, LIMIT, Progress, Script, ScriptCommand, Span};

impl<'a> Line<'a> {
    /// The line that a command is.
    pub(crate) fn of(command: &'a ScriptCommand) -> Line<'a>
        ensures { line_view result ≡ line_of (command_view command.now) }
    {
        Line {
            words: command.words.as_slice(),
            end: command.span.end,
        }
    }
}

// The text up to a place.
fn up_to(text: &[u8], end: usize) -> &[u8]
    ensures { result.now ≡ take end text.now }
{
    text.get(..end).unwrap_or(text)
}

// The script between two places of a text, as far as it can be read, and the fault there.
#[tactic(auto, unfolding(crate::specs::Expectations::script_in))]
fn script_in(alloc: Global, text: &[u8], span: Span) -> M<(Script, Option<Fault>)>
    ensures { IfOk result (λ r. script_in text.now span ≡ (script_view r.0, r.1)) }
{
    let inside = up_to(text, span.end);
    let mut progress = Progress {
        at: span.start.min(inside.len()),
        fault: None,
    };
    let script = progress.script(alloc, inside, LIMIT, false)?;
    Ok((script, progress.fault))
}

/// The commands between two places of a text, as far as they can be read, and the fault there.
pub(crate) fn commands_in(
    alloc: Global,
    text: &[u8],
    span: Span,
) -> M<(Vec<ScriptCommand>, Option<Fault>)>
    ensures { IfOk result (λ r. lines_in text.now span
        ≡ (map command_line r.0.items, r.1)) }
{
    let (script, fault) = script_in(alloc, text, span)?;
    Ok((script.commands, fault))
}

// Why a text wasn't read that may have a fault as a script too.
fn spoiled(fault: Option<Fault>, why: Stopped) -> Stopped
    ensures { result ≡ spoiled fault why }
{
    match (fault, why) {
        (Some(script), Stopped::Fault(first)) => Stopped::Fault(first_of(script, first)),
        _ => why,
    }
}

// A value that was read of a text that may have a fault as a script.
fn clean<T: Drop>(fault: Option<Fault>, value: T) -> Result<T, Stopped>
    ensures { Gives result (judged fault (Ok value)) }
{
    match fault {
        None => Ok(value),
        Some(script) => {
            drop(value);
            let fault = fault_at(TestFaultKind::Script(script), script.place());
            Err(Stopped::Fault(fault))
        }
    }
}

/// What was read of a text that may have a fault as a script.
pub(crate) fn judged<T: Drop>(fault: Option<Fault>, read: Result<T, Stopped>) -> Result<T, Stopped>
    ensures alone { (wanted : Result T TestFault) → Gives read wanted
        → Gives result (judged fault wanted) }
    ensures behind { (clients : List (List ℕ)) (wanted : Result (T × List (List ℕ)) TestFault)
        → GivesBehind read clients wanted → GivesBehind result clients (judged fault wanted) }
{
    match read {
        Ok(value) => clean(fault, value),
        Err(why) => Err(spoiled(fault, why)),
    }
}

// The clients whose names stand in a line.
fn clients_on(alloc: Global, line: Line<'_>, clients: &Texts) -> Result<Seq<usize>, Stopped>
    ensures { Gives result (clients_on clients.now (line_view line.entry)) }
{
    let mut found = Seq::new(alloc);
    for word in line.words {
        found.push(client_in(word, clients)?)?;
    }
    Ok(found)
}

// The clients whose names stand in one of the lines.
fn clients_of(
    alloc: Global,
    commands: &[ScriptCommand],
    clients: &Texts,
) -> Result<Seq<usize>, Stopped>
    ensures { Gives result (clients_of clients.now (map command_line commands.now)) }
{
    match commands {
        [] => Ok(Seq::new(alloc)),
        [command] => clients_on(alloc, Line::of(command), clients),
        [_, next, ..] => Err(Stopped::Fault(Line::of(next).odd(0))),
    }
}

// The clients whose names stand between two places of a text.
fn clients_within(
    alloc: Global,
    text: &[u8],
    span: Span,
    clients: &Texts,
) -> Result<Seq<usize>, Stopped>
    ensures { Gives result (clients_read clients.now (lines_in text.now span)) }
{
    let (commands, fault) = commands_in(alloc, text, span)?;
    judged(fault, clients_of(alloc, commands.as_slice(), clients))
}

impl Line<'_> {
    /// The clients whose names stand in the braces at a place.
    pub(crate) fn clients(
        self,
        alloc: Global,
        text: &[u8],
        clients: &Texts,
        at: usize,
    ) -> Result<Seq<usize>, Stopped>
        ensures { Gives result (clients_at text.now clients.now (line_view self.entry) at) }
    {
        let span = self.braces(at)?;
        clients_within(alloc, text, span, clients)
    }
}
