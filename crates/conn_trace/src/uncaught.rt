// What is logged of a fault that no body caught.

ghost use Rattle.std.specs.Prelude.{◌≡◌, IfOk};
ghost use Rattle.conn_trace.specs.Setup.{uncaught_line};

use event_order::EventName;
use px_bytes::{M, Text};
use std::alloc::Global;

/// The line that names the rule and the event, with the fault's text.
pub fn uncaught_line(alloc: Global, rule: &Text, event: EventName, text: &Text) -> M<Text>
    ensures { IfOk result (λ line. line ≡ uncaught_line rule.now event text.now) }
{
    let mut line = Text::new(alloc, b"TCL error: ")?;
    line.push(rule.as_bytes())?;
    line.push(b" <")?;
    line.push(event.text())?;
    line.push(b"> - ")?;
    line.push(text.as_bytes())?;
    Ok(line)
}
