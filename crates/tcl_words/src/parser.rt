// The reader of scripts.

ghost use Rattle.std.specs.Prelude.{Ok, IfOk};
ghost use Rattle.tcl_words.specs.Grammar.{Spells};
ghost use Rattle.tcl_words.specs.Outcome.{Gives};
ghost use Rattle.tcl_words.specs.Reading.{reading};
ghost use Rattle.tcl_words.specs.Tree.{Commands};
ghost use Rattle.tcl_words.specs.View.{script_view};

use crate::parse_fault::ParseFault;
use crate::progress::Progress;
use crate::script::Script;
use std::alloc::Global;

/// The most constructs that may be open at a place.
pub const LIMIT: usize = 100;

/// The script that the text is, or the fault with the least place.
///
/// The time is linear in the text. A reader goes on from where another stopped, so that a byte is
/// passed once, as part of a run, a name or an escape. Only blanks, separators and comments before
/// a bracket's end are passed three times, by the readers of words, of commands and of the bracket.
/// Each reader that comes to a place tests a fixed number of bytes there. What stands too deep is
/// passed by one scan. A byte is copied into a value, and once more where its word keeps its raw
/// bytes.
pub fn parse(alloc: Global, text: &[u8]) -> Result<Script, ParseFault>
    ensures reads { Gives result (reading text.now) }
    ensures spelled { IfOk result (λ script. Spells text.now (script_view script)) }
    ensures every { (tree : Commands) → Spells text.now tree → Gives result (Ok tree) }
{
    let mut progress = Progress { at: 0, fault: None };
    let script = progress.script(alloc, text, LIMIT, false)?;
    match progress.fault {
        None => Ok(script),
        Some(fault) => Err(ParseFault::Fault(fault)),
    }
}
