// Calls of pure commands.

ghost use Rattle.std.specs.Prelude.{◌≡◌, ◌+◌};
ghost use Rattle.px_bytes.specs.Gives.{Gives};
ghost use Rattle.px_bytes.specs.Limit.{limited};
ghost use Rattle.tcl_commands.specs.PureCommand.{command_value, pure_value};

use crate::pure_command::{PureCommand, read_pure};
use px_bytes::{Raise, Steps, TEXT_LIMIT, TclFault, Text, Texts};
use std::alloc::Global;
use std::sync::ledger::Ledger;
use tcl_encodings::{b64decode, b64encode, ip_addr, sha256, uri_decode, uri_encode};
use tcl_list_commands::{concat, join, lindex, list, llength, lrange, lsearch, lsort, split_text};
use tcl_strings::{format, getfield, string};

/// What the words of a pure command give, the first being its name: its value, or its fault. A name
/// that is none of a pure command is the fault of an unknown command, and a value of more bytes than
/// a text may have is one, whatever the command.
pub fn pure<L: Ledger>(alloc: Global, words: &Texts, steps: &mut Steps<L>) -> Result<Text, Raise>
    ensures value { Gives result (pure_value words.now) }
    ensures ticks_once { steps.new ≡ steps.old + 1 }
{
    steps.tick();
    let Some((name, arguments)) = words.as_slice().split_first() else {
        return Err(Raise::Fault(TclFault::no_command(alloc, b"")?));
    };
    match read_pure(name.as_bytes()) {
        Some(command) => short(alloc, called(alloc, command, arguments)?),
        None => Err(Raise::Fault(TclFault::no_command(alloc, name.as_bytes())?)),
    }
}

// The text, where it isn't too long for a value.
fn short(alloc: Global, text: Text) -> Result<Text, Raise>
    ensures { Gives result (limited text) }
{
    if text.len() > TEXT_LIMIT {
        return Raise::too_long(alloc);
    }
    Ok(text)
}

// What a pure command gives with the words after its name.
fn called(alloc: Global, command: PureCommand, arguments: &[Text]) -> Result<Text, Raise>
    ensures { Gives result (command_value command arguments.now) }
{
    match command {
        PureCommand::String => string(alloc, arguments),
        PureCommand::List => list(alloc, arguments),
        PureCommand::Lindex => lindex(alloc, arguments),
        PureCommand::Llength => llength(alloc, arguments),
        PureCommand::Lrange => lrange(alloc, arguments),
        PureCommand::Lsearch => lsearch(alloc, arguments),
        PureCommand::Lsort => lsort(alloc, arguments),
        PureCommand::Concat => concat(alloc, arguments),
        PureCommand::Split => split_text(alloc, arguments),
        PureCommand::Join => join(alloc, arguments),
        PureCommand::Format => format(alloc, arguments),
        PureCommand::Getfield => getfield(alloc, arguments),
        PureCommand::B64encode => b64encode(alloc, arguments),
        PureCommand::B64decode => b64decode(alloc, arguments),
        PureCommand::Sha256 => sha256(alloc, arguments),
        PureCommand::UriEncode => uri_encode(alloc, arguments),
        PureCommand::UriDecode => uri_decode(alloc, arguments),
        PureCommand::IpAddr => ip_addr(alloc, arguments),
    }
}
