// What kind of command a name is.

ghost use Rattle.std.specs.Prelude.{◌≡◌};
ghost use Rattle.std.specs.List.{list_any};
ghost use Rattle.std.specs.Str.{bytes_eq};
ghost use Rattle.tcl_commands.specs.Kind.{KindIs, is_control};

use crate::pure_command::read_pure;
use event_order::is_host_command;

/// Who carries out a command.
#[derive(Clone, Copy, PartialEq, Eq)]
pub enum Kind {
    /// It makes a text of texts.
    Pure,
    /// It steers the script, or reads and writes its variables.
    Control,
    /// The host of the script carries it out.
    Host,
    Unknown,
}

/// The names of control commands.
const CONTROL: [&[u8]; 19] = [
    b"set",
    b"unset",
    b"incr",
    b"append",
    b"lappend",
    b"array",
    b"info",
    b"if",
    b"while",
    b"for",
    b"foreach",
    b"switch",
    b"expr",
    b"catch",
    b"return",
    b"break",
    b"continue",
    b"error",
    b"call",
];

/// The kind of the command of this name.
pub fn kind_of(name: &[u8]) -> Kind
    ensures { KindIs name.now result }
{
    if read_pure(name).is_some() {
        Kind::Pure
    } else if is_control(name) {
        Kind::Control
    } else if is_host_command(name) {
        Kind::Host
    } else {
        Kind::Unknown
    }
}

// Whether the name is that of a control command.
fn is_control(name: &[u8]) -> bool
    ensures { result ≡ is_control name.now }
{
    is_one_of(&CONTROL, name)
}

fn is_one_of(names: &[&[u8]], name: &[u8]) -> bool
    ensures { result ≡ list_any (λ other. bytes_eq other.now name.now) names.now }
{
    for other in names {
        if *other == name {
            return true;
        }
    }
    false
}
