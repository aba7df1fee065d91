// What is wrong with a configuration.

ghost use Rattle.std.specs.Prelude.{◌≡◌};
ghost use Rattle.config.specs.Faults.{number_of};

use crate::spot::Spot;
use px_bytes::{Memory, Text};
use rule_loader::LoadKind;

/// What is wrong with a configuration.
#[derive(Clone, Copy, PartialEq, Eq)]
pub enum ConfigFaultKind {
    /// A file can't be read.
    ReadFault,
    /// The file is no TOML document.
    NotToml,
    /// A table has a key that isn't one of its keys.
    UnknownKey,
    /// A key that is required is missing, or a value is of another kind.
    WrongKind,
    /// A name, an address or a rule is there for the second time.
    Twice,
    /// A virtual server names a pool or a rule that isn't there.
    NoSuch,
    /// A number is out of its range, an array above its greatest length, or a text not of its form.
    Range,
    /// The text of a rule can't be loaded, or isn't for the virtual server that has it, for this reason.
    Rule(LoadKind),
}

impl ConfigFaultKind {
    /// The number under which a report tells it.
    pub fn number(self) -> u8
        ensures { result ≡ number_of self }
    {
        match self {
            ConfigFaultKind::ReadFault => 1,
            ConfigFaultKind::NotToml => 2,
            ConfigFaultKind::UnknownKey => 3,
            ConfigFaultKind::WrongKind => 4,
            ConfigFaultKind::Twice => 5,
            ConfigFaultKind::NoSuch => 6,
            ConfigFaultKind::Range => 7,
            ConfigFaultKind::Rule(_) => 8,
        }
    }
}

/// What is wrong, and where.
#[derive(Drop)]
pub struct ConfigFault {
    pub kind: ConfigFaultKind,
    /// As `virtual[0].rules[1]`; the name of the file where it can't be read or is no TOML; and for
    /// a rule `rule[0] load 3 at 5`, with the number and the place of what is wrong in its text.
    pub place: Text,
    /// Where it is in a text; none where a key's line isn't found, or a file can't be read.
    pub spot: Option<Spot>,
}

/// Why no configuration was given: what is wrong with it, or out of memory.
#[derive(Drop)]
pub enum ConfigError {
    Fault(ConfigFault),
    Memory,
}

impl From<Memory> for ConfigError {
    ghost use Rattle.config.specs.declared.fault.ConfigError.TheVariants.{Memory as OutOfMemory};

    ghost from_gives = { λ _ e. e ≡ OutOfMemory };

    fn from(_: Memory) -> Self {
        ConfigError::Memory
    }
}
