// What is wrong with a configuration, in words.

ghost use Rattle.std.specs.Prelude.{◌≡◌};
ghost use Rattle.config.specs.FaultWords.{words_of};

use crate::fault::ConfigFaultKind;

impl ConfigFaultKind {
    /// What is wrong, in English.
    pub fn words(self) -> &'static str
        ensures { result.now ≡ words_of self }
    {
        match self {
            ConfigFaultKind::ReadFault => "this file can't be read",
            ConfigFaultKind::NotToml => "this is no TOML in UTF-8",
            ConfigFaultKind::UnknownKey => "there is no such key",
            ConfigFaultKind::WrongKind =>
                "a key must stand here and doesn't, or its value is of another kind",
            ConfigFaultKind::Twice => "this name, address or rule is there already",
            ConfigFaultKind::NoSuch => "there is no pool or rule of this name",
            ConfigFaultKind::Range => "its value is out of range, too long, or not of its form",
            ConfigFaultKind::Rule(kind) => kind.words(),
        }
    }
}
