// The commands that only make a text of texts.

ghost use Rattle.std.specs.Prelude.{◌≡◌};
ghost use Rattle.tcl_commands.specs.PureCommand.{name_of, pure_of};

/// A command whose value is that of its words alone.
#[derive(Clone, Copy, PartialEq, Eq)]
pub enum PureCommand {
    String,
    List,
    Lindex,
    Llength,
    Lrange,
    Lsearch,
    Lsort,
    Concat,
    Split,
    Join,
    Format,
    Getfield,
    B64encode,
    B64decode,
    Sha256,
    UriEncode,
    UriDecode,
    IpAddr,
}

impl PureCommand {
    /// All of them.
    pub const ALL: [PureCommand; 18] = [
        PureCommand::String,
        PureCommand::List,
        PureCommand::Lindex,
        PureCommand::Llength,
        PureCommand::Lrange,
        PureCommand::Lsearch,
        PureCommand::Lsort,
        PureCommand::Concat,
        PureCommand::Split,
        PureCommand::Join,
        PureCommand::Format,
        PureCommand::Getfield,
        PureCommand::B64encode,
        PureCommand::B64decode,
        PureCommand::Sha256,
        PureCommand::UriEncode,
        PureCommand::UriDecode,
        PureCommand::IpAddr,
    ];

    /// Its name in a rule.
    pub fn name(self) -> &'static [u8]
        ensures { result.now ≡ name_of self }
    {
        match self {
            PureCommand::String => b"string",
            PureCommand::List => b"list",
            PureCommand::Lindex => b"lindex",
            PureCommand::Llength => b"llength",
            PureCommand::Lrange => b"lrange",
            PureCommand::Lsearch => b"lsearch",
            PureCommand::Lsort => b"lsort",
            PureCommand::Concat => b"concat",
            PureCommand::Split => b"split",
            PureCommand::Join => b"join",
            PureCommand::Format => b"format",
            PureCommand::Getfield => b"getfield",
            PureCommand::B64encode => b"b64encode",
            PureCommand::B64decode => b"b64decode",
            PureCommand::Sha256 => b"sha256",
            PureCommand::UriEncode => b"URI::encode",
            PureCommand::UriDecode => b"URI::decode",
            PureCommand::IpAddr => b"IP::addr",
        }
    }
}

/// The pure command of this name.
pub fn read_pure(name: &[u8]) -> Option<PureCommand>
    ensures { result ≡ pure_of name.now }
{
    PureCommand::ALL
        .iter()
        .copied()
        .find(|command| command.name() == name)
}
