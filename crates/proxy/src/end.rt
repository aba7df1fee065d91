// How the program ends.

/// The status with which a command ends; it is the program's exit status.
#[derive(Clone, Copy, PartialEq, Eq)]
pub struct Status(pub u8);

/// How a command comes to its end.
#[derive(Clone, Copy, PartialEq, Eq)]
pub enum End {
    /// The command was done.
    Done,
    /// The words are no command.
    Usage,
    /// The configuration doesn't load.
    Config,
    /// A line of the schedule spells no event, or its event is refused.
    Schedule,
    /// A file can't be read.
    ReadFault,
    /// Standard output can't be written.
    WriteFault,
    /// Memory was refused.
    Memory,
    /// A standby of the session table gave another reply than the record.
    Differs,
    /// A text is no configuration in the second grammar, or a configuration has no such text.
    SecondText,
}

impl End {
    ghost use Rattle.std.specs.Prelude.{◌≡◌};
    ghost use Rattle.proxy.specs.End.{status_of, end_unless};

    /// This end, unless another one came before.
    pub fn unless(self, earlier: Result<(), End>) -> End
        ensures { result ≡ end_unless self earlier }
    {
        match earlier {
            Ok(()) => self,
            Err(end) => end,
        }
    }

    pub fn status(self) -> Status
        ensures { result.0 ≡ status_of self }
    {
        Status(match self {
            End::Done => 0,
            End::Usage => 2,
            End::Config => 3,
            End::Schedule => 4,
            End::ReadFault => 5,
            End::WriteFault => 6,
            End::Memory => 7,
            End::Differs => 10,
            End::SecondText => 11,
        })
    }
}
