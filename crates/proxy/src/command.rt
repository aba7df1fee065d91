// The words of the command line.

ghost use Rattle.std.specs.Prelude.{◌≡◌, option_map};
ghost use Rattle.proxy.specs.Command.{command_of, command_view, is_file_name};

use px_bytes::{Text, Texts};

/// The files that a replay reads.
#[derive(Clone, Copy)]
pub struct ReplayFiles<'a> {
    pub config: &'a [u8],
    pub schedule: &'a [u8],
}

/// The files that a mirror reads.
#[derive(Clone, Copy)]
pub struct MirrorFiles<'a> {
    pub config: &'a [u8],
    pub record_file: &'a [u8],
    pub plan: &'a [u8],
}

/// What is to be done.
#[derive(Clone, Copy)]
pub enum Command<'a> {
    /// Says whether the configuration loads.
    Check(&'a [u8]),
    /// Says why it doesn't, for a reader.
    Explain(&'a [u8]),
    /// Writes it in version 2.
    Migrate(&'a [u8]),
    /// Writes the document of a second text.
    Import(&'a [u8]),
    /// Writes its second text.
    Export(&'a [u8]),
    /// Says what the virtual servers of a record had.
    Report(&'a [u8]),
    Replay(ReplayFiles<'a>),
    /// Feeds a standby of the session table of a record, as a plan says.
    Mirror(MirrorFiles<'a>),
}

/// The command that the words are; None exactly where they are none of `check CONFIG`, `explain
/// CONFIG`, `migrate CONFIG`, `import FILE`, `export CONFIG`, `report RECORD`, `replay CONFIG
/// SCHEDULE` and `mirror CONFIG RECORD PLAN`.
pub fn command_of(words: &Texts) -> Option<Command<'_>>
    ensures { option_map command_view result ≡ command_of words.now }
{
    match words.as_slice() {
        [command, config] if command.as_bytes() == b"check".as_slice() && is_name(config) => {
            Some(Command::Check(config.as_bytes()))
        }
        [command, config] if command.as_bytes() == b"explain".as_slice() && is_name(config) => {
            Some(Command::Explain(config.as_bytes()))
        }
        [command, config] if command.as_bytes() == b"migrate".as_slice() && is_name(config) => {
            Some(Command::Migrate(config.as_bytes()))
        }
        [command, text] if command.as_bytes() == b"import".as_slice() && is_name(text) => {
            Some(Command::Import(text.as_bytes()))
        }
        [command, config] if command.as_bytes() == b"export".as_slice() && is_name(config) => {
            Some(Command::Export(config.as_bytes()))
        }
        [command, record] if command.as_bytes() == b"report".as_slice() && is_name(record) => {
            Some(Command::Report(record.as_bytes()))
        }
        [command, config, schedule]
            if command.as_bytes() == b"replay".as_slice() && is_name(config) && is_name(schedule) =>
            {
                Some(Command::Replay(ReplayFiles {
                    config: config.as_bytes(),
                    schedule: schedule.as_bytes(),
                }))
            }
        [command, config, record, plan]
            if command.as_bytes() == b"mirror".as_slice()
                && is_name(config)
                && is_name(record)
                && is_name(plan) => {
            Some(Command::Mirror(MirrorFiles {
                config: config.as_bytes(),
                record_file: record.as_bytes(),
                plan: plan.as_bytes(),
            }))
        }
        _ => None,
    }
}

// Not empty, and no option.
fn is_name(word: &Text) -> bool
    ensures { result ≡ is_file_name word.now }
{
    match word.as_bytes() {
        [] => false,
        [first, ..] => *first != b'-',
    }
}
