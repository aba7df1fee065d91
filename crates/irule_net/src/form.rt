// The forms of network commands.

ghost use Rattle.std.specs.Prelude.{◌≡◌};
ghost use Rattle.irule_net.specs.Forms.{arity_fits, class_form, clock_form, form_of};
ghost use Rattle.irule_net.specs.Forms.{payload_form, reselect_form, server_form, some_fits};
ghost use Rattle.irule_net.specs.Forms.{without_http};

use event_order::HostCommand;
use px_bytes::Text;

/// A form of a network command. `Reject` is `drop` too.
#[derive(Clone, Copy, PartialEq, Eq)]
pub(crate) enum Form {
    Log,
    Match,
    Search,
    Lookup,
    Exists,
    Size,
    Names,
    Table,
    After,
    ActiveMembers,
    Seconds,
    ClientAddr,
    ClientPort,
    ServerAddr,
    SelectedPool,
    SelectedAddr,
    SelectedPort,
    Pool,
    Node,
    Reject,
    Close,
    Collect,
    Release,
    Respond,
    Payload,
    PayloadLength,
    Replace,
    Reselect,
    ReselectPool,
    ReselectNode,
    Detach,
}

/// The form of a command by the words behind it.
pub(crate) fn form_of(command: HostCommand, words: &[Text]) -> Option<Form>
    ensures { result ≡ form_of command words.now }
{
    match command {
        HostCommand::Log => Some(Form::Log),
        HostCommand::Class => class_form(words),
        HostCommand::Table => Some(Form::Table),
        HostCommand::After => Some(Form::After),
        HostCommand::ActiveMembers => Some(Form::ActiveMembers),
        HostCommand::Clock => clock_form(words),
        HostCommand::IpClientAddr => Some(Form::ClientAddr),
        HostCommand::TcpClientPort => Some(Form::ClientPort),
        HostCommand::LbServer => server_form(words),
        HostCommand::Pool => Some(Form::Pool),
        HostCommand::Node => Some(Form::Node),
        HostCommand::Reject | HostCommand::Drop => Some(Form::Reject),
        HostCommand::TcpClose => Some(Form::Close),
        HostCommand::TcpCollect => Some(Form::Collect),
        HostCommand::TcpRelease => Some(Form::Release),
        HostCommand::TcpRespond => Some(Form::Respond),
        HostCommand::TcpPayload => payload_form(words),
        HostCommand::IpServerAddr => Some(Form::ServerAddr),
        HostCommand::LbReselect => reselect_form(words),
        HostCommand::LbDetach => Some(Form::Detach),
        _ => None,
    }
}

fn class_form(words: &[Text]) -> Option<Form>
    ensures { result ≡ class_form words.now }
{
    let [word, ..] = words else {
        return None;
    };
    match word.as_bytes() {
        b"match" => Some(Form::Match),
        b"search" => Some(Form::Search),
        b"lookup" => Some(Form::Lookup),
        b"exists" => Some(Form::Exists),
        b"size" => Some(Form::Size),
        b"names" => Some(Form::Names),
        _ => None,
    }
}

fn clock_form(words: &[Text]) -> Option<Form>
    ensures { result ≡ clock_form words.now }
{
    match words {
        [word, ..] if word.as_bytes() == b"seconds".as_slice() => Some(Form::Seconds),
        _ => None,
    }
}

fn server_form(words: &[Text]) -> Option<Form>
    ensures { result ≡ server_form words.now }
{
    let [word, ..] = words else {
        return None;
    };
    match word.as_bytes() {
        b"pool" => Some(Form::SelectedPool),
        b"addr" => Some(Form::SelectedAddr),
        b"port" => Some(Form::SelectedPort),
        _ => None,
    }
}

// The word behind the command is an option, which has the number of words of one of its forms.
fn payload_form(words: &[Text]) -> Option<Form>
    ensures { result ≡ payload_form words.now }
{
    match words {
        [] => Some(Form::Payload),
        [word] if word.as_bytes() == b"length".as_slice() => Some(Form::PayloadLength),
        [word, _, _, _] if word.as_bytes() == b"replace".as_slice() => Some(Form::Replace),
        _ => None,
    }
}

fn reselect_form(words: &[Text]) -> Option<Form>
    ensures { result ≡ reselect_form words.now }
{
    match words {
        [] => Some(Form::Reselect),
        [word, _] if word.as_bytes() == b"pool".as_slice() => Some(Form::ReselectPool),
        [word, _] | [word, _, _] if word.as_bytes() == b"node".as_slice() => {
            Some(Form::ReselectNode)
        }
        _ => None,
    }
}

/// Whether so many words may stand behind the command in this form, its own word counted.
pub(crate) fn arity_fits(form: Form, count: usize) -> bool
    ensures { result ≡ arity_fits form count }
{
    match form {
        Form::Table => true,
        Form::Log | Form::Node => count == 1 || count == 2,
        Form::Pool => count == 1 || count == 3 || count == 4,
        Form::Match | Form::Search => count == 4 || count == 5,
        Form::Replace => count == 4,
        Form::Lookup => count == 3,
        Form::ReselectNode => count == 2 || count == 3,
        Form::Exists | Form::Size | Form::Names | Form::ReselectPool => count == 2,
        Form::After
        | Form::ActiveMembers
        | Form::Seconds
        | Form::SelectedPool
        | Form::SelectedAddr
        | Form::SelectedPort
        | Form::Collect
        | Form::Respond
        | Form::PayloadLength => count == 1,
        _ => count == 0,
    }
}

/// Whether so many words may stand behind the command in some form. Where the first of them has to
/// name a form, any number will do that isn't 0.
pub(crate) fn some_fits(command: HostCommand, count: usize) -> bool
    ensures { result ≡ some_fits command count }
{
    match command {
        HostCommand::TcpPayload => count == 1 || count == 4,
        HostCommand::LbReselect => count == 2 || count == 3,
        _ => 1 <= count,
    }
}

/// Whether the command isn't there on a virtual server with HTTP.
pub(crate) fn without_http(command: HostCommand) -> bool
    ensures { result ≡ without_http command }
{
    matches!(
        command,
        HostCommand::TcpCollect
            | HostCommand::TcpRelease
            | HostCommand::TcpRespond
            | HostCommand::TcpPayload
    )
}
