// The forms of HTTP commands.

ghost use Rattle.std.specs.Prelude.{◌≡◌};
ghost use Rattle.irule_http.specs.Forms.{arity_fits, cookie_change, cookie_form, cookie_named};
ghost use Rattle.irule_http.specs.Forms.{form_of, header_by, header_edit, header_form};
ghost use Rattle.irule_http.specs.Forms.{header_named, is_request, payload_form, read_or_set};
ghost use Rattle.irule_http.specs.Forms.{runs_in, some_fits};
ghost use Rattle.irule_http.specs.State.{is_response};

use event_order::{EventName, HostCommand};
use http_answers::is_answer;
use px_bytes::Text;

/// A form of an HTTP command. `Field` is `HTTP::header NAME`.
#[derive(Clone, Copy)]
pub(crate) enum Form {
    Uri,
    SetUri,
    Path,
    SetPath,
    Query,
    Method,
    Host,
    RequestNum,
    Version,
    Status,
    Field,
    FieldValue,
    FieldValues,
    FieldCount,
    FieldExists,
    FieldNames,
    FieldInsert,
    FieldReplace,
    FieldRemove,
    CookieValue,
    CookieExists,
    CookieNames,
    CookieCount,
    CookieInsert,
    CookieRemove,
    CollectAll,
    Collect,
    Release,
    Close,
    Payload,
    PayloadLength,
    Replace,
    Respond,
    Redirect,
}

/// The form of a command by the words behind it.
pub(crate) fn form_of(command: HostCommand, words: &[Text]) -> Option<Form>
    ensures { result ≡ form_of command words.now }
{
    match command {
        HostCommand::HttpUri => Some(read_or_set(Form::Uri, Form::SetUri, words)),
        HostCommand::HttpPath => Some(read_or_set(Form::Path, Form::SetPath, words)),
        HostCommand::HttpQuery => Some(Form::Query),
        HostCommand::HttpMethod => Some(Form::Method),
        HostCommand::HttpHost => Some(Form::Host),
        HostCommand::HttpRequestNum => Some(Form::RequestNum),
        HostCommand::HttpVersion => Some(Form::Version),
        HostCommand::HttpStatus => Some(Form::Status),
        HostCommand::HttpHeader => header_form(words),
        HostCommand::HttpCookie => cookie_form(words),
        HostCommand::HttpCollect => Some(read_or_set(Form::CollectAll, Form::Collect, words)),
        HostCommand::HttpRelease => Some(Form::Release),
        HostCommand::HttpClose => Some(Form::Close),
        HostCommand::HttpPayload => payload_form(words),
        HostCommand::HttpRespond if is_answer(words) => Some(Form::Respond),
        HostCommand::HttpRedirect => Some(Form::Redirect),
        _ => None,
    }
}

fn read_or_set(reads: Form, sets: Form, words: &[Text]) -> Form
    ensures { result ≡ read_or_set reads sets words.now }
{
    match words {
        [] => reads,
        [_, ..] => sets,
    }
}

fn header_form(words: &[Text]) -> Option<Form>
    ensures { result ≡ header_form words.now }
{
    match words {
        [] => None,
        [word, rest @ ..] => header_by(header_named(word.as_bytes()), rest),
    }
}

// One other word alone is the name of a field.
fn header_by(named: Option<Form>, words: &[Text]) -> Option<Form>
    ensures { result ≡ header_by named words.now }
{
    match (named, words) {
        (None, []) => Some(Form::Field),
        (named, _) => named,
    }
}

fn header_named(word: &[u8]) -> Option<Form>
    ensures { result ≡ header_named word.now }
{
    if word == b"value".as_slice() {
        return Some(Form::FieldValue);
    }
    if word == b"values".as_slice() {
        return Some(Form::FieldValues);
    }
    if word == b"count".as_slice() {
        return Some(Form::FieldCount);
    }
    if word == b"exists".as_slice() {
        return Some(Form::FieldExists);
    }
    if word == b"names".as_slice() {
        return Some(Form::FieldNames);
    }
    header_edit(word)
}

fn header_edit(word: &[u8]) -> Option<Form>
    ensures { result ≡ header_edit word.now }
{
    if word == b"insert".as_slice() {
        return Some(Form::FieldInsert);
    }
    if word == b"replace".as_slice() {
        return Some(Form::FieldReplace);
    }
    if word == b"remove".as_slice() {
        return Some(Form::FieldRemove);
    }
    None
}

fn cookie_form(words: &[Text]) -> Option<Form>
    ensures { result ≡ cookie_form words.now }
{
    match words {
        [] => None,
        [word, ..] => cookie_named(word.as_bytes()),
    }
}

fn cookie_named(word: &[u8]) -> Option<Form>
    ensures { result ≡ cookie_named word.now }
{
    if word == b"value".as_slice() {
        return Some(Form::CookieValue);
    }
    if word == b"exists".as_slice() {
        return Some(Form::CookieExists);
    }
    if word == b"names".as_slice() {
        return Some(Form::CookieNames);
    }
    if word == b"count".as_slice() {
        return Some(Form::CookieCount);
    }
    cookie_change(word)
}

fn cookie_change(word: &[u8]) -> Option<Form>
    ensures { result ≡ cookie_change word.now }
{
    if word == b"insert".as_slice() {
        return Some(Form::CookieInsert);
    }
    if word == b"remove".as_slice() {
        return Some(Form::CookieRemove);
    }
    None
}

// The word behind the command is an option, which has the number of words of one of its forms.
fn payload_form(words: &[Text]) -> Option<Form>
    ensures { result ≡ payload_form words.now }
{
    match words {
        [] => Some(Form::Payload),
        [word] if word.as_bytes() == b"length".as_slice() => Some(Form::PayloadLength),
        [word, _, _, _] if word.as_bytes() == b"replace".as_slice() => Some(Form::Replace),
        _ => None,
    }
}

/// Whether so many words may stand behind the command in this form, its own word counted.
pub(crate) fn arity_fits(form: Form, count: usize) -> bool
    ensures { result ≡ arity_fits form count }
{
    match form {
        Form::Respond => true,
        Form::CookieInsert => count == 5,
        Form::Replace => count == 4,
        Form::FieldInsert | Form::FieldReplace => count == 3,
        Form::FieldValue
        | Form::FieldValues
        | Form::FieldCount
        | Form::FieldExists
        | Form::FieldRemove
        | Form::CookieValue
        | Form::CookieExists
        | Form::CookieRemove => count == 2,
        Form::SetUri
        | Form::SetPath
        | Form::Field
        | Form::FieldNames
        | Form::CookieNames
        | Form::CookieCount
        | Form::Collect
        | Form::PayloadLength
        | Form::Redirect => count == 1,
        _ => count == 0,
    }
}

/// Whether so many words may stand behind the command in some form. Where the first of them has to
/// name a form, any number will do that isn't 0.
pub(crate) fn some_fits(command: HostCommand, count: usize) -> bool
    ensures { result ≡ some_fits command count }
{
    match command {
        HostCommand::HttpPayload => count == 1 || count == 4,
        HostCommand::HttpHeader | HostCommand::HttpCookie => 1 <= count,
        _ => false,
    }
}

fn is_request(event: EventName) -> bool
    ensures { result ≡ is_request event }
{
    matches!(event, EventName::HttpRequest | EventName::HttpRequestData)
}

/// Whether it is an event of a response.
pub(crate) fn is_response(event: EventName) -> bool
    ensures { result ≡ is_response event }
{
    matches!(event, EventName::HttpResponse | EventName::HttpResponseData)
}

/// Whether the form is there in an event of its command: edits are for the events of a request, and
/// those of fields for the events of a response too.
pub(crate) fn runs_in(form: Form, event: EventName) -> bool
    ensures { result ≡ runs_in form event }
{
    match form {
        Form::SetUri | Form::SetPath => is_request(event),
        Form::FieldInsert
        | Form::FieldReplace
        | Form::FieldRemove
        | Form::CookieInsert
        | Form::CookieRemove => is_request(event) || is_response(event),
        _ => true,
    }
}
