// What HTTP commands tell.

ghost use Rattle.std.specs.Prelude.{◌≡◌, ◌≤◌, IfOk, length, option_map};
ghost use Rattle.std.specs.Fmt.{decimal};
ghost use Rattle.std.specs.List.{after_first, before_first, position_or_len};
ghost use Rattle.std.specs.Option.{option_copied};
ghost use Rattle.irule_http.specs.Edits.{from_question};
ghost use Rattle.irule_http.specs.Told.{bit, cookies_here, cookies_told, fields_told, is_question};
ghost use Rattle.irule_http.specs.Told.{request_told, response_told, text_of, told, value_of};
ghost use Rattle.irule_http.specs.Told.{version_text, version_told};

use crate::Http;
use crate::form::{Form, is_response};
use crate::message::fields_here;
use crate::words::word_at;
use event_order::EventName;
use http_cookies::{cookie_called, cookie_names, message_cookies};
use http_heads::{Fields, RequestHead, ResponseHead, Version};
use px_bytes::{M, Pairs, Text};
use std::alloc::Global;
use tcl_lists::join_list;

/// What a form tells, in an event.
pub(crate) fn told(
    alloc: Global,
    event: EventName,
    form: Form,
    words: &[Text],
    state: &Http,
) -> M<Text>
    ensures { IfOk result (λ text. text ≡ told event form words.now state.now) }
{
    match form {
        Form::RequestNum => number_text(alloc, state.number),
        Form::Version => version_told(alloc, is_response(event), state),
        Form::Status => response_told(alloc, Form::Status, &state.response),
        Form::Field => fields_told(alloc, form, word_at(words, 0), fields_here(event, state)),
        Form::FieldValue
        | Form::FieldValues
        | Form::FieldCount
        | Form::FieldExists
        | Form::FieldNames => fields_told(
            alloc,
            form,
            word_at(words, 1),
            fields_here(event, state),
        ),
        Form::CookieValue | Form::CookieExists | Form::CookieNames | Form::CookieCount => {
            cookies_by(alloc, form, word_at(words, 1), event, state)
        }
        Form::Payload => state.payload.copy(),
        Form::PayloadLength => number_text(alloc, state.payload.len() as u64),
        form => request_told(alloc, form, &state.request),
    }
}

fn number_text(alloc: Global, number: u64) -> M<Text>
    ensures { IfOk result (λ text. text ≡ decimal number) }
{
    Ok(Text::from_vec(format!(in alloc; "{number}")?.into_bytes()))
}

fn version_text(alloc: Global, version: Version) -> M<Text>
    ensures { IfOk result (λ text. text ≡ version_text version) }
{
    let text = match version {
        Version::Http10 => b"1.0",
        Version::Http11 => b"1.1",
    };
    Text::new(alloc, text)
}

// The version of the event's message.
fn version_told(alloc: Global, response: bool, state: &Http) -> M<Text>
    ensures { IfOk result (λ text. text ≡ version_told response state.now) }
{
    if response {
        response_told(alloc, Form::Version, &state.response)
    } else {
        request_told(alloc, Form::Version, &state.request)
    }
}

fn response_told(alloc: Global, form: Form, head: &Option<ResponseHead>) -> M<Text>
    ensures { IfOk result (λ text. text ≡ response_told form head.now) }
{
    match (form, head) {
        (Form::Version, Some(head)) => version_text(alloc, head.version),
        (Form::Status, Some(head)) => number_text(alloc, u64::from(head.status.code())),
        _ => Ok(Text::empty(alloc)),
    }
}

fn request_told(alloc: Global, form: Form, head: &Option<RequestHead>) -> M<Text>
    ensures { IfOk result (λ text. text ≡ request_told form head.now) }
{
    let Some(head) = head else {
        return Ok(Text::empty(alloc));
    };
    match form {
        Form::Uri => Text::new(alloc, head.target.as_bytes()),
        Form::Path => Text::new(alloc, path_of(head.target.as_bytes())),
        Form::Query => Text::new(alloc, query_of(head.target.as_bytes())),
        Form::Method => Text::new(alloc, head.method.as_bytes()),
        Form::Host => text_of(alloc, head.fields.value(b"host")),
        Form::Version => version_text(alloc, head.version),
        _ => Ok(Text::empty(alloc)),
    }
}

fn question_place(target: &[u8]) -> usize
    ensures first { result ≡ position_or_len is_question target.now }
    ensures inside { result ≤ length target.now }
{
    target
        .iter()
        .position(|byte| *byte == b'?')
        .unwrap_or(target.len())
}

fn path_of(target: &[u8]) -> &[u8]
    ensures { result.now ≡ before_first is_question target.now }
{
    &target[..question_place(target)]
}

/// The target from its first `?` on.
pub(crate) fn from_question(target: &[u8]) -> &[u8]
    ensures { result.now ≡ from_question target.now }
{
    &target[question_place(target)..]
}

fn query_of(target: &[u8]) -> &[u8]
    ensures { result.now ≡ after_first is_question target.now }
{
    match from_question(target) {
        [_, rest @ ..] => rest,
        [] => &[],
    }
}

fn text_of(alloc: Global, text: Option<&Text>) -> M<Text>
    ensures { IfOk result (λ t. t ≡ text_of (option_map (λ v. v.now) text.entry)) }
{
    match text {
        Some(text) => text.copy(),
        None => Ok(Text::empty(alloc)),
    }
}

fn fields_told(alloc: Global, form: Form, name: &[u8], fields: Option<&Fields>) -> M<Text>
    ensures { IfOk result (λ text. text
        ≡ fields_told form name.now (option_map (λ fs. fs.now) fields.entry)) }
{
    let Some(fields) = fields else {
        return Ok(Text::empty(alloc));
    };
    match form {
        Form::Field | Form::FieldValue => text_of(alloc, fields.value(name)),
        Form::FieldValues => join_list(alloc, &fields.values(alloc, name)?),
        Form::FieldCount => number_text(alloc, fields.count(name) as u64),
        Form::FieldExists => bit(alloc, 0 < fields.count(name)),
        Form::FieldNames => join_list(alloc, &fields.names(alloc)?),
        _ => Ok(Text::empty(alloc)),
    }
}

fn bit(alloc: Global, yes: bool) -> M<Text>
    ensures { IfOk result (λ text. text ≡ bit yes) }
{
    Text::new(alloc, if yes { b"1" } else { b"0" })
}

// The cookies of the event's message.
fn cookies_here(alloc: Global, event: EventName, state: &Http) -> M<Pairs>
    ensures { IfOk result (λ found. found ≡ cookies_here event state.now) }
{
    match fields_here(event, state) {
        Some(fields) => message_cookies(alloc, is_response(event), fields.as_slice()),
        None => Ok(Pairs::new(alloc)),
    }
}

// What is told of the cookies of the event's message.
fn cookies_by(alloc: Global, form: Form, name: &[u8], event: EventName, state: &Http) -> M<Text>
    ensures { IfOk result (λ text. text
        ≡ cookies_told form name.now (cookies_here event state.now)) }
{
    let found = cookies_here(alloc, event, state)?;
    cookies_told(alloc, form, name, &found)
}

fn cookies_told(alloc: Global, form: Form, name: &[u8], found: &Pairs) -> M<Text>
    ensures { IfOk result (λ text. text ≡ cookies_told form name.now found.now) }
{
    match form {
        Form::CookieValue => value_of(alloc, cookie_called(name, found.as_slice())),
        Form::CookieExists => bit(alloc, cookie_called(name, found.as_slice()).is_some()),
        Form::CookieNames => join_list(alloc, &cookie_names(alloc, found.as_slice())?),
        Form::CookieCount => number_text(alloc, found.len() as u64),
        _ => Ok(Text::empty(alloc)),
    }
}

fn value_of(alloc: Global, cookie: Option<&(Text, Text)>) -> M<Text>
    ensures { IfOk result (λ text. text ≡ value_of (option_copied cookie.entry)) }
{
    match cookie {
        Some(cookie) => cookie.1.copy(),
        None => Ok(Text::empty(alloc)),
    }
}
