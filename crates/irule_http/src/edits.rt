// What HTTP commands change of a head.

ghost use Rattle.std.specs.Prelude.{◌≡◌, [], IfOk, Some, option_map};
ghost use Rattle.px_bytes.specs.Gives.{Gives};
ghost use Rattle.irule_http.specs.Commands.{Leaves};
ghost use Rattle.irule_http.specs.Edits.{Edited, changes_fields, changes_some, changes_target};
ghost use Rattle.irule_http.specs.Edits.{cookie_edit, cookie_made, cookies_gone, edited, is_cookie, is_framing};
ghost use Rattle.irule_http.specs.Edits.{may_change, puts_by, puts_cookie, puts_cookie_by};
ghost use Rattle.irule_http.specs.Edits.{puts_field, removed, removes_cookie, removes_field};
ghost use Rattle.irule_http.specs.Edits.{sets_path, sets_uri, target_holds, target_of, targeted};
ghost use Rattle.irule_http.specs.Edits.{with_field};
ghost use Rattle.irule_http.specs.State.{fields_here};

use crate::Http;
use crate::faults::already_answered;
use crate::form::{Form, is_response};
use crate::message::{fields_here, leave};
use crate::room::{holds, target_fits};
use crate::told::from_question;
use crate::words::{is_word, word_at};
use event_order::EventName;
use http_cookies::{cookie_field, cookie_text, without_cookie};
use http_heads::{Field, Fields, RequestHead, RequestTarget};
use httparse::{is_header_value, is_token};
use px_bytes::{HostAnswer, M, Raise, Text, same_name};
use std::alloc::Global;

/// No value.
pub(crate) fn no_value(alloc: Global) -> HostAnswer
    ensures { result ≡ HostAnswer.Value [] }
{
    HostAnswer::Value(Text::empty(alloc))
}

/// Tests that a change may be made, by whether the head is within its limits with it.
pub(crate) fn may_change(alloc: Global, holds: bool, name: &[u8], state: &Http) -> Result<(), Raise>
    ensures { Gives result (may_change holds name.now state.now) }
{
    if !holds {
        return Raise::too_long(alloc);
    }
    if state.answer.is_some() {
        return already_answered(alloc, name);
    }
    Ok(())
}

/// `HTTP::uri VALUE`
pub(crate) fn sets_uri(
    alloc: Global,
    state: &mut Http,
    name: &[u8],
    words: &[Text],
) -> Result<HostAnswer, Raise>
    ensures { Leaves (sets_uri name.now words.now state.old) result state.new }
{
    let target = RequestTarget::new(Text::new(alloc, word_at(words, 0))?);
    changes_target(alloc, state, name, target)
}

/// `HTTP::path VALUE`
pub(crate) fn sets_path(
    alloc: Global,
    state: &mut Http,
    name: &[u8],
    words: &[Text],
) -> Result<HostAnswer, Raise>
    ensures { Leaves (sets_path name.now words.now state.old) result state.new }
{
    let mut target = Text::new(alloc, word_at(words, 0))?;
    target.push(from_question(target_of(&state.request)))?;
    changes_target(alloc, state, name, RequestTarget::new(target))
}

fn target_of(head: &Option<RequestHead>) -> &[u8]
    ensures { result.now ≡ target_of head.now }
{
    match head {
        Some(head) => head.target.as_bytes(),
        None => &[],
    }
}

fn changes_target(
    alloc: Global,
    state: &mut Http,
    name: &[u8],
    target: Option<RequestTarget>,
) -> Result<HostAnswer, Raise>
    ensures { Leaves (changes_target name.now target state.old) result state.new }
{
    let Some(target) = target else {
        return Raise::syntax(alloc, name);
    };
    may_change(alloc, target_holds(&target, &state.request), name, state)?;
    target_put(target, &mut state.request);
    Ok(no_value(alloc))
}

fn target_holds(target: &RequestTarget, head: &Option<RequestHead>) -> bool
    ensures { result ≡ target_holds target.now head.now }
{
    match head {
        Some(head) => target_fits(target, head),
        None => false,
    }
}

fn target_put(target: RequestTarget, head: &mut Option<RequestHead>)
    ensures { head.new ≡ targeted target head.old }
{
    if let Some(head) = head {
        head.target = target;
    }
}

// Puts fields in place of those of the event's message.
fn changes_fields(
    alloc: Global,
    state: &mut Http,
    event: EventName,
    name: &[u8],
    fields: Fields,
) -> Result<HostAnswer, Raise>
    ensures { Leaves (changes_fields event name.now fields state.old) result state.new }
{
    may_change(alloc, holds(event, &fields, state), name, state)?;
    leave(event, fields, state);
    Ok(no_value(alloc))
}

// Whether edits of a field have no effect.
fn is_framing(name: &[u8]) -> bool
    ensures { result ≡ is_framing name.now }
{
    same_name(name, b"content-length") || same_name(name, b"transfer-encoding")
}

// The fields with a field more, or one in the place of the last of its name.
fn edited(alloc: Global, form: Form, field: Field, fields: Option<&Fields>) -> Result<Fields, Raise>
    ensures { Edited result (edited form field (option_map (λ fs. fs.now) fields.entry)) }
{
    match fields {
        Some(fields) => with_field(alloc, form, field, fields),
        None => Raise::too_long(alloc),
    }
}

fn with_field(alloc: Global, form: Form, field: Field, fields: &Fields) -> Result<Fields, Raise>
    ensures { Edited result (Some (with_field form field fields.now)) }
{
    let mut changed = fields.copy(alloc)?;
    match form {
        Form::FieldReplace => changed.replace(alloc, field)?,
        _ => changed.insert(alloc, field)?,
    }
    Ok(changed)
}

/// `HTTP::header insert|replace NAME VALUE`
pub(crate) fn puts_field(
    alloc: Global,
    state: &mut Http,
    event: EventName,
    form: Form,
    name: &[u8],
    words: &[Text],
) -> Result<HostAnswer, Raise>
    ensures { Leaves (puts_field event form name.now words.now state.old) result state.new }
{
    let field_name = Text::new(alloc, word_at(words, 1))?;
    let value = Text::new(alloc, word_at(words, 2))?;
    puts_by(
        alloc,
        state,
        event,
        form,
        name,
        Field::new(field_name, value),
    )
}

fn puts_by(
    alloc: Global,
    state: &mut Http,
    event: EventName,
    form: Form,
    name: &[u8],
    field: Option<Field>,
) -> Result<HostAnswer, Raise>
    ensures { Leaves (puts_by event form name.now field state.old) result state.new }
{
    let Some(field) = field else {
        return Raise::syntax(alloc, name);
    };
    if is_framing(field.name()) {
        may_change(alloc, true, name, state)?;
        return Ok(no_value(alloc));
    }
    puts_in(alloc, state, event, form, name, field)
}

// The event's message with a field more, or one in the place of the last of its name.
fn puts_in(
    alloc: Global,
    state: &mut Http,
    event: EventName,
    form: Form,
    name: &[u8],
    field: Field,
) -> Result<HostAnswer, Raise>
    ensures { Leaves (changes_some event name.now (edited form field (fields_here event state.old)) state.old) result state.new }
{
    match edited(alloc, form, field, fields_here(event, state)) {
        Ok(fields) => changes_fields(alloc, state, event, name, fields),
        Err(raise) => Err(raise),
    }
}

/// `HTTP::header remove NAME`
pub(crate) fn removes_field(
    alloc: Global,
    state: &mut Http,
    event: EventName,
    name: &[u8],
    words: &[Text],
) -> Result<HostAnswer, Raise>
    ensures { Leaves (removes_field event name.now words.now state.old) result state.new }
{
    let field_name = word_at(words, 1);
    if !is_token(field_name) {
        return Raise::syntax(alloc, name);
    }
    may_change(alloc, true, name, state)?;
    remove(event, field_name, state);
    Ok(no_value(alloc))
}

fn remove(event: EventName, name: &[u8], state: &mut Http)
    ensures { state.new ≡ removed event name.now state.old }
{
    if is_framing(name) {
        return;
    }
    if is_response(event) {
        if let Some(head) = &mut state.response {
            let _ = head.fields.remove(name);
        }
    } else if let Some(head) = &mut state.request {
        let _ = head.fields.remove(name);
    }
}

fn is_cookie(words: &[Text]) -> bool
    ensures { result ≡ is_cookie words.now }
{
    is_word(words, 1, b"name")
        && is_word(words, 3, b"value")
        && is_token(word_at(words, 2))
        && is_header_value(word_at(words, 4))
}

/// `HTTP::cookie insert name NAME value VALUE`
pub(crate) fn puts_cookie(
    alloc: Global,
    state: &mut Http,
    event: EventName,
    name: &[u8],
    words: &[Text],
) -> Result<HostAnswer, Raise>
    ensures { Leaves (puts_cookie event name.now words.now state.old) result state.new }
{
    if !is_cookie(words) {
        return Raise::syntax(alloc, name);
    }
    let text = cookie_text(alloc, word_at(words, 2), word_at(words, 4))?;
    let field = cookie_made(alloc, is_response(event), text, fields_here(event, state))?;
    puts_cookie_by(alloc, state, event, name, field)
}

// The field that a cookie more makes; none where no head can have it.
fn cookie_made(
    alloc: Global,
    response: bool,
    text: Text,
    fields: Option<&Fields>,
) -> M<Option<Field>>
    ensures { IfOk result (λ field. field
        ≡ cookie_made response text (option_map (λ fs. fs.now) fields.entry)) }
{
    match fields {
        Some(fields) => {
            let (name, value) = cookie_field(alloc, response, text, fields)?;
            Ok(Field::new(name, value))
        }
        None => Ok(None),
    }
}

fn puts_cookie_by(
    alloc: Global,
    state: &mut Http,
    event: EventName,
    name: &[u8],
    field: Option<Field>,
) -> Result<HostAnswer, Raise>
    ensures { Leaves (puts_cookie_by event name.now field state.old) result state.new }
{
    match field {
        Some(field) => puts_in(
            alloc,
            state,
            event,
            cookie_edit(is_response(event)),
            name,
            field,
        ),
        None => Raise::syntax(alloc, name),
    }
}

fn cookie_edit(response: bool) -> Form
    ensures { result ≡ cookie_edit response }
{
    if response {
        Form::FieldInsert
    } else {
        Form::FieldReplace
    }
}

/// `HTTP::cookie remove NAME`
pub(crate) fn removes_cookie(
    alloc: Global,
    state: &mut Http,
    event: EventName,
    name: &[u8],
    words: &[Text],
) -> Result<HostAnswer, Raise>
    ensures { Leaves (removes_cookie event name.now words.now state.old) result state.new }
{
    let fields = fields_here(event, state);
    match cookies_gone(alloc, is_response(event), word_at(words, 1), fields)? {
        Some(fields) => changes_fields(alloc, state, event, name, fields),
        None => Raise::too_long(alloc),
    }
}

// The fields of a request or a response without the cookies of a name.
fn cookies_gone(
    alloc: Global,
    response: bool,
    name: &[u8],
    fields: Option<&Fields>,
) -> M<Option<Fields>>
    ensures { IfOk result (λ gone. gone
        ≡ cookies_gone response name.now (option_map (λ fs. fs.now) fields.entry)) }
{
    match fields {
        Some(fields) => {
            let left = without_cookie(alloc, response, name, fields.as_slice())?;
            Ok(Fields::of(left))
        }
        None => Ok(None),
    }
}
