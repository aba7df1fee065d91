// Handlers and procedures by their words.

ghost use Rattle.std.specs.Prelude.{◌≡◌, IfOk, map, option_map};
ghost use Rattle.rule_loader.specs.FormView.{definition_view, when_view};
ghost use Rattle.rule_loader.specs.Forms.{behind_event, is_switched, named_definition};
ghost use Rattle.rule_loader.specs.Forms.{proc_form, timed_body, when_form, when_with};
ghost use Rattle.tcl_trees.specs.Texts.{is_braced, is_substituted, is_text, raw_of};
ghost use Rattle.tcl_trees.specs.Words.{word_place};
ghost use Rattle.tcl_words.specs.View.{word_view};

use crate::parameters::parameters_of;
use px_bytes::{M, Text};
use std::alloc::Global;
use tcl_trees::Parameter;
use tcl_words::{Form, Word};

/// A handler: the words of its event, its priority and its body.
#[derive(Clone, Copy)]
pub(crate) struct When<'a> {
    pub event: &'a Word,
    pub priority: Option<&'a Word>,
    pub body: &'a Word,
}

/// A procedure: its name, with the place of its word, its parameters and the word of its body.
#[derive(Drop)]
pub(crate) struct Definition<'a> {
    pub place: usize,
    pub name: Text,
    pub parameters: Vec<Parameter>,
    pub body: &'a Word,
}

// Whether the word is this text, without substitution.
fn is_text(word: &Word, text: &[u8]) -> bool
    ensures { result ≡ is_text text.now (word_view word.now) }
{
    match &word.raw {
        Some(raw) => raw.as_bytes() == text,
        None => false,
    }
}

// Whether the word stands in braces.
fn is_braced(word: &Word) -> bool
    ensures { result ≡ is_braced (word_view word.now) }
{
    match word.form {
        Form::Braced => true,
        Form::Bare | Form::Quoted => false,
    }
}

// Whether something is substituted in the word.
fn is_substituted(word: &Word) -> bool
    ensures { result ≡ is_substituted (raw_of (word_view word.now)) }
{
    word.raw.is_none()
}

// Whether the word is `on` or `off`.
fn is_switched(word: &Word) -> bool
    ensures { result ≡ is_switched (word_view word.now) }
{
    is_text(word, b"on") || is_text(word, b"off")
}

// The body, before which `timing on` or `timing off` may stand.
fn timed_body(words: &[Word]) -> Option<&Word>
    ensures { option_map (λ w. word_view w.now) result
        ≡ timed_body (map word_view words.now) }
{
    match words {
        [body] => Some(body),
        [timing, value, body] if is_text(timing, b"timing") && is_switched(value) => Some(body),
        _ => None,
    }
}

// A handler with this body.
fn when_with<'a>(
    event: &'a Word,
    priority: Option<&'a Word>,
    body: Option<&'a Word>,
) -> Option<When<'a>>
    ensures { option_map when_view result ≡ when_with (word_view event.now)
        (option_map (λ w. word_view w.now) priority.entry)
        (option_map (λ w. word_view w.now) body.entry) }
{
    match body {
        Some(body) if is_braced(body) => Some(When {
            event,
            priority,
            body,
        }),
        _ => None,
    }
}

// A handler of the event, with these words behind it.
fn behind_event<'a>(event: &'a Word, words: &'a [Word]) -> Option<When<'a>>
    ensures { option_map when_view result
        ≡ behind_event (word_view event.now) (map word_view words.now) }
{
    match words {
        [word, number, behind @ ..] if is_text(word, b"priority") => {
            when_with(event, Some(number), timed_body(behind))
        }
        _ => when_with(event, None, timed_body(words)),
    }
}

/// The handler that the words are.
pub(crate) fn when_form(words: &[Word]) -> Option<When<'_>>
    ensures { option_map when_view result ≡ when_form (map word_view words.now) }
{
    match words {
        [word, event, behind @ ..] if is_text(word, b"when") => behind_event(event, behind),
        _ => None,
    }
}

// A procedure by the words of its name, its parameters and its body.
fn named_definition<'a>(
    alloc: Global,
    name: &Word,
    list: &Word,
    body: &'a Word,
) -> M<Option<Definition<'a>>>
    ensures { IfOk result (λ found. option_map definition_view found
        ≡ named_definition (word_place (word_view name.now)) (word_view body.now)
        (raw_of (word_view name.now)) (raw_of (word_view list.now))) }
{
    let (Some(text), Some(list)) = (&name.raw, &list.raw) else {
        return Ok(None);
    };
    let Some(parameters) = parameters_of(alloc, list.as_bytes())? else {
        return Ok(None);
    };
    Ok(Some(Definition {
        place: name.span.start,
        name: text.copy()?,
        parameters,
        body,
    }))
}

/// The procedure that the words are.
pub(crate) fn proc_form(alloc: Global, words: &[Word]) -> M<Option<Definition<'_>>>
    ensures { IfOk result (λ found. option_map definition_view found
        ≡ proc_form (map word_view words.now)) }
{
    let [word, name, list, body] = words else {
        return Ok(None);
    };
    if is_text(word, b"proc") && !is_substituted(body) {
        return named_definition(alloc, name, list, body);
    }
    Ok(None)
}
