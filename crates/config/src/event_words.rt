// Events of a rule that not every virtual server has.

ghost use Rattle.std.specs.Prelude.{◌≡◌, IfOk, true, false, map};
ghost use Rattle.config.specs.EventWords.{first_misplaced, is_misplaced, misplaced_command};
ghost use Rattle.config.specs.EventWords.{misplaced_in};
ghost use Rattle.config.specs.EventWords.{misplaced_at, misplaced_word};
ghost use Rattle.rule_loader.specs.Events.{event_named, event_of};
ghost use Rattle.rule_loader.specs.Loading.{script_of};
ghost use Rattle.tcl_trees.specs.Texts.{is_text};
ghost use Rattle.tcl_trees.specs.Words.{word_place};
ghost use Rattle.tcl_words.specs.View.{command_view, script_view, word_view};

use event_order::{EventName, read_event};
use px_bytes::M;
use std::alloc::Global;
use tcl_words::{LIMIT, Progress, Script, ScriptCommand, Word};

/// The places of the words of the first event that only virtual servers with HTTP have, and of the
/// first one that only those without it have.
#[derive(Clone, Copy)]
pub struct FirstEventPlaces {
    pub of_http: Option<usize>,
    pub of_bytes: Option<usize>,
}

fn event_named(name: &[u8]) -> Option<EventName>
    ensures { result ≡ event_named name.now }
{
    read_event(name)
}

fn event_of(word: &Word) -> Option<EventName>
    ensures { result ≡ event_of (word_view word.now) }
{
    match &word.raw {
        Some(raw) => event_named(raw.as_bytes()),
        None => None,
    }
}

fn is_text(word: &Word, text: &[u8]) -> bool
    ensures { result ≡ is_text text.now (word_view word.now) }
{
    match &word.raw {
        Some(raw) => raw.as_bytes() == text,
        None => false,
    }
}

fn is_misplaced(http: bool, event: EventName) -> bool
    ensures { result ≡ is_misplaced http event }
{
    match event {
        EventName::ClientData | EventName::ServerData => http,
        EventName::HttpRequest
        | EventName::HttpRequestData
        | EventName::HttpResponse
        | EventName::HttpResponseData => !http,
        _ => false,
    }
}

fn misplaced_event(http: bool, event: &Word) -> Option<usize>
    ensures { result ≡ misplaced_at http (word_place (word_view event.now))
        (event_of (word_view event.now)) }
{
    match event_of(event) {
        Some(named) if is_misplaced(http, named) => Some(event.span.start),
        _ => None,
    }
}

fn misplaced_word(http: bool, words: &[Word]) -> Option<usize>
    ensures { result ≡ misplaced_word http (map word_view words.now) }
{
    match words {
        [] => None,
        [_] => None,
        [word, event, _behind @ ..] => {
            if is_text(word, b"when") {
                misplaced_event(http, event)
            } else {
                None
            }
        }
    }
}

fn misplaced_command(http: bool, command: &ScriptCommand) -> Option<usize>
    ensures { result ≡ misplaced_command http (command_view command.now) }
{
    misplaced_word(http, command.words.as_slice())
}

fn first_misplaced(http: bool, commands: &[ScriptCommand]) -> Option<usize>
    ensures { result ≡ first_misplaced http (map command_view commands.now) }
{
    for command in commands {
        let place = misplaced_command(http, command);
        if place.is_some() {
            return place;
        }
    }
    None
}

// The script that a text is, as far as it can be read.
#[tactic(auto, unfolding(rule_loader::specs::Loading::script_of, tcl_trees::specs::Compiled::script_within))]
fn read_script(alloc: Global, text: &[u8]) -> M<Script>
    ensures { IfOk result (λ script. (script_of text.now).0 ≡ script_view script) }
{
    let mut progress = Progress { at: 0, fault: None };
    progress.script(alloc, text, LIMIT, false)
}

/// The places of events of the text of a rule.
pub(crate) fn event_places(alloc: Global, text: &[u8]) -> M<FirstEventPlaces>
    ensures of_http { IfOk result (λ places. places.of_http ≡ misplaced_in false text.now) }
    ensures of_bytes { IfOk result (λ places. places.of_bytes ≡ misplaced_in true text.now) }
{
    let script = read_script(alloc, text)?;
    let commands = script.commands.as_slice();
    Ok(FirstEventPlaces {
        of_http: first_misplaced(false, commands),
        of_bytes: first_misplaced(true, commands),
    })
}
