// The words of an answer: `CODE [-version V] [content TEXT] [noserver] [NAME VALUE ..]`.

ghost use Rattle.std.specs.Prelude.{◌≡◌, Some, option_map};
ghost use Rattle.http_answers.specs.Options.{are_pairs, begins_with, behind_first, behind_option};
ghost use Rattle.http_answers.specs.Options.{behind_word, content_of, content_words, field_words};
ghost use Rattle.http_answers.specs.Options.{has_server, is_answer, option_in, server_words};
ghost use Rattle.http_answers.specs.Options.{version_by, version_of};

use http_heads::Version;
use px_bytes::Text;

// The value of an option that the words begin with.
fn option_in<'a>(option: &[u8], words: &'a [Text]) -> Option<&'a Text>
    ensures { option_map (λ value. value.now) result ≡ option_in option.now words.now }
{
    match words {
        [word, value, ..] if word.as_bytes() == option => Some(value),
        _ => None,
    }
}

// The words behind an option, where they begin with it.
fn behind_option<'a>(option: &[u8], words: &'a [Text]) -> &'a [Text]
    ensures { result.now ≡ behind_option option.now words.now }
{
    match words {
        [word, _, rest @ ..] if word.as_bytes() == option => rest,
        _ => words,
    }
}

fn begins_with(text: &[u8], words: &[Text]) -> bool
    ensures { result ≡ begins_with text.now words.now }
{
    match words {
        [] => false,
        [word, ..] => word.as_bytes() == text,
    }
}

fn behind_word<'a>(text: &[u8], words: &'a [Text]) -> &'a [Text]
    ensures { result.now ≡ behind_word text.now words.now }
{
    match words {
        [word, rest @ ..] if word.as_bytes() == text => rest,
        _ => words,
    }
}

/// The words behind the first.
pub fn behind_first(words: &[Text]) -> &[Text]
    ensures { result.now ≡ behind_first words.now }
{
    match words {
        [] => words,
        [_, rest @ ..] => rest,
    }
}

fn content_words(words: &[Text]) -> &[Text]
    ensures { result.now ≡ content_words words.now }
{
    behind_option(b"-version", behind_first(words))
}

fn server_words(words: &[Text]) -> &[Text]
    ensures { result.now ≡ server_words words.now }
{
    behind_option(b"content", content_words(words))
}

/// The names and values of the fields that are given.
pub fn field_words(words: &[Text]) -> &[Text]
    ensures { result.now ≡ field_words words.now }
{
    behind_word(b"noserver", server_words(words))
}

fn are_pairs(words: &[Text]) -> bool
    ensures { result ≡ are_pairs words.now }
{
    words.len() % 2 == 0
}

/// Whether there is a code, and what stands behind the options are names with values.
pub fn is_answer(words: &[Text]) -> bool
    ensures { result ≡ is_answer words.now }
{
    match words {
        [] => false,
        [_, ..] => are_pairs(field_words(words)),
    }
}

/// The content; empty where none is given.
pub fn content_of(words: &[Text]) -> &[u8]
    ensures { result.now ≡ content_of words.now }
{
    match option_in(b"content", content_words(words)) {
        Some(content) => content.as_bytes(),
        None => &[],
    }
}

/// Whether the answer says `Server: BigIP`.
pub fn has_server(words: &[Text]) -> bool
    ensures { result ≡ has_server words.now }
{
    !begins_with(b"noserver", server_words(words))
}

/// The version; 1.0 where none is given, and none where there is no such version.
pub fn version_of(words: &[Text]) -> Option<Version>
    ensures { result ≡ version_of words.now }
{
    match option_in(b"-version", behind_first(words)) {
        Some(text) => version_by(text.as_bytes()),
        None => Some(Version::Http10),
    }
}

fn version_by(text: &[u8]) -> Option<Version>
    ensures { result ≡ version_by (Some text.now) }
{
    match text {
        b"1.0" => Some(Version::Http10),
        b"1.1" => Some(Version::Http11),
        _ => None,
    }
}
