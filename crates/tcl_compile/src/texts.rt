// Words without substitution.

ghost use Rattle.std.specs.Prelude.{◌≡◌};
ghost use Rattle.tcl_words.specs.View.{word_view};
ghost use Rattle.tcl_trees.specs.Texts.{bytes_begin, is_braced, is_quoted, is_substituted};
ghost use Rattle.tcl_trees.specs.Texts.{is_text, raw_of};

use tcl_words::{Form, Word};

/// Whether the word is this text, without substitution.
pub(crate) fn is_text(word: &Word, text: &[u8]) -> bool
    ensures { result ≡ is_text text.now (word_view word.now) }
{
    match &word.raw {
        Some(raw) => raw.as_bytes() == text,
        None => false,
    }
}

/// Whether the word is a text that begins with the byte, without substitution.
pub(crate) fn begins_with(word: &Word, byte: u8) -> bool
    ensures { result ≡ bytes_begin byte (raw_of (word_view word.now)) }
{
    match &word.raw {
        Some(raw) => match raw.as_bytes().first() {
            Some(first) => *first == byte,
            None => false,
        },
        None => false,
    }
}

/// Whether something is substituted in the word.
pub(crate) fn is_substituted(word: &Word) -> bool
    ensures { result ≡ is_substituted (raw_of (word_view word.now)) }
{
    word.raw.is_none()
}

/// Whether the word stands in braces.
pub(crate) fn is_braced(word: &Word) -> bool
    ensures { result ≡ is_braced (word_view word.now) }
{
    match word.form {
        Form::Braced => true,
        Form::Bare | Form::Quoted => false,
    }
}

/// Whether the word stands in quotes.
pub(crate) fn is_quoted(word: &Word) -> bool
    ensures { result ≡ is_quoted (word_view word.now) }
{
    match word.form {
        Form::Quoted => true,
        Form::Bare | Form::Braced => false,
    }
}
