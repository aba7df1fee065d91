// Words of a command.

ghost use Rattle.std.specs.Prelude.{◌≡◌};
ghost use Rattle.irule_http.specs.Forms.{is_word, word_at};

use px_bytes::Text;

/// The word at a place behind the command, from 0; empty where there is none.
pub(crate) fn word_at(words: &[Text], at: usize) -> &[u8]
    ensures { result.now ≡ word_at words.now at }
{
    match words.get(at) {
        Some(word) => word.as_bytes(),
        None => &[],
    }
}

/// Whether the word at a place is this one.
pub(crate) fn is_word(words: &[Text], at: usize, text: &[u8]) -> bool
    ensures { result ≡ is_word words.now at text.now }
{
    word_at(words, at) == text
}
