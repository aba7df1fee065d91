// Tests on the bytes at a place.

ghost use Rattle.std.specs.Prelude.{◌≡◌, ◌≤◌, ◌<◌, ◌+◌, length, true};
ghost use Rattle.tcl_words.specs.Places.{stands, is_letter, letter_stands, names, after_name};
ghost use Rattle.tcl_words.specs.Places.{opens_name, in_name, starts_variable, skips_newline};
ghost use Rattle.tcl_words.specs.Places.{is_space, is_blank, after_blank, separates, closes};
ghost use Rattle.tcl_words.specs.Places.{word_closer, ends_run, ends_script, ends_command};
ghost use Rattle.tcl_words.specs.Places.{in_comment, after_comment_byte, in_gap};

/// What ends the parts of a word or an index.
#[derive(Clone, Copy)]
pub enum Closer {
    Word,
    /// A word inside brackets.
    BracketWord,
    Quote,
    Paren,
}

/// The closer of a word without quotes.
pub fn word_closer(inside: bool) -> Closer
    ensures { result ≡ word_closer inside }
{
    if inside {
        Closer::BracketWord
    } else {
        Closer::Word
    }
}

/// Whether the byte stands at the place.
#[tactic(auto, unfolding(crate::specs::Places::stands))]
pub fn stands(text: &[u8], at: usize, byte: u8) -> bool
    ensures { result ≡ stands text.now at byte }
{
    at < text.len() && text[at] == byte
}

#[tactic(auto, unfolding(crate::specs::Places::is_letter))]
fn is_letter(byte: u8) -> bool
    ensures { result ≡ is_letter byte }
{
    byte >= b'a' && byte <= b'z'
        || byte >= b'A' && byte <= b'Z'
        || byte >= b'0' && byte <= b'9'
        || byte == b'_'
}

/// Whether a letter, a digit or an underscore stands at the place.
#[tactic(auto, unfolding(crate::specs::Places::letter_stands))]
fn letter_stands(text: &[u8], at: usize) -> bool
    ensures { result ≡ letter_stands text.now at }
{
    at < text.len() && is_letter(text[at])
}

/// Whether a name goes on at the place.
#[tactic(auto, unfolding(crate::specs::Places::names, crate::specs::Places::stands))]
pub fn names(text: &[u8], at: usize) -> bool
    requires { at ≤ length text.now }
    ensures { result ≡ names text.now at }
{
    letter_stands(text, at) || stands(text, at, b':') && stands(text, at + 1, b':')
}

/// The place after the letter or the two colons.
#[tactic(auto, unfolding(crate::specs::Places::after_name, crate::specs::Places::names, crate::specs::Places::letter_stands, crate::specs::Places::stands))]
pub fn after_name(text: &[u8], at: usize) -> usize
    requires { names text.now at ≡ true }
    ensures value { result ≡ after_name text.now at }
    ensures within { result ≤ length text.now }
    ensures onward { at < result }
{
    if letter_stands(text, at) {
        at + 1
    } else {
        at + 2
    }
}

/// Whether a dollar sign and an opening brace stand at the place.
#[tactic(auto, unfolding(crate::specs::Places::opens_name, crate::specs::Places::stands))]
pub fn opens_name(text: &[u8], at: usize) -> bool
    requires { at ≤ length text.now }
    ensures { result ≡ opens_name text.now at }
{
    stands(text, at, b'$') && stands(text, at + 1, b'{')
}

/// Whether a name in braces goes on at the place.
#[tactic(auto, unfolding(crate::specs::Places::in_name))]
pub fn in_name(text: &[u8], at: usize) -> bool
    ensures { result ≡ in_name text.now at }
{
    at < text.len() && !stands(text, at, b'}')
}

/// Whether a variable begins at the place.
#[tactic(auto, unfolding(crate::specs::Places::starts_variable, crate::specs::Places::stands))]
pub fn starts_variable(text: &[u8], at: usize) -> bool
    requires { at ≤ length text.now }
    ensures { result ≡ starts_variable text.now at }
{
    opens_name(text, at) || stands(text, at, b'$') && names(text, at + 1)
}

/// Whether a backslash-newline stands at the place.
#[tactic(auto, unfolding(crate::specs::Places::skips_newline, crate::specs::Places::stands))]
pub fn skips_newline(text: &[u8], at: usize) -> bool
    requires { at ≤ length text.now }
    ensures { result ≡ skips_newline text.now at }
{
    stands(text, at, b'\\') && stands(text, at + 1, b'\n')
}

/// Whether a blank or a tab stands at the place.
#[tactic(auto, unfolding(crate::specs::Places::is_space))]
pub fn is_space(text: &[u8], at: usize) -> bool
    ensures { result ≡ is_space text.now at }
{
    stands(text, at, b' ') || stands(text, at, b'\t')
}

/// Whether a blank, a tab or a backslash-newline stands at the place.
#[tactic(auto, unfolding(crate::specs::Places::is_blank))]
pub fn is_blank(text: &[u8], at: usize) -> bool
    requires { at ≤ length text.now }
    ensures { result ≡ is_blank text.now at }
{
    is_space(text, at) || skips_newline(text, at)
}

/// The place after the blank, tab, backslash-newline or other byte.
#[tactic(auto, unfolding(crate::specs::Places::after_blank, crate::specs::Places::skips_newline, crate::specs::Places::stands))]
pub fn after_blank(text: &[u8], at: usize) -> usize
    requires { at < length text.now }
    ensures value { result ≡ after_blank text.now at }
    ensures within { result ≤ length text.now }
    ensures onward { at < result }
{
    if skips_newline(text, at) {
        at + 2
    } else {
        at + 1
    }
}

/// Whether a blank or a command's end stands at the place.
#[tactic(auto, unfolding(crate::specs::Places::separates))]
pub fn separates(text: &[u8], at: usize) -> bool
    requires { at ≤ length text.now }
    ensures { result ≡ separates text.now at }
{
    is_blank(text, at) || stands(text, at, b'\n') || stands(text, at, b';')
}

/// Whether the parts end at the place.
#[tactic(auto, unfolding(crate::specs::Places::closes))]
pub fn closes(text: &[u8], at: usize, closer: Closer) -> bool
    requires { at ≤ length text.now }
    ensures { result ≡ closes closer text.now at }
{
    if at >= text.len() {
        return true;
    }
    match closer {
        Closer::Word => separates(text, at),
        Closer::BracketWord => separates(text, at) || stands(text, at, b']'),
        Closer::Quote => stands(text, at, b'"'),
        Closer::Paren => stands(text, at, b')'),
    }
}

/// Whether a run of plain bytes ends at the place.
#[tactic(auto, unfolding(crate::specs::Places::ends_run))]
pub fn ends_run(text: &[u8], at: usize, closer: Closer) -> bool
    requires { at ≤ length text.now }
    ensures { result ≡ ends_run closer text.now at }
{
    closes(text, at, closer) || stands(text, at, b'[') || starts_variable(text, at)
}

/// Whether the script ends at the place.
#[tactic(auto, unfolding(crate::specs::Places::ends_script))]
pub fn ends_script(text: &[u8], at: usize, inside: bool) -> bool
    ensures { result ≡ ends_script inside text.now at }
{
    at >= text.len() || inside && stands(text, at, b']')
}

/// Whether the command ends at the place.
#[tactic(auto, unfolding(crate::specs::Places::ends_command))]
pub fn ends_command(text: &[u8], at: usize, inside: bool) -> bool
    ensures { result ≡ ends_command inside text.now at }
{
    ends_script(text, at, inside) || stands(text, at, b'\n') || stands(text, at, b';')
}

/// Whether the comment goes on at the place.
#[tactic(auto, unfolding(crate::specs::Places::in_comment))]
pub fn in_comment(text: &[u8], at: usize) -> bool
    ensures { result ≡ in_comment text.now at }
{
    at < text.len() && text[at] != b'\n'
}

/// The place after the comment's byte, or after a backslash and the byte that it takes along.
#[tactic(auto, unfolding(crate::specs::Places::after_comment_byte))]
pub fn after_comment_byte(text: &[u8], at: usize) -> usize
    requires { at < length text.now }
    ensures value { result ≡ after_comment_byte text.now at }
    ensures within { result ≤ length text.now }
    ensures onward { at < result }
{
    if text[at] == b'\\' && at + 1 < text.len() {
        at + 2
    } else {
        at + 1
    }
}

/// Whether the place is between two commands.
#[tactic(auto, unfolding(crate::specs::Places::in_gap))]
pub fn in_gap(text: &[u8], at: usize) -> bool
    requires { at ≤ length text.now }
    ensures { result ≡ in_gap text.now at }
{
    separates(text, at) || stands(text, at, b'#')
}
