// Whether the braces of a rule's text close each other.

ghost use Rattle.std.specs.Prelude.{◌≡◌};
ghost use Rattle.std.specs.Str.{is_utf8};
ghost use Rattle.tmsh_text.specs.Braces.{first_rule, is_balanced, is_not_utf8, is_unbalanced};

use config::LoadedRule;
use tmsh_read::Braces;

fn is_balanced(text: &[u8]) -> bool
    ensures { result ≡ is_balanced text.now }
{
    let mut braces = Braces::new();
    for byte in text {
        match braces.after(*byte) {
            Some(next) => braces = next,
            None => return false,
        }
    }
    braces.closed()
}

/// The first rule whose braces don't close each other.
pub(crate) fn first_unbalanced(rules: &[LoadedRule]) -> Option<usize>
    ensures { result ≡ first_rule is_unbalanced 0 rules.now }
{
    let mut at = 0;
    for rule in rules {
        if !is_balanced(rule.text.bytes.as_bytes()) {
            return Some(at);
        }
        at += 1;
    }
    None
}

fn is_utf8(text: &[u8]) -> bool
    ensures { result ≡ is_utf8 text.now }
{
    match str::from_utf8(text) {
        Ok(_) => true,
        Err(_) => false,
    }
}

/// The first rule whose text is no UTF-8.
pub(crate) fn first_not_utf8(rules: &[LoadedRule]) -> Option<usize>
    ensures { result ≡ first_rule is_not_utf8 0 rules.now }
{
    let mut at = 0;
    for rule in rules {
        if !is_utf8(rule.text.bytes.as_bytes()) {
            return Some(at);
        }
        at += 1;
    }
    None
}
