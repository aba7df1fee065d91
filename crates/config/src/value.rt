// What is wrong with a value.

ghost use Rattle.std.specs.Prelude.{◌≡◌, true, is_some, option_map, map};
ghost use Rattle.toml.specs.Data.{as_array, as_bool, as_integer, as_str};
ghost use Rattle.toml.specs.View.{view};
ghost use Rattle.config.specs.Forms.{has_form};
ghost use Rattle.config.specs.Keys.{kind_view};
ghost use Rattle.config.specs.Values.{few, flaw, in_range, judged, word_place};

use crate::fault::ConfigFaultKind;
use crate::forms::has_form;
use crate::key::{Form, Kind};
use toml::Value;

// What is wrong with a value: it is of another kind, or whether it fits.
pub(crate) fn judged(fits: Option<bool>) -> Option<ConfigFaultKind>
    ensures { result ≡ judged fits }
{
    match fits {
        None => Some(ConfigFaultKind::WrongKind),
        Some(false) => Some(ConfigFaultKind::Range),
        Some(true) => None,
    }
}

/// The number, where it is in the range.
pub(crate) fn in_range(low: u32, high: u32, number: i64) -> Option<u32>
    ensures { result ≡ in_range low high number }
{
    if i64::from(low) <= number && number <= i64::from(high) {
        return Some(number as u32);
    }
    None
}

fn whole_fits(low: u32, high: u32, value: &Value) -> Option<bool>
    ensures { result ≡ option_map (λ n. is_some (in_range low high n))
        (as_integer (view value.now)) }
{
    match value.as_integer() {
        Some(number) => Some(in_range(low, high, number).is_some()),
        None => None,
    }
}

fn truth_fits(value: &Value) -> Option<bool>
    ensures { result ≡ option_map (λ _. true) (as_bool (view value.now)) }
{
    match value.as_bool() {
        Some(_) => Some(true),
        None => None,
    }
}

fn text_fits(form: Form, value: &Value) -> Option<bool>
    ensures { result ≡ option_map (has_form form) (as_str (view value.now)) }
{
    match value.as_str() {
        Some(text) => Some(has_form(form, text.as_bytes())),
        None => None,
    }
}

/// The place of a text among words.
pub(crate) fn word_place(words: &[&str], text: &str) -> Option<usize>
    ensures { result ≡ word_place (map (λ w. w.now) words.now) text.now }
{
    let mut at = 0;
    for word in words {
        if *word == text {
            return Some(at);
        }
        at += 1;
    }
    None
}

fn word_fits(words: &[&str], value: &Value) -> Option<bool>
    ensures { result ≡ option_map (λ t. is_some (word_place (map (λ w. w.now) words.now) t))
        (as_str (view value.now)) }
{
    match value.as_str() {
        Some(text) => Some(word_place(words, text).is_some()),
        None => None,
    }
}

fn array_fits(most: usize, value: &Value) -> Option<bool>
    ensures { result ≡ option_map (few most) (as_array (view value.now)) }
{
    match value.as_array() {
        Some(items) => Some(items.len() <= most),
        None => None,
    }
}

/// What is wrong with a value at a key of this kind.
pub(crate) fn flaw(kind: Kind, value: &Value) -> Option<ConfigFaultKind>
    ensures { result ≡ flaw (kind_view kind) (view value.now) }
{
    let fits = match kind {
        Kind::Whole {
            low,
            high,
            usual: _,
        } => whole_fits(low, high, value),
        Kind::Truth => truth_fits(value),
        Kind::Text(form) => text_fits(form, value),
        Kind::OneOf(words) => word_fits(words, value),
        Kind::Array { most } => array_fits(most, value),
    };
    judged(fits)
}
