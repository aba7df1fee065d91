// What is wrong with a value.

ghost use Rattle.std.specs.Prelude.{◌≡◌, true, is_some, length, option_map};
ghost use Rattle.toml.specs.Data.{as_array, as_integer, as_str};
ghost use Rattle.toml.specs.View.{view};
ghost use Rattle.config.specs.Values.{in_range, judged};
ghost use Rattle.pool_monitor.specs.Documents.{flaw, is_probing, is_so_long, probing_of};
ghost use Rattle.pool_monitor.specs.Keys.{kind_view};

use crate::key::Kind;
use config::ConfigFaultKind;
use toml::Value;

/// By what a pool is probed.
#[derive(Clone, Copy)]
pub(crate) enum Probing {
    Tcp,
    Http,
    /// By neither; what else stands there is judged all the same.
    Unknown,
}

/// What a word says.
pub(crate) fn probing_of(word: &str) -> Probing
    ensures { result ≡ probing_of word.now }
{
    if word == "tcp" {
        Probing::Tcp
    } else if word == "http" {
        Probing::Http
    } else {
        Probing::Unknown
    }
}

fn is_probing(word: &str) -> bool
    ensures { result ≡ is_probing (probing_of word.now) }
{
    match probing_of(word) {
        Probing::Unknown => false,
        _ => true,
    }
}

// What is wrong with a value: it is of another kind, or whether it fits.
fn judged(fits: Option<bool>) -> Option<ConfigFaultKind>
    ensures { result ≡ judged fits }
{
    match fits {
        None => Some(ConfigFaultKind::WrongKind),
        Some(false) => Some(ConfigFaultKind::Range),
        Some(true) => None,
    }
}

/// The number, where it is in the range.
pub(crate) fn in_range(low: u32, high: u32, number: i64) -> Option<u32>
    ensures { result ≡ in_range low high number }
{
    if i64::from(low) <= number && number <= i64::from(high) {
        return Some(number as u32);
    }
    None
}

fn whole_fits(low: u32, high: u32, value: &Value) -> Option<bool>
    ensures { result ≡ option_map (λ n. is_some (in_range low high n))
        (as_integer (view value.now)) }
{
    match value.as_integer() {
        Some(number) => Some(in_range(low, high, number).is_some()),
        None => None,
    }
}

fn text_fits(least: usize, most: usize, value: &Value) -> Option<bool>
    ensures { result ≡ option_map (λ t. is_so_long least most (length t))
        (as_str (view value.now)) }
{
    match value.as_str() {
        Some(text) => Some(least <= text.len() && text.len() <= most),
        None => None,
    }
}

fn word_fits(value: &Value) -> Option<bool>
    ensures { result ≡ option_map (λ t. is_probing (probing_of t)) (as_str (view value.now)) }
{
    match value.as_str() {
        Some(text) => Some(is_probing(text)),
        None => None,
    }
}

fn array_fits(value: &Value) -> Option<bool>
    ensures { result ≡ option_map (λ _. true) (as_array (view value.now)) }
{
    match value.as_array() {
        Some(_) => Some(true),
        None => None,
    }
}

/// What is wrong with a value at a key of this kind.
pub(crate) fn flaw(kind: Kind, value: &Value) -> Option<ConfigFaultKind>
    ensures { result ≡ flaw (kind_view kind) (view value.now) }
{
    let fits = match kind {
        Kind::Whole {
            low,
            high,
            usual: _,
        } => whole_fits(low, high, value),
        Kind::Text { least, most } => text_fits(least, most, value),
        Kind::Probing => word_fits(value),
        Kind::Array => array_fits(value),
    };
    judged(fits)
}
