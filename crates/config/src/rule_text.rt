// The texts of rules, and the rules that they are.

ghost use Rattle.std.specs.Prelude.{◌≡◌, ◌≤◌, IfOk, IfErr};
ghost use Rattle.toml.specs.View.{view};
ghost use Rattle.config.specs.Faults.{fault_at};
ghost use Rattle.config.specs.Keys.{key_view};
ghost use Rattle.config.specs.Loading.{CantLoad, CantRead, IsContents, IsFileText, IsLoaded};
ghost use Rattle.config.specs.Loading.{IsRuleFault, IsRuleOf, IsRuleText, OfFault, file_name};
ghost use Rattle.config.specs.Loading.{item_text, rule_name};

use crate::event_words::{FirstEventPlaces, event_places};
use crate::fault::{ConfigError, ConfigFault, ConfigFaultKind};
use crate::index::text_in;
use crate::key::Key;
use crate::keys::{FILE, NAME, TEXT};
use crate::line_ends::without_returns;
use crate::rule_fault::rule_fault;
use px_bytes::{M, Text};
use px_outside::{Failed, Files};
use rule_loader::{LoadFault, Rule, load_rule};
use std::alloc::Global;
use toml::Value;

/// The text of a rule.
#[derive(Drop)]
pub struct RuleText {
    /// The name of the file where it stands, unless it stands in the document.
    pub file: Option<Text>,
    /// Its bytes; of a file without the carriage returns of CR LF.
    pub bytes: Text,
}

/// A rule with its text.
#[derive(Drop)]
pub struct LoadedRule {
    pub text: RuleText,
    pub rule: Rule,
    /// Where its first events stand that not every virtual server has.
    pub events: FirstEventPlaces,
}

/// The bytes of a file.
pub(crate) fn read_file<F: Files>(
    alloc: Global,
    files: &mut F,
    name: &[u8],
) -> Result<Text, ConfigError>
    ensures contents { IfOk result (IsContents (F.told files.old) name.now) }
    ensures fault { IfErr result
        (OfFault (CantRead (F.faults files.old) (F.faults files.new) name.now)) }
    ensures same_files { F.told files.new ≡ F.told files.old }
    ensures faults_never_fall { F.faults files.old ≤ F.faults files.new }
{
    match files.read(alloc, name) {
        Ok(text) => Ok(text),
        Err(Failed::Failed) => Err(unread(alloc, name)),
        Err(Failed::Memory) => Err(ConfigError::Memory),
    }
}

// A file can't be read.
fn unread(alloc: Global, name: &[u8]) -> ConfigError
    ensures { OfFault (λ f. f ≡ fault_at ConfigFaultKind.ReadFault name.now) result }
{
    match Text::new(alloc, name) {
        Ok(place) => ConfigError::Fault(ConfigFault {
            kind: ConfigFaultKind::ReadFault,
            place,
            spot: None,
        }),
        Err(_) => ConfigError::Memory,
    }
}

// The text at a key of an item, or no bytes.
fn item_text<'a>(key: &Key, value: &'a Value) -> &'a [u8]
    ensures { result.now ≡ item_text (key_view key.now).name (view value.now) }
{
    match text_in(Some(key.name), value) {
        Some(text) => text.as_bytes(),
        None => b"",
    }
}

// The text of a rule that stands in a file of its own.
fn file_text<F: Files>(alloc: Global, files: &mut F, name: &[u8]) -> Result<RuleText, ConfigError>
    ensures text { IfOk result (IsFileText (F.told files.old) name.now) }
    ensures fault { IfErr result
        (OfFault (CantRead (F.faults files.old) (F.faults files.new) name.now)) }
    ensures same_files { F.told files.new ≡ F.told files.old }
    ensures faults_never_fall { F.faults files.old ≤ F.faults files.new }
{
    match read_file(alloc, files, name) {
        Ok(held) => Ok(RuleText {
            file: Some(Text::new(alloc, name)?),
            bytes: without_returns(alloc, held.as_bytes())?,
        }),
        Err(why) => Err(why),
    }
}

// The text of a rule, which stands in the document or in a file.
fn rule_text<F: Files>(alloc: Global, files: &mut F, value: &Value) -> Result<RuleText, ConfigError>
    ensures text { IfOk result (IsRuleText (F.told files.old) (view value.now)) }
    ensures fault { IfErr result
        (OfFault (CantRead (F.faults files.old) (F.faults files.new)
        (file_name (view value.now)))) }
    ensures same_files { F.told files.new ≡ F.told files.old }
    ensures faults_never_fall { F.faults files.old ≤ F.faults files.new }
{
    match text_in(Some(TEXT.name), value) {
        Some(text) => Ok(RuleText {
            file: None,
            bytes: Text::new(alloc, text.as_bytes())?,
        }),
        None => file_text(alloc, files, item_text(&FILE, value)),
    }
}

// The rule of a text.
fn loaded(
    alloc: Global,
    at: usize,
    value: &Value,
    text: RuleText,
) -> Result<LoadedRule, ConfigError>
    ensures loaded { IfOk result (IsRuleOf (rule_name (view value.now)) text) }
    ensures fault { IfErr result (OfFault (CantLoad at (rule_name (view value.now)) text)) }
{
    match load_rule(alloc, item_text(&NAME, value), text.bytes.as_bytes()) {
        Ok(rule) => {
            let events = event_places(alloc, text.bytes.as_bytes())?;
            Ok(LoadedRule { text, rule, events })
        }
        Err(LoadFault::Fault(why)) => {
            Err(ConfigError::Fault(rule_fault(alloc, at, why, &text)?))
        }
        Err(LoadFault::Memory) => Err(ConfigError::Memory),
    }
}

/// The rule that an item of the rules is.
pub(crate) fn rule_of<F: Files>(
    alloc: Global,
    files: &mut F,
    at: usize,
    value: &Value,
) -> Result<LoadedRule, ConfigError>
    ensures loaded { IfOk result (IsLoaded (F.told files.old) (view value.now)) }
    ensures fault { IfErr result (OfFault (IsRuleFault (F.told files.old) (F.faults files.old)
        (F.faults files.new) at (view value.now))) }
    ensures same_files { F.told files.new ≡ F.told files.old }
    ensures faults_never_fall { F.faults files.old ≤ F.faults files.new }
{
    let text = rule_text(alloc, files, value)?;
    loaded(alloc, at, value, text)
}
