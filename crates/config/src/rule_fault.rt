// What is wrong with rules.

ghost use Rattle.std.specs.Prelude.{◌≡◌, IfOk};
ghost use Rattle.config.specs.RuleFaults.{fault_of, misplaced_fault, rule_fault, rule_place};
ghost use Rattle.config.specs.Spots.{source_of, spot_in};

use crate::fault::{ConfigFault, ConfigFaultKind};
use crate::misplaced::Misplaced;
use crate::rule_text::{LoadedRule, RuleText};
use crate::spot::{Source, Spot, spot_at};
use px_bytes::{M, Text};
use rule_loader::{LoadKind, RuleFault};
use std::alloc::Global;

fn source_of(alloc: Global, at: usize, file: &Option<Text>) -> M<Source>
    ensures { IfOk result (λ source. source ≡ source_of at file.now) }
{
    match file {
        None => Ok(Source::Rule(at)),
        Some(name) => Ok(Source::File(Text::new(alloc, name.as_bytes())?)),
    }
}

fn spot_in(alloc: Global, at: usize, text: &RuleText, place: usize) -> M<Spot>
    ensures { IfOk result (λ spot. spot ≡ spot_in at text.now place) }
{
    let source = source_of(alloc, at, &text.file)?;
    spot_at(alloc, source, text.bytes.as_bytes(), place)
}

// The text of the place of what is wrong with a rule.
fn rule_place(alloc: Global, at: usize, number: u8, place: usize) -> M<Text>
    ensures { IfOk result (λ t. t ≡ rule_place at number place) }
{
    let text = format!(in alloc; "rule[{at}] load {number} at {place}")?;
    Ok(Text::from_vec(text.into_bytes()))
}

fn fault_of(alloc: Global, at: usize, why: RuleFault, spot: Option<Spot>) -> M<ConfigFault>
    ensures { IfOk result (λ fault. fault ≡ fault_of at why spot) }
{
    Ok(ConfigFault {
        kind: ConfigFaultKind::Rule(why.kind),
        place: rule_place(alloc, at, why.kind.number(), why.place)?,
        spot,
    })
}

/// What is wrong with the text of the rule of a place.
pub(crate) fn rule_fault(
    alloc: Global,
    at: usize,
    why: RuleFault,
    text: &RuleText,
) -> M<ConfigFault>
    ensures { IfOk result (λ fault. fault ≡ rule_fault at why text.now) }
{
    let spot = spot_in(alloc, at, text, why.place)?;
    fault_of(alloc, at, why, Some(spot))
}

/// An event that a virtual server doesn't have.
pub(crate) fn misplaced_fault(
    alloc: Global,
    rules: &[LoadedRule],
    found: Misplaced,
) -> M<ConfigFault>
    ensures { IfOk result (λ fault. fault ≡ misplaced_fault rules.now found) }
{
    let kind = LoadKind::NotHere;
    let why = RuleFault {
        kind,
        place: found.place,
    };
    match rules.get(found.rule) {
        Some(rule) => rule_fault(alloc, found.rule, why, &rule.text),
        None => fault_of(alloc, found.rule, why, None),
    }
}
