// Rules.

ghost use Rattle.std.specs.Prelude.{◌≡◌, IfOk};
ghost use Rattle.tmsh_text.specs.Printed.{rule_text, rules_text};

use crate::items::joined;
use config::LoadedRule;
use px_bytes::{M, Text};
use std::alloc::Global;

fn rule(alloc: Global, rule: &LoadedRule) -> M<Text>
    ensures { IfOk result (λ text. text ≡ rule_text rule.now) }
{
    joined(
        alloc,
        &[
            b"ltm rule ",
            rule.rule.name.as_bytes(),
            b" {",
            rule.text.bytes.as_bytes(),
            b"}\n",
        ],
    )
}

/// Rules in their order.
pub(crate) fn rules(alloc: Global, rules: &[LoadedRule]) -> M<Text>
    ensures { IfOk result (λ text. text ≡ rules_text rules.now) }
{
    let mut text = Text::empty(alloc);
    for one in rules {
        let stanza = rule(alloc, one)?;
        text.push(stanza.as_bytes())?;
    }
    Ok(text)
}
