// Loaded rules in order.

ghost use Rattle.std.specs.Prelude.{◌≡◌, [], ◌∷◌, ◌++◌, IfOk, OnErr, OnOk, map};
ghost use Rattle.config.specs.declared.rule_text.LoadedRule.{LoadedRule};

use crate::rule_text::LoadedRule;
use px_bytes::{M, Seq};
use rule_loader::Rule;
use std::alloc::Global;
use std::marker::Model;

/// Loaded rules in order, which contracts see as a list.
#[derive(Drop)]
pub struct LoadedRules {
    rules: Vec<LoadedRule>,
}

impl Model for LoadedRules {
    ghost use Rattle.std.specs.Coded.{codes};
    ghost use Rattle.std.specs.Prelude.{List};
    ghost use Rattle.config.specs.declared.rule_text.LoadedRule.{LoadedRule};
    ghost use Rattle.tcl_trees.specs.contracts.node.Node as node;

    ghost Value = { List LoadedRule };

    ghost coded = { Prim.hlevel (codes, node.the_row.coded) };

    ghost view = { λ s. s.rules.items };
}

impl LoadedRules {
    pub fn new(alloc: Global) -> LoadedRules
        ensures { result ≡ [] }
    {
        LoadedRules {
            rules: Vec::new(alloc),
        }
    }

    pub fn as_slice(&self) -> &[LoadedRule]
        ensures { result.now ≡ self.now }
    {
        &self.rules
    }

    /// Adds a rule at the end.
    pub fn push(&mut self, rule: LoadedRule) -> M<()>
        ensures ok { OnOk result (self.new ≡ self.old ++ rule ∷ []) }
        ensures err { OnErr result (self.new ≡ self.old) }
    {
        self.rules.push(rule)?;
        Ok(())
    }

    /// The rules alone, which are moved.
    pub fn into_rules(self, alloc: Global) -> M<Seq<Rule>>
        ensures { IfOk result (λ rules. rules ≡ map (λ r. r.rule) self) }
    {
        let mut rules = Seq::new(alloc);
        for loaded in self.rules {
            let LoadedRule {
                text: _,
                rule,
                events: _,
            } = loaded;
            rules.push(rule)?;
        }
        Ok(rules)
    }
}
