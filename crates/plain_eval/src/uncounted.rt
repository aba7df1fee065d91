// Calls that count steps, where nobody asks how many.

ghost use Rattle.std.specs.Prelude.{option_map, ◌<◌, ◌≡◌};
ghost use Rattle.px_bytes.specs.Gives.{Gives};
ghost use Rattle.rule_model.specs.Expressions.{joint_value, prefixed_value};
ghost use Rattle.rule_nodes.specs.Own.{own_done};
ghost use Rattle.plain_eval.specs.End.{OwnedAs};

use px_bytes::{M, Raise, Steps, Text, Texts};
use rule_model::Code;
use rule_nodes::{joint_text, own_command, prefixed};
use std::alloc::Global;
use std::marker::Brand;
use std::sync::ledger::{Blank, Ledger};
use tcl_expr::{Joint, Op1};
use tcl_trees::Verb;
use tcl_vars::Vars;

/// What operators before an operand give.
pub(crate) fn prefixed_text(alloc: Global, ops: &[Op1], value: Text) -> Result<Text, Raise>
    ensures { Gives result (prefixed_value ops.now value) }
{
    prefixed_by::<Brand>(alloc, ops, value, Blank::new(1))
}

fn prefixed_by<L: Ledger>(
    alloc: Global,
    ops: &[Op1],
    value: Text,
    blank: Blank,
) -> Result<Text, Raise>
    requires name { blank.name ≡ L.name }
    requires parts { blank.parts ≡ L.parts }
    requires some { 0 < blank.parts }
    ensures { Gives result (prefixed_value ops.now value) }
{
    let mut steps = Steps::<L>::new(blank);
    prefixed(alloc, ops, value, &mut steps)
}

/// What two operands give.
pub(crate) fn both_text(
    alloc: Global,
    joint: Joint,
    left: &Text,
    right: &[u8],
) -> Result<Text, Raise>
    ensures { Gives result (joint_value joint left.now right.now) }
{
    both_by::<Brand>(alloc, joint, left, right, Blank::new(1))
}

fn both_by<L: Ledger>(
    alloc: Global,
    joint: Joint,
    left: &Text,
    right: &[u8],
    blank: Blank,
) -> Result<Text, Raise>
    requires name { blank.name ≡ L.name }
    requires parts { blank.parts ≡ L.parts }
    requires some { 0 < blank.parts }
    ensures { Gives result (joint_value joint left.now right.now) }
{
    let mut steps = Steps::<L>::new(blank);
    joint_text(alloc, joint, left.as_bytes(), right, &mut steps)
}

/// Does a command of the language that evaluates nothing more than its words.
pub(crate) fn own_code(
    alloc: Global,
    statics: Option<&Vars>,
    verb: Verb,
    words: &Texts,
    wanted: bool,
    vars: &mut Vars,
) -> M<Code>
    ensures { let level = option_map (λ v. v.now.statics) statics.entry in
        OwnedAs wanted (own_done level verb words.now vars.old) result vars.new }
{
    own_by::<Brand>(alloc, statics, verb, words, wanted, vars, Blank::new(1))
}

fn own_by<L: Ledger>(
    alloc: Global,
    statics: Option<&Vars>,
    verb: Verb,
    words: &Texts,
    wanted: bool,
    vars: &mut Vars,
    blank: Blank,
) -> M<Code>
    requires name { blank.name ≡ L.name }
    requires parts { blank.parts ≡ L.parts }
    requires some { 0 < blank.parts }
    ensures { let level = option_map (λ v. v.now.statics) statics.entry in
        OwnedAs wanted (own_done level verb words.now vars.old) result vars.new }
{
    let mut steps = Steps::<L>::new(blank);
    own_command(alloc, statics, verb, words, wanted, vars, &mut steps)
}
