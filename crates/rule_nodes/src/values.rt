// Values of variables.

ghost use Rattle.std.specs.Prelude.{IfOk, None, Ok, codes, option_map, ◌++◌, ◌≡◌};
ghost use Rattle.px_bytes.specs.Gives.{Gives};
ghost use Rattle.tcl_vars.specs.Names.{Name};
ghost use Rattle.tcl_var_commands.specs.Reading.{read_value};
ghost use Rattle.rule_nodes.specs.Values.{element_read};

use px_bytes::{M, Raise, Text};
use std::alloc::Global;
use tcl_var_commands::read;
use tcl_vars::Vars;

/// The value of a literal.
pub fn literal(text: &Text) -> Result<Text, Raise>
    ensures { Gives result (Ok text.now) }
{
    Ok(text.copy()?)
}

/// The value of a variable.
pub fn variable(
    alloc: Global,
    statics: Option<&Vars>,
    vars: &Vars,
    name: &Text,
) -> Result<Text, Raise>
    ensures { let level = option_map (λ v. v.now.statics) statics.entry in
        let named : Name = record { name = name.now; index = None } in
        Gives result (read_value level vars.now name.now named) }
{
    let name = name.as_bytes();
    read(alloc, statics, vars, name, name, None)
}

/// The value of an array's element.
pub fn element(
    alloc: Global,
    statics: Option<&Vars>,
    vars: &Vars,
    name: &Text,
    index: &Text,
) -> Result<Text, Raise>
    ensures { let level = option_map (λ v. v.now.statics) statics.entry in
        Gives result (element_read level name.now index.now vars.now) }
{
    let text = element_text(name, index)?;
    let index = Some(index.as_bytes());
    read(
        alloc,
        statics,
        vars,
        text.as_bytes(),
        name.as_bytes(),
        index,
    )
}

// An element as it is written.
fn element_text(name: &Text, index: &Text) -> M<Text>
    ensures { IfOk result (λ t. t ≡ name.now ++ codes "(" ++ index.now ++ codes ")") }
{
    let mut text = name.copy()?;
    text.push(b"(")?;
    text.push(index.as_bytes())?;
    text.push(b")")?;
    Ok(text)
}
