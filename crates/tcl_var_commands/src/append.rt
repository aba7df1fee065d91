// The command `append`.

ghost use Rattle.std.specs.Prelude.{◌≡◌, IfErr, IfOk, flat_map, option_map};
ghost use Rattle.std.specs.Bool.{OnTrue};
ghost use Rattle.std.specs.Option.{option_copied};
ghost use Rattle.tcl_vars.specs.Appended.{appended};
ghost use Rattle.tcl_vars.specs.Names.{Name, name_of};
ghost use Rattle.tcl_var_commands.specs.Append.{append_changed};
ghost use Rattle.tcl_var_commands.specs.Assigning.{assigned};
ghost use Rattle.tcl_var_commands.specs.Changed.{ChangesFor, IfMemory};

use crate::assigning::add_behind;
use px_bytes::{M, Raise, Text, Texts};
use std::alloc::Global;
use tcl_vars::{Vars, name_of};

/// `append NAME ?VALUE ..?`: the variable's value, after these were added behind it. It is told
/// only where it is wanted, and else the cost is that of the new values.
pub fn append_command(
    alloc: Global,
    statics: Option<&Vars>,
    words: &Texts,
    vars: &mut Vars,
    wanted: bool,
) -> Result<Text, Raise>
    ensures change { let level = option_map (λ v. v.now.statics) statics.entry in
        ChangesFor wanted (append_changed level words.now vars.old) result vars.new }
    ensures memory { IfErr result (λ e. IfMemory e (vars.new ≡ vars.old)) }
{
    let [_, text, values @ ..] = words.as_slice() else {
        return Raise::arity(alloc, b"append");
    };
    let more = run_together(alloc, values)?;
    extend(
        alloc,
        statics,
        text.as_bytes(),
        more.as_bytes(),
        vars,
        wanted,
    )
}

fn run_together(alloc: Global, values: &[Text]) -> M<Text>
    ensures { IfOk result (λ text. text ≡ flat_map (λ v. v) values.now) }
{
    let mut text = Text::empty(alloc);
    for value in values {
        text.push(value.as_bytes())?;
    }
    Ok(text)
}

/// Adds bytes behind the variable that a text names, and gives its value where it is wanted.
pub(crate) fn extend(
    alloc: Global,
    statics: Option<&Vars>,
    text: &[u8],
    more: &[u8],
    vars: &mut Vars,
    wanted: bool,
) -> Result<Text, Raise>
    ensures change { let level = option_map (λ v. v.now.statics) statics.entry in
        let name = name_of text.now in
        let value = appended vars.old name.name name.index more.now in
        ChangesFor wanted (assigned level name value vars.old) result vars.new }
    ensures memory { IfErr result (λ e. IfMemory e (vars.new ≡ vars.old)) }
{
    let named = name_of(text);
    let told = told(alloc, vars, named.name, named.index, more, wanted)?;
    add_behind(alloc, statics, named.name, named.index, more, vars)?;
    Ok(told)
}

// The value with more behind it, where it is wanted.
fn told(
    alloc: Global,
    vars: &Vars,
    name: &[u8],
    index: Option<&[u8]>,
    more: &[u8],
    wanted: bool,
) -> M<Text>
    ensures { let i = option_copied index.entry in
        IfOk result (λ text. OnTrue wanted (text ≡ appended vars.now name.now i more.now)) }
{
    let mut text = Text::empty(alloc);
    if wanted {
        if let Some(old) = vars.get(name, index) {
            text.push(old.as_bytes())?;
        }
        text.push(more)?;
    }
    Ok(text)
}
