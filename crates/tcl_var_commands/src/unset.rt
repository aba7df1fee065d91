// The command `unset`.

ghost use Rattle.std.specs.Prelude.{option_map};
ghost use Rattle.tcl_var_commands.specs.Changed.{Changes, Does};
ghost use Rattle.tcl_var_commands.specs.Unset.{unset_changed, unset_each, unset_names, unset_one};

use crate::fault::cannot_unset;
use crate::reading::is_only_read;
use px_bytes::{Raise, TclFault, Text, Texts};
use std::alloc::Global;
use tcl_vars::{Vars, name_of};

/// `unset ?-nocomplain? NAME ..`: the variables are taken away in order, up to the first fault.
/// That one isn't there is a fault without `-nocomplain`. A name without index is its plain value
/// alone.
pub fn unset_command(
    alloc: Global,
    statics: Option<&Vars>,
    words: &Texts,
    vars: &mut Vars,
) -> Result<Text, Raise>
    ensures { let level = option_map (λ v. v.now.statics) statics.entry in
        Changes (unset_changed level words.now vars.old) result vars.new }
{
    let [_, first, behind @ ..] = words.as_slice() else {
        return Raise::arity(alloc, b"unset");
    };
    if first.as_bytes() == b"-nocomplain".as_slice() {
        unset_names(alloc, statics, true, behind, vars)
    } else {
        unset_names(alloc, statics, false, &words.as_slice()[1..], vars)
    }
}

fn unset_names(
    alloc: Global,
    statics: Option<&Vars>,
    lenient: bool,
    names: &[Text],
    vars: &mut Vars,
) -> Result<Text, Raise>
    ensures { let level = option_map (λ v. v.now.statics) statics.entry in
        Changes (unset_names level lenient names.now vars.old) result vars.new }
{
    if names.is_empty() {
        return Raise::arity(alloc, b"unset");
    }
    unset_each(alloc, statics, lenient, names, vars)
}

fn unset_each(
    alloc: Global,
    statics: Option<&Vars>,
    lenient: bool,
    names: &[Text],
    vars: &mut Vars,
) -> Result<Text, Raise>
    ensures { let level = option_map (λ v. v.now.statics) statics.entry in
        Changes (unset_each level lenient names.now vars.old) result vars.new }
{
    for name in names {
        unset_one(alloc, statics, lenient, name.as_bytes(), vars)?;
    }
    Ok(Text::empty(alloc))
}

fn unset_one(
    alloc: Global,
    statics: Option<&Vars>,
    lenient: bool,
    text: &[u8],
    vars: &mut Vars,
) -> Result<(), Raise>
    ensures { let level = option_map (λ v. v.now.statics) statics.entry in
        Does (unset_one level lenient text.now vars.old) result vars.new }
{
    let named = name_of(text);
    if is_only_read(statics, named.name) {
        return Err(Raise::Fault(TclFault::static_set(alloc)?));
    }
    if !lenient && vars.get(named.name, named.index).is_none() {
        return Err(Raise::Fault(cannot_unset(alloc, text)?));
    }
    vars.unset(named.name, named.index);
    Ok(())
}
