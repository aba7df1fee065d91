// The forms of `array` that set values and take them away.

ghost use Rattle.std.specs.Prelude.{◌≡◌, option_map};
ghost use Rattle.px_bytes.specs.Gives.{Gives};
ghost use Rattle.tcl_vars.specs.Indexes.{indexes_at};
ghost use Rattle.tcl_var_commands.specs.Array.{even_list, list_assigned, pairs_assigned, set_form};
ghost use Rattle.tcl_var_commands.specs.Array.{unset_form, without_indexes};
ghost use Rattle.tcl_var_commands.specs.Changed.{Changes};

use crate::assigning::assign;
use crate::reading::is_only_read;
use px_bytes::{Raise, TclFault, Text, Texts};
use std::alloc::Global;
use tcl_lists::{ListFault, split};
use tcl_vars::Vars;

/// `array set NAME PAIRS`: each index in the list is given the value behind it, in order, up to the
/// first fault.
pub(crate) fn set_form(
    alloc: Global,
    statics: Option<&Vars>,
    words: &[Text],
    vars: &mut Vars,
) -> Result<Text, Raise>
    ensures { let level = option_map (λ v. v.now.statics) statics.entry in
        Changes (set_form level words.now vars.old) result vars.new }
{
    let [name, list] = words else {
        return Raise::arity(alloc, b"array");
    };
    let pairs = even_list(alloc, list.as_bytes())?;
    if is_only_read(statics, name.as_bytes()) {
        return Err(Raise::Fault(TclFault::static_set(alloc)?));
    }
    set_pairs(alloc, statics, name.as_bytes(), pairs.as_slice(), vars)
}

// The elements of a list that has an even number of them.
fn even_list(alloc: Global, list: &[u8]) -> Result<Texts, Raise>
    ensures { Gives result (even_list list.now) }
{
    match split(alloc, list) {
        Ok(pairs) if pairs.len() % 2 == 0 => Ok(pairs),
        Err(ListFault::Memory) => Err(Raise::Memory),
        _ => Raise::syntax(alloc, b"array"),
    }
}

fn set_pairs(
    alloc: Global,
    statics: Option<&Vars>,
    name: &[u8],
    pairs: &[Text],
    vars: &mut Vars,
) -> Result<Text, Raise>
    ensures { let level = option_map (λ v. v.now.statics) statics.entry in
        Changes (pairs_assigned level name.now pairs.now vars.old) result vars.new }
{
    let mut rest = pairs;
    while let [index, value, behind @ ..] = rest {
        let (index, value) = (index.as_bytes(), value.as_bytes());
        assign(alloc, statics, name, Some(index), value, vars)?;
        rest = behind;
    }
    Ok(Text::empty(alloc))
}

/// `array unset NAME`: all indexed values of the name are taken away.
pub(crate) fn unset_form(
    alloc: Global,
    statics: Option<&Vars>,
    words: &[Text],
    vars: &mut Vars,
) -> Result<Text, Raise>
    ensures { let level = option_map (λ v. v.now.statics) statics.entry in
        Changes (unset_form level words.now vars.old) result vars.new }
{
    let [name] = words else {
        return Raise::arity(alloc, b"array");
    };
    if is_only_read(statics, name.as_bytes()) {
        return Err(Raise::Fault(TclFault::static_set(alloc)?));
    }
    let indexes = vars.indexes(name.as_bytes())?;
    unset_indexes(name.as_bytes(), indexes.as_slice(), vars);
    Ok(Text::empty(alloc))
}

fn unset_indexes(name: &[u8], indexes: &[Text], vars: &mut Vars)
    ensures { vars.new ≡ without_indexes name.now indexes.now vars.old }
{
    for index in indexes {
        vars.unset(name, Some(index.as_bytes()));
    }
}
