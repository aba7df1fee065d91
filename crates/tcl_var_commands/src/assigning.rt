// Variables that are set.

ghost use Rattle.std.specs.Prelude.{◌≡◌, IfErr, option_map};
ghost use Rattle.std.specs.Option.{option_copied};
ghost use Rattle.tcl_vars.specs.Appended.{appended};
ghost use Rattle.tcl_vars.specs.Names.{Name, name_of};
ghost use Rattle.tcl_var_commands.specs.Changed.{Changes, Does, IfMemory};
ghost use Rattle.tcl_var_commands.specs.Assigning.{assigned, assigned_in_room, behind_first};
ghost use Rattle.tcl_var_commands.specs.Assigning.{first_text, row_assigned};

use crate::reading::is_only_read;
use px_bytes::{Raise, TclFault, Text};
use std::alloc::Global;
use tcl_vars::{Vars, name_of};

/// Gives a variable or an element a value. It is a fault where the name is static and the static
/// variables are only read, and where all variables would have more bytes than they may.
pub fn assign(
    alloc: Global,
    statics: Option<&Vars>,
    name: &[u8],
    index: Option<&[u8]>,
    value: &[u8],
    vars: &mut Vars,
) -> Result<(), Raise>
    ensures change { let level = option_map (λ v. v.now.statics) statics.entry in
        let named : Name = record { name = name.now; index = option_copied index.entry } in
        Does (assigned level named value.now vars.old) result vars.new }
    ensures memory { IfErr result (λ e. IfMemory e (vars.new ≡ vars.old)) }
{
    if is_only_read(statics, name) {
        return Err(Raise::Fault(TclFault::static_set(alloc)?));
    }
    set_in_room(name, index, Text::new(alloc, value)?, vars)
}

/// Gives the variable or element that a text names a value.
pub fn assign_named(
    alloc: Global,
    statics: Option<&Vars>,
    text: &[u8],
    value: &[u8],
    vars: &mut Vars,
) -> Result<(), Raise>
    ensures change { let level = option_map (λ v. v.now.statics) statics.entry in
        Does (assigned level (name_of text.now) value.now vars.old) result vars.new }
    ensures memory { IfErr result (λ e. IfMemory e (vars.new ≡ vars.old)) }
{
    let named = name_of(text);
    assign(alloc, statics, named.name, named.index, value, vars)
}

/// Gives the variables that texts name the values of a row, in order, the empty text where none is
/// left. It stops at the first fault, and keeps what was set before.
pub fn assign_row(
    alloc: Global,
    statics: Option<&Vars>,
    names: &[Text],
    values: &[Text],
    vars: &mut Vars,
) -> Result<(), Raise>
    ensures { let level = option_map (λ v. v.now.statics) statics.entry in
        Does (row_assigned level names.now values.now vars.old) result vars.new }
{
    let mut rest = values;
    for name in names {
        let (value, behind) = split_first(rest);
        assign_named(alloc, statics, name.as_bytes(), value, vars)?;
        rest = behind;
    }
    Ok(())
}

// The first text, or the empty one, and those behind it.
fn split_first(texts: &[Text]) -> (&[u8], &[Text])
    ensures first { result.0.now ≡ first_text texts.now }
    ensures behind { result.1.now ≡ behind_first texts.now }
{
    match texts {
        [first, behind @ ..] => (first.as_bytes(), behind),
        [] => (b"", texts),
    }
}

/// Gives the variable that a text names a value, and gives the value back.
pub(crate) fn assign_told(
    alloc: Global,
    statics: Option<&Vars>,
    text: &[u8],
    value: &Text,
    vars: &mut Vars,
) -> Result<Text, Raise>
    ensures change { let level = option_map (λ v. v.now.statics) statics.entry in
        Changes (assigned level (name_of text.now) value.now vars.old) result vars.new }
    ensures memory { IfErr result (λ e. IfMemory e (vars.new ≡ vars.old)) }
{
    let told = value.copy()?;
    assign_named(alloc, statics, text, value.as_bytes(), vars)?;
    Ok(told)
}

/// Adds bytes behind the value of a variable or an element, by the rules of `assign`. It costs what
/// is added.
pub(crate) fn add_behind(
    alloc: Global,
    statics: Option<&Vars>,
    name: &[u8],
    index: Option<&[u8]>,
    more: &[u8],
    vars: &mut Vars,
) -> Result<(), Raise>
    ensures change { let level = option_map (λ v. v.now.statics) statics.entry in
        let named : Name = record { name = name.now; index = option_copied index.entry } in
        let text = appended vars.old name.now (option_copied index.entry) more.now in
        Does (assigned level named text vars.old) result vars.new }
    ensures memory { IfErr result (λ e. IfMemory e (vars.new ≡ vars.old)) }
{
    if is_only_read(statics, name) {
        return Err(Raise::Fault(TclFault::static_set(alloc)?));
    }
    add_in_room(name, index, more, vars)
}

fn set_in_room(name: &[u8], index: Option<&[u8]>, value: Text, vars: &mut Vars) -> Result<(), Raise>
    ensures change { let named : Name = record { name = name.now; index = option_copied index.entry } in
        Does (assigned_in_room named value vars.old) result vars.new }
    ensures memory { IfErr result (λ e. IfMemory e (vars.new ≡ vars.old)) }
{
    vars.set(name, index, value)
}

fn add_in_room(name: &[u8], index: Option<&[u8]>, more: &[u8], vars: &mut Vars) -> Result<(), Raise>
    ensures change { let named : Name = record { name = name.now; index = option_copied index.entry } in
        let text = appended vars.old name.now (option_copied index.entry) more.now in
        Does (assigned_in_room named text vars.old) result vars.new }
    ensures memory { IfErr result (λ e. IfMemory e (vars.new ≡ vars.old)) }
{
    vars.append(name, index, more)
}
