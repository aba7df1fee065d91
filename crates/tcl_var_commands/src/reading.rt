// Variables that are read.

ghost use Rattle.std.specs.Prelude.{◌≡◌, option_map};
ghost use Rattle.std.specs.Option.{option_copied};
ghost use Rattle.px_bytes.specs.Gives.{Gives};
ghost use Rattle.tcl_vars.specs.Names.{Name};
ghost use Rattle.tcl_vars.specs.Scopes.{is_static, value_at};
ghost use Rattle.tcl_var_commands.specs.Reading.{is_only_read, level_read, read_value, value_of};

use px_bytes::{Raise, TclFault, Text};
use std::alloc::Global;
use tcl_vars::Vars;

/// Reads the variable that a text names. The static ones are those of `statics` where these are
/// given. That there is none is a fault.
pub fn read(
    alloc: Global,
    statics: Option<&Vars>,
    vars: &Vars,
    text: &[u8],
    name: &[u8],
    index: Option<&[u8]>,
) -> Result<Text, Raise>
    ensures { let level = option_map (λ v. v.now.statics) statics.entry in
        let named : Name = record { name = name.now; index = option_copied index.entry } in
        Gives result (read_value level vars.now text.now named) }
{
    match value(statics, vars, name, index) {
        Some(value) => Ok(value.copy()?),
        None => Err(Raise::Fault(TclFault::no_variable(alloc, text)?)),
    }
}

/// The value of a variable, where there is one.
pub fn value<'a>(
    statics: Option<&'a Vars>,
    vars: &'a Vars,
    name: &[u8],
    index: Option<&[u8]>,
) -> Option<&'a Text>
    ensures { let level = option_map (λ v. v.now.statics) statics.entry in
        let named : Name = record { name = name.now; index = option_copied index.entry } in
        option_copied result ≡ value_of level vars.now named }
{
    match statics {
        Some(statics) if is_static(name) => statics.get(name, index),
        _ => vars.get(name, index),
    }
}

/// The variables in which a name is looked up.
pub(crate) fn source<'a>(statics: Option<&'a Vars>, vars: &'a Vars, name: &[u8]) -> &'a Vars
    ensures { let level = option_map (λ v. v.now.statics) statics.entry in
        level_read None result.now name.now ≡ level_read level vars.now name.now }
{
    match statics {
        Some(statics) if is_static(name) => statics,
        _ => vars,
    }
}

/// Whether a name is that of a static variable, where these are only read.
pub(crate) fn is_only_read(statics: Option<&Vars>, name: &[u8]) -> bool
    ensures { let level = option_map (λ v. v.now.statics) statics.entry in
        result ≡ is_only_read level name.now }
{
    statics.is_some() && is_static(name)
}

// Whether a name is that of a static variable.
fn is_static(name: &[u8]) -> bool
    ensures { result ≡ is_static name.now }
{
    name.starts_with(b"static::")
}
