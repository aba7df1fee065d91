// The command `info`.

ghost use Rattle.std.specs.Prelude.{◌≡◌, IfOk, option_map};
ghost use Rattle.tcl_var_commands.specs.Changed.{Changes};
ghost use Rattle.tcl_var_commands.specs.Info.{exists_form, flag, info_changed};

use crate::reading::value;
use px_bytes::{M, Raise, Text, Texts};
use std::alloc::Global;
use tcl_vars::{Vars, name_of};

/// `info exists NAME`: 1 where the variable is there, and else 0. A name without index is its plain
/// value alone.
pub fn info_command(
    alloc: Global,
    statics: Option<&Vars>,
    words: &Texts,
    vars: &mut Vars,
) -> Result<Text, Raise>
    ensures { let level = option_map (λ v. v.now.statics) statics.entry in
        Changes (info_changed level words.now vars.old) result vars.new }
{
    let [_, form, names @ ..] = words.as_slice() else {
        return Raise::arity(alloc, b"info");
    };
    if form.as_bytes() != b"exists".as_slice() {
        return Raise::syntax(alloc, b"info");
    }
    exists(alloc, statics, names, vars)
}

fn exists(alloc: Global, statics: Option<&Vars>, names: &[Text], vars: &Vars) -> Result<Text, Raise>
    ensures { let level = option_map (λ v. v.now.statics) statics.entry in
        Changes (exists_form level names.now vars.now) result vars.now }
{
    let [text] = names else {
        return Raise::arity(alloc, b"info");
    };
    let named = name_of(text.as_bytes());
    let is_there = value(statics, vars, named.name, named.index).is_some();
    Ok(flag(alloc, is_there)?)
}

/// 1 where it holds, and else 0.
pub(crate) fn flag(alloc: Global, holds: bool) -> M<Text>
    ensures { IfOk result (λ text. text ≡ flag holds) }
{
    Text::new(alloc, if holds { b"1" } else { b"0" })
}
