// The command `set`.

ghost use Rattle.std.specs.Prelude.{◌≡◌, IfErr, option_map};
ghost use Rattle.tcl_var_commands.specs.Changed.{Changes, IfMemory};
ghost use Rattle.tcl_var_commands.specs.Set.{set_changed};

use crate::assigning::assign_told;
use crate::reading::read;
use px_bytes::{Raise, Text, Texts};
use std::alloc::Global;
use tcl_vars::{Vars, name_of};

/// `set NAME ?VALUE?`: the variable's value, after it was given this one.
pub fn set_command(
    alloc: Global,
    statics: Option<&Vars>,
    words: &Texts,
    vars: &mut Vars,
) -> Result<Text, Raise>
    ensures change { let level = option_map (λ v. v.now.statics) statics.entry in
        Changes (set_changed level words.now vars.old) result vars.new }
    ensures memory { IfErr result (λ e. IfMemory e (vars.new ≡ vars.old)) }
{
    match words.as_slice() {
        [_, text] => {
            let text = text.as_bytes();
            let named = name_of(text);
            read(alloc, statics, vars, text, named.name, named.index)
        }
        [_, text, value] => assign_told(alloc, statics, text.as_bytes(), value, vars),
        _ => Raise::arity(alloc, b"set"),
    }
}
