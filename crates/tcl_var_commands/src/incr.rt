// The command `incr`.

ghost use Rattle.std.specs.Prelude.{◌≡◌, IfErr, option_map};
ghost use Rattle.px_bytes.specs.Gives.{Gives};
ghost use Rattle.tcl_var_commands.specs.Changed.{Changes, IfMemory};
ghost use Rattle.tcl_var_commands.specs.Incr.{incr_changed, incremented, sum_text};

use crate::assigning::assign_told;
use crate::reading::read;
use px_bytes::{Raise, TclFault, Text, Texts, number, print_whole};
use std::alloc::Global;
use tcl_vars::{Vars, name_of};

/// `incr NAME ?N?`: the variable's value, a whole number, after N was added, or 1.
pub fn incr_command(
    alloc: Global,
    statics: Option<&Vars>,
    words: &Texts,
    vars: &mut Vars,
) -> Result<Text, Raise>
    ensures change { let level = option_map (λ v. v.now.statics) statics.entry in
        Changes (incr_changed level words.now vars.old) result vars.new }
    ensures memory { IfErr result (λ e. IfMemory e (vars.new ≡ vars.old)) }
{
    match words.as_slice() {
        [_, text] => increment(alloc, statics, text.as_bytes(), b"1", vars),
        [_, text, more] => increment(alloc, statics, text.as_bytes(), more.as_bytes(), vars),
        _ => Raise::arity(alloc, b"incr"),
    }
}

fn increment(
    alloc: Global,
    statics: Option<&Vars>,
    text: &[u8],
    more: &[u8],
    vars: &mut Vars,
) -> Result<Text, Raise>
    ensures change { let level = option_map (λ v. v.now.statics) statics.entry in
        Changes (incremented level text.now more.now vars.old) result vars.new }
    ensures memory { IfErr result (λ e. IfMemory e (vars.new ≡ vars.old)) }
{
    let named = name_of(text);
    let old = read(alloc, statics, vars, text, named.name, named.index)?;
    let sum = sum_text(alloc, old.as_bytes(), more)?;
    assign_told(alloc, statics, text, &sum, vars)
}

// The sum of two texts that have to be whole numbers.
fn sum_text(alloc: Global, text: &[u8], more: &[u8]) -> Result<Text, Raise>
    ensures { Gives result (sum_text text.now more.now) }
{
    let m = number(alloc, text)?;
    let n = number(alloc, more)?;
    match m.checked_add(n) {
        Some(sum) => Ok(print_whole(alloc, sum)?),
        None => Err(Raise::Fault(TclFault::out_of_range(alloc)?)),
    }
}
