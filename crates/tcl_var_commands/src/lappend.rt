// The command `lappend`.

ghost use Rattle.std.specs.Prelude.{◌≡◌, IfErr, ◌++◌, ℕ, List, [], IfOk, length, nat_lt, option_map};
ghost use Rattle.std.specs.Prelude.{unwrap_or};
ghost use Rattle.std.specs.Option.{option_copied};
ghost use Rattle.tcl_vars.specs.Names.{name_of};
ghost use Rattle.tcl_vars.specs.Scopes.{value_at};
ghost use Rattle.tcl_var_commands.specs.Changed.{ChangesFor, IfMemory};
ghost use Rattle.tcl_var_commands.specs.Lappend.{elements_behind, lappend_changed, lengthened};

use crate::append::extend;
use px_bytes::{M, Raise, Text, Texts};
use std::alloc::Global;
use tcl_lists::join_list;
use tcl_vars::{Vars, name_of};

/// `lappend NAME ?VALUE ..?`: the variable's value, a list, after these were added as elements. It
/// is told only where it is wanted, and else the cost is that of the new values.
pub fn lappend_command(
    alloc: Global,
    statics: Option<&Vars>,
    words: &Texts,
    vars: &mut Vars,
    wanted: bool,
) -> Result<Text, Raise>
    ensures change { let level = option_map (λ v. v.now.statics) statics.entry in
        ChangesFor wanted (lappend_changed level words.now vars.old) result vars.new }
    ensures memory { IfErr result (λ e. IfMemory e (vars.new ≡ vars.old)) }
{
    let [_, text, elements @ ..] = words.as_slice() else {
        return Raise::arity(alloc, b"lappend");
    };
    lengthen(alloc, statics, text.as_bytes(), elements, vars, wanted)
}

fn lengthen(
    alloc: Global,
    statics: Option<&Vars>,
    text: &[u8],
    elements: &[Text],
    vars: &mut Vars,
    wanted: bool,
) -> Result<Text, Raise>
    ensures change { let level = option_map (λ v. v.now.statics) statics.entry in
        let changed = lengthened level (name_of text.now) elements.now vars.old in
        ChangesFor wanted changed result vars.new }
    ensures memory { IfErr result (λ e. IfMemory e (vars.new ≡ vars.old)) }
{
    let named = name_of(text);
    let has_text = has_text(vars, named.name, named.index);
    let more = elements_behind(alloc, has_text, elements)?;
    extend(alloc, statics, text, more.as_bytes(), vars, wanted)
}

// Whether a variable has a value that isn't empty.
fn has_text(vars: &Vars, name: &[u8], index: Option<&[u8]>) -> bool
    ensures { let value = value_at vars.now name.now (option_copied index.entry) in
        result ≡ nat_lt 0 (length (unwrap_or value [])) }
{
    match vars.get(name, index) {
        Some(text) => text.len() > 0,
        None => false,
    }
}

// What elements add behind a text that is empty or not.
fn elements_behind(alloc: Global, has_text: bool, elements: &[Text]) -> M<Text>
    ensures { (old : List ℕ) → has_text ≡ nat_lt 0 (length old)
        → IfOk result (λ more. old ++ more ≡ elements_behind old elements.now) }
{
    let list = join_list(alloc, &copied(alloc, elements)?)?;
    if !has_text || elements.is_empty() {
        return Ok(list);
    }
    let mut more = Text::new(alloc, b" ")?;
    more.push(list.as_bytes())?;
    Ok(more)
}

fn copied(alloc: Global, texts: &[Text]) -> M<Texts>
    ensures { IfOk result (λ copies. copies ≡ texts.now) }
{
    let mut copies = Texts::new(alloc);
    for text in texts {
        copies.push(text.copy()?)?;
    }
    Ok(copies)
}
