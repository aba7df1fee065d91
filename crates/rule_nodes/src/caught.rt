// What a `catch` gives.

ghost use Rattle.std.specs.Prelude.{Ok, option_map, ◌≡◌};
ghost use Rattle.px_bytes.specs.Gives.{Gives};
ghost use Rattle.tcl_var_commands.specs.Changed.{Changes};
ghost use Rattle.rule_model.specs.Control.{code_number, code_text, is_caught, number_changed};

use px_bytes::{FaultKind, Raise, Text};
use rule_model::Code;
use std::alloc::Global;
use tcl_var_commands::assign_named;
use tcl_vars::Vars;

/// Whether a `catch` takes a code: the fault of a missing unit goes through.
pub fn is_caught(code: &Code) -> bool
    ensures { result ≡ is_caught code.now }
{
    match code {
        Code::Raised(fault) => fault.kind != FaultKind::Budget,
        _ => true,
    }
}

/// The number of a code.
pub fn code_number(alloc: Global, code: &Code) -> Result<Text, Raise>
    ensures { Gives result (Ok (code_number code.now)) }
{
    let digit = match code {
        Code::Value(_) => b"0",
        Code::Raised(_) => b"1",
        Code::Return(_) => b"2",
        Code::Break => b"3",
        Code::Continue => b"4",
    };
    Ok(Text::new(alloc, digit)?)
}

/// The text of a code.
pub fn code_text(code: &Code) -> &[u8]
    ensures { result.now ≡ code_text code.now }
{
    match code {
        Code::Value(text) | Code::Return(text) => text.as_bytes(),
        Code::Raised(fault) => fault.text.as_bytes(),
        Code::Break | Code::Continue => b"",
    }
}

/// The number of a code, where the variable that is named gets its text.
pub fn catch_code(
    alloc: Global,
    statics: Option<&Vars>,
    name: &[u8],
    code: &Code,
    vars: &mut Vars,
) -> Result<Text, Raise>
    ensures { let level = option_map (λ v. v.now.statics) statics.entry in
        Changes (number_changed level name.now code.now vars.old) result vars.new }
{
    assign_named(alloc, statics, name, code_text(code), vars)?;
    code_number(alloc, code)
}
