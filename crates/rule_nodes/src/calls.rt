// What the call of a procedure needs before and after its body.

ghost use Rattle.std.specs.Prelude.{IfOk, map, option_map, ◌≡◌};
ghost use Rattle.tcl_trees.specs.Procedures.{procedure_view, procs_view};
ghost use Rattle.tcl_var_commands.specs.Assigning.{row_assigned};
ghost use Rattle.tcl_var_commands.specs.Changed.{Does};
ghost use Rattle.rule_model.specs.Commands.{bound_of, code_left, too_deep};
ghost use Rattle.rule_nodes.specs.Calls.{call_view};
ghost use Rattle.rule_nodes.specs.GivesAs.{GivesAs};

use px_bytes::{FaultKind, M, Raise, TclFault, Text, Texts};
use rule_model::Code;
use std::alloc::Global;
use tcl_trees::{Parameter, Proc, Procs, bound_values};
use tcl_var_commands::assign_row;
use tcl_vars::Vars;

/// A procedure, and the values of its parameters.
#[derive(Drop)]
pub struct Call<'a> {
    pub procedure: &'a Proc,
    pub values: Texts,
}

/// As many calls, or expressions that are read when they run, stand inside one another as may.
pub fn too_deep(alloc: Global) -> M<TclFault>
    ensures { IfOk result (λ f. f ≡ too_deep) }
{
    Ok(TclFault {
        kind: FaultKind::TooDeep,
        text: Text::new(alloc, b"too many nested calls")?,
    })
}

/// The procedure that the words of a `call` name, with its values.
pub fn bound<'a>(alloc: Global, procs: &'a Procs, words: &Texts) -> Result<Call<'a>, Raise>
    ensures { GivesAs call_view result (bound_of (procs_view procs.now) words.now) }
{
    let [_, name, arguments @ ..] = words.as_slice() else {
        return Err(Raise::Fault(TclFault::wrong_arity(alloc, b"call")?));
    };
    let Some(procedure) = procs.get(name.as_bytes()) else {
        return Err(Raise::Fault(TclFault::no_command(alloc, name.as_bytes())?));
    };
    match bound_values(alloc, &procedure.parameters, arguments)? {
        Some(values) => Ok(Call { procedure, values }),
        None => {
            let name = procedure.name.as_bytes();
            Err(Raise::Fault(TclFault::wrong_arity(alloc, name)?))
        }
    }
}

/// Sets the parameters of a call to their values.
pub fn set_parameters(
    alloc: Global,
    statics: Option<&Vars>,
    call: &Call<'_>,
    vars: &mut Vars,
) -> Result<(), Raise>
    ensures { let level = option_map (λ v. v.now.statics) statics.entry in
        let p = procedure_view call.now.procedure.now in
        let names = map (λ q. q.name) p.parameters in
        Does (row_assigned level names call.now.values vars.old) result vars.new }
{
    let names = names_of(alloc, &call.procedure.parameters)?;
    let values = call.values.as_slice();
    assign_row(alloc, statics, names.as_slice(), values, vars)
}

fn names_of(alloc: Global, parameters: &[Parameter]) -> M<Texts>
    ensures { IfOk result (λ names. names ≡ map (λ q. q.name) parameters.now) }
{
    let mut names = Texts::new(alloc);
    for parameter in parameters {
        names.push(parameter.name.copy()?)?;
    }
    Ok(names)
}

/// The code of a call whose body ended with this one.
pub fn code_left(alloc: Global, code: Code) -> M<Code>
    ensures { IfOk result (λ c. c ≡ code_left code) }
{
    Ok(match code {
        Code::Return(value) => Code::Value(value),
        Code::Break => Code::Raised(TclFault::outside_loop(alloc, b"break")?),
        Code::Continue => Code::Raised(TclFault::outside_loop(alloc, b"continue")?),
        code => code,
    })
}
