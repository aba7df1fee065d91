// The parameters of a procedure.

ghost use Rattle.std.specs.Prelude.{◌≡◌, IfOk, map, option_map};
ghost use Rattle.rule_loader.specs.Parameters.{elements_of, parameter_named, parameter_of};
ghost use Rattle.rule_loader.specs.Parameters.{all_parameters, parameters_of, read_parameter};

use px_bytes::{M, Memory, Text, Texts};
use std::alloc::Global;
use tcl_lists::{ListFault, split};
use tcl_trees::Parameter;

// The elements of a list.
fn elements(alloc: Global, text: &[u8]) -> M<Option<Texts>>
    ensures { IfOk result (λ found. found ≡ elements_of text.now) }
{
    match split(alloc, text) {
        Ok(texts) => Ok(Some(texts)),
        Err(ListFault::Memory) => Err(Memory),
        Err(_) => Ok(None),
    }
}

// The parameter of a name.
fn parameter_named(name: &Text, default: Option<Text>) -> M<Option<Parameter>>
    ensures { IfOk result (λ found. found ≡ parameter_named name.now default) }
{
    if name.as_bytes().is_empty() {
        return Ok(None);
    }
    let name = name.copy()?;
    Ok(Some(Parameter { name, default }))
}

// The parameter of a name and perhaps a default.
fn parameter_of(elements: &[Text]) -> M<Option<Parameter>>
    ensures { IfOk result (λ found. found ≡ parameter_of elements.now) }
{
    match elements {
        [name] => parameter_named(name, None),
        [name, default] => parameter_named(name, Some(default.copy()?)),
        _ => Ok(None),
    }
}

// The parameter that a text is.
fn read_parameter(alloc: Global, text: &[u8]) -> M<Option<Parameter>>
    ensures { IfOk result (λ found. found ≡ read_parameter text.now) }
{
    match elements(alloc, text)? {
        Some(texts) => parameter_of(texts.as_slice()),
        None => Ok(None),
    }
}

// The parameters that texts are.
fn all_parameters(alloc: Global, texts: &[Text]) -> M<Option<Vec<Parameter>>>
    ensures { IfOk result (λ found. option_map (λ v. v.items) found ≡ all_parameters texts.now) }
{
    let mut parameters = Vec::new(alloc);
    for text in texts {
        let Some(parameter) = read_parameter(alloc, text.as_bytes())? else {
            return Ok(None);
        };
        parameters.push(parameter)?;
    }
    Ok(Some(parameters))
}

/// The parameters that the elements of a list are: each a name, and perhaps a default.
pub(crate) fn parameters_of(alloc: Global, text: &[u8]) -> M<Option<Vec<Parameter>>>
    ensures { IfOk result (λ found. option_map (λ v. v.items) found ≡ parameters_of text.now) }
{
    match elements(alloc, text)? {
        Some(texts) => all_parameters(alloc, texts.as_slice()),
        None => Ok(None),
    }
}
