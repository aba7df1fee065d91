// The rows of a `foreach`.

ghost use Rattle.std.specs.Prelude.{drop, length, map, option_map, ◌*◌, ◌≡◌};
ghost use Rattle.px_bytes.specs.Gives.{Gives};
ghost use Rattle.tcl_lists.specs.Read.{list_values};
ghost use Rattle.tcl_var_commands.specs.Changed.{Does};
ghost use Rattle.rule_model.specs.Control.{most_turns, row_of, row_turns, rows_of, turn_assigned};
ghost use Rattle.rule_nodes.specs.GivesAs.{GivesAs};
ghost use Rattle.rule_nodes.specs.Rows.{IsSyntax, if_some, list_read, row_view, rows_view};

use px_bytes::{Raise, TclFault, Text, Texts};
use std::alloc::Global;
use tcl_lists::{ListFault, split};
use tcl_var_commands::assign_row;
use tcl_vars::Vars;

/// The names that a `foreach` sets from a list, and the list.
#[derive(Drop)]
pub struct Row {
    pub names: Texts,
    pub values: Texts,
}

/// The rows whose names and lists these words are, in turn.
pub fn rows_of(alloc: Global, words: &Texts) -> Result<Vec<Row>, Raise>
    ensures { GivesAs rows_view result (if_some (rows_of words.now)) }
{
    let mut rows = Vec::new(alloc);
    let mut rest = words.as_slice();
    while let [names, list, behind @ ..] = rest {
        let next = row_of(alloc, names, list)?;
        rows.push(next)?;
        rest = behind;
    }
    if !rest.is_empty() {
        return Err(syntax(alloc));
    }
    Ok(rows)
}

fn syntax(alloc: Global) -> Raise
    ensures { IsSyntax result }
{
    match TclFault::syntax_error(alloc, b"foreach") {
        Ok(fault) => Raise::Fault(fault),
        Err(_) => Raise::Memory,
    }
}

fn row_of(alloc: Global, names: &Text, list: &Text) -> Result<Row, Raise>
    ensures { let row = row_of (list_values names.now) (list_values list.now) in
        GivesAs row_view result (if_some row) }
{
    let names = list_of(alloc, names)?;
    if names.len() == 0 {
        return Err(syntax(alloc));
    }
    let values = list_of(alloc, list)?;
    Ok(Row { names, values })
}

fn list_of(alloc: Global, text: &Text) -> Result<Texts, Raise>
    ensures { Gives result (list_read (list_values text.now)) }
{
    match split(alloc, text.as_bytes()) {
        Ok(values) => Ok(values),
        Err(ListFault::Memory) => Err(Raise::Memory),
        Err(_) => Err(syntax(alloc)),
    }
}

/// How many turns these rows last.
pub fn most_turns(rows: &[Row]) -> usize
    ensures { result ≡ most_turns (map row_view rows.now) }
{
    let mut most = 0;
    for each in rows {
        most = turns(each).max(most);
    }
    most
}

fn turns(each: &Row) -> usize
    ensures { result ≡ row_turns (row_view each.now) }
{
    match each.names.len() {
        0 => 0,
        names => each.values.len().div_ceil(names),
    }
}

/// Sets the variables of the turn of this number.
pub fn set_turn(
    alloc: Global,
    statics: Option<&Vars>,
    rows: &[Row],
    number: usize,
    vars: &mut Vars,
) -> Result<(), Raise>
    ensures { let level = option_map (λ v. v.now.statics) statics.entry in
        Does (turn_assigned level number (map row_view rows.now) vars.old) result vars.new }
{
    for each in rows {
        let names = each.names.as_slice();
        assign_row(alloc, statics, names, turn_values(each, number), vars)?;
    }
    Ok(())
}

// The values from those of the turn of this number on.
fn turn_values(each: &Row, number: usize) -> &[Text]
    ensures { result.now ≡ drop (number * length each.now.names) each.now.values }
{
    let start = number.saturating_mul(each.names.len());
    match each.values.as_slice().get(start..) {
        Some(values) => values,
        None => &[],
    }
}
