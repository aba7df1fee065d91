// What is told of the state.

ghost use Rattle.std.specs.Prelude.{◌≡◌, IfOk};
ghost use Rattle.std.specs.Fmt.{decimal};
ghost use Rattle.irule_net.specs.Steps.{pool_text, port_text, server_text, target_pool, told};

use crate::request::Tell;
use crate::{NetState, Selected, Target};
use px_bytes::{M, Side, Text, print_ip};
use std::alloc::Global;

/// What is told of the state, in an event of this side.
pub(crate) fn told(alloc: Global, state: &NetState, side: Side, tell: Tell) -> M<Text>
    ensures { IfOk result (λ text. text ≡ told tell side state.now) }
{
    match tell {
        Tell::ClientAddr => print_ip(alloc, state.from.ip),
        Tell::ClientPort => number_text(alloc, usize::from(state.from.port)),
        Tell::ServerAddr => server_text(alloc, &state.selected),
        Tell::SelectedPool => pool_text(alloc, state),
        Tell::SelectedPort => port_text(alloc, &state.selected),
        Tell::Held => state.held(side).copy(),
        Tell::HeldLength => number_text(alloc, state.held(side).len()),
    }
}

// Before a selection there is no address.
fn server_text(alloc: Global, selected: &Option<Selected>) -> M<Text>
    ensures { IfOk result (λ text. text ≡ server_text selected.now) }
{
    match selected {
        Some(selected) => print_ip(alloc, selected.addr.ip),
        None => Ok(Text::empty(alloc)),
    }
}

fn port_text(alloc: Global, selected: &Option<Selected>) -> M<Text>
    ensures { IfOk result (λ text. text ≡ port_text selected.now) }
{
    match selected {
        Some(selected) => number_text(alloc, usize::from(selected.addr.port)),
        None => Ok(Text::empty(alloc)),
    }
}

// Before a selection it is the pool of the choice.
fn pool_text(alloc: Global, state: &NetState) -> M<Text>
    ensures { IfOk result (λ text. text ≡ pool_text state.now state.now.selected) }
{
    match &state.selected {
        Some(selected) => selected.pool.copy(),
        None => target_pool(alloc, &state.pool, &state.target),
    }
}

// The pool that was chosen, else the default one; none for a node.
fn target_pool(alloc: Global, pool: &Text, target: &Target) -> M<Text>
    ensures { IfOk result (λ text. text ≡ target_pool pool.now target.now) }
{
    match target {
        Target::Default => pool.copy(),
        Target::PoolOf(name) | Target::MemberOf(name, _) => name.copy(),
        Target::NodeAt(_) => Ok(Text::empty(alloc)),
    }
}

fn number_text(alloc: Global, number: usize) -> M<Text>
    ensures { IfOk result (λ text. text ≡ decimal number) }
{
    Ok(Text::from_vec(format!(in alloc; "{number}")?.into_bytes()))
}
