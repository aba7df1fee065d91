// What each request does to the state, and outside the script.

ghost use Rattle.std.specs.Prelude.{◌≡◌, ◌++◌, List, []};
ghost use Rattle.px_bytes.specs.Host.{Effect};
ghost use Rattle.irule_net.specs.Answered.{CarriedOut};
ghost use Rattle.irule_net.specs.Steps.{collects, done, first_ending, holds_instead, releases};
ghost use Rattle.irule_net.specs.Steps.{replaces, reselects, responds};

use crate::faults::reselects_spent;
use crate::held::{asked_bytes, holds, replaced};
use crate::request::Request;
use crate::told::told;
use crate::{Asks, Effects, Ending, NetState, Target};
use px_bytes::{HostAnswer, Raise, Side, Text};
use std::alloc::Global;

// The most bytes that the bodies of one event send by `TCP::respond`.
const RESPOND_LIMIT: usize = 1_114_112;

// The most selections that are asked for behind the first.
const RESELECT_LIMIT: u32 = 16;

/// Does what a request asks, in an event of this side.
pub(crate) fn carry_out(
    alloc: Global,
    state: &mut NetState,
    side: Side,
    request: Request,
    made: &mut Effects,
) -> Result<HostAnswer, Raise>
    ensures { CarriedOut (done side request state.old) result state.new
        (λ es. made.new ≡ made.old ++ es) }
{
    match request {
        Request::Gives(text) => Ok(HostAnswer::Value(text)),
        Request::Tells(tell) => Ok(HostAnswer::Value(told(alloc, state, side, tell)?)),
        Request::Asks(call) => Ok(HostAnswer::Ask(call)),
        Request::Logs(text) => {
            made.log(text)?;
            Ok(no_value(alloc))
        }
        Request::Chooses(target) => {
            state.target = target;
            Ok(no_value(alloc))
        }
        Request::Ends(ending) => {
            state.wishes.ends = first_ending(state.wishes.ends, ending);
            Ok(no_value(alloc))
        }
        Request::Collects(count) => collects(alloc, state, side, count),
        Request::Releases => releases(alloc, state, side, made),
        Request::Responds(text) => responds(alloc, state, side, text, made),
        Request::Replaces(offset, count, text) => {
            replaces(alloc, state, side, offset, count, text)
        }
        Request::Reselects => reselects(alloc, state),
        Request::ReselectsFrom(target) => reselects_from(alloc, state, target),
        Request::Detaches => {
            state.wishes.detaches = true;
            Ok(no_value(alloc))
        }
    }
}

fn no_value(alloc: Global) -> HostAnswer
    ensures { result ≡ HostAnswer.Value [] }
{
    HostAnswer::Value(Text::empty(alloc))
}

// The first command that ends the connection says how.
fn first_ending(before: Option<Ending>, ending: Ending) -> Option<Ending>
    ensures { result ≡ first_ending before ending }
{
    Some(before.unwrap_or(ending))
}

// `TCP::collect N`
fn collects(
    alloc: Global,
    state: &mut NetState,
    side: Side,
    count: usize,
) -> Result<HostAnswer, Raise>
    ensures { (ms : List Effect) → CarriedOut (collects side count state.old) result state.new
        (λ es. ms ≡ ms ++ es) }
{
    if count == 0 {
        return Ok(no_value(alloc));
    }
    if !holds(state.held(side).len(), state.gone(side), count) {
        return Raise::too_long(alloc);
    }
    state.set_asks(side, Asks::Stated(count));
    Ok(no_value(alloc))
}

// `TCP::release`. More bytes than a number counts are refused memory.
fn releases(
    alloc: Global,
    state: &mut NetState,
    side: Side,
    made: &mut Effects,
) -> Result<HostAnswer, Raise>
    ensures { CarriedOut (releases side state.old) result state.new
        (λ es. made.new ≡ made.old ++ es) }
{
    let Some(let_go) = state.wishes.let_go.checked_add(state.held(side).len()) else {
        return Err(Raise::Memory);
    };
    let held = state.take_held(alloc, side);
    state.wishes.let_go = let_go;
    state.wishes.released = true;
    match side {
        Side::Server => made.send(Side::Client, held)?,
        Side::Client if state.relays => made.send(Side::Server, held)?,
        Side::Client => state.loose.push(held.as_bytes())?,
    }
    Ok(no_value(alloc))
}

// `TCP::respond TEXT`
fn responds(
    alloc: Global,
    state: &mut NetState,
    side: Side,
    text: Text,
    made: &mut Effects,
) -> Result<HostAnswer, Raise>
    ensures { CarriedOut (responds side text state.old) result state.new
        (λ es. made.new ≡ made.old ++ es) }
{
    let length = text.len();
    if length > RESPOND_LIMIT || state.wishes.sent > RESPOND_LIMIT - length {
        return Raise::too_long(alloc);
    }
    made.send(side, text)?;
    state.wishes.sent += length;
    Ok(no_value(alloc))
}

// `TCP::payload replace OFFSET LENGTH TEXT`
fn replaces(
    alloc: Global,
    state: &mut NetState,
    side: Side,
    offset: usize,
    count: usize,
    text: Text,
) -> Result<HostAnswer, Raise>
    ensures { (ms : List Effect) → CarriedOut (replaces side offset count text state.old) result
        state.new (λ es. ms ≡ ms ++ es) }
{
    let held = replaced(alloc, offset, count, &text, state.held(side).as_bytes())?;
    holds_instead(alloc, state, side, held)
}

fn holds_instead(
    alloc: Global,
    state: &mut NetState,
    side: Side,
    held: Text,
) -> Result<HostAnswer, Raise>
    ensures { (ms : List Effect) → CarriedOut (holds_instead side held state.old) result state.new
        (λ es. ms ≡ ms ++ es) }
{
    if !holds(held.len(), state.gone(side), asked_bytes(state.asks(side))) {
        return Raise::too_long(alloc);
    }
    state.set_held(side, held);
    Ok(no_value(alloc))
}

// `LB::reselect`, by the present choice
fn reselects(alloc: Global, state: &mut NetState) -> Result<HostAnswer, Raise>
    ensures { (ms : List Effect) → CarriedOut (reselects state.old.target state.old) result
        state.new (λ es. ms ≡ ms ++ es) }
{
    if state.reselects >= RESELECT_LIMIT {
        return Err(Raise::Fault(reselects_spent(alloc)?));
    }
    state.reselects += 1;
    state.wishes.reselects = true;
    Ok(no_value(alloc))
}

// `LB::reselect`, by this choice
fn reselects_from(alloc: Global, state: &mut NetState, target: Target) -> Result<HostAnswer, Raise>
    ensures { (ms : List Effect) → CarriedOut (reselects target state.old) result state.new
        (λ es. ms ≡ ms ++ es) }
{
    if state.reselects >= RESELECT_LIMIT {
        return Err(Raise::Fault(reselects_spent(alloc)?));
    }
    state.target = target;
    state.reselects += 1;
    state.wishes.reselects = true;
    Ok(no_value(alloc))
}
