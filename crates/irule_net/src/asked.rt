// What the words of each form ask.

ghost use Rattle.std.specs.Prelude.{◌≡◌, [], ◌∷◌, IfOk};
ghost use Rattle.px_bytes.specs.Gives.{Gives};
ghost use Rattle.irule_net.specs.Requests.{after_asked, class_asked, collect_asked, count_in};
ghost use Rattle.irule_net.specs.Requests.{log_asked};
ghost use Rattle.irule_net.specs.Requests.{members_asked, node_asked, part_asked, pool_asked};
ghost use Rattle.irule_net.specs.Requests.{replace_asked, request_of, reselect_node_asked};
ghost use Rattle.irule_net.specs.Requests.{reselect_pool_asked, respond_asked, table_asked};

use crate::classes::class_value;
use crate::form::Form;
use crate::groups::{NamedGroup, PoolMembers};
use crate::request::{Request, Tell};
use crate::targets::{node_target, pool_named, pool_target};
use crate::{Ending, Groups, Target};
use px_bytes::{M, Raise, TEXT_LIMIT, TclFault, Text, Texts, number};
use session_table::check_words;
use std::alloc::Global;

/// What the words behind a command ask in this form, by the groups and pools of the configuration
/// and the virtual server's port.
pub(crate) fn request_of(
    alloc: Global,
    groups: &Groups,
    port: u16,
    form: Form,
    words: &[Text],
) -> Result<Request, Raise>
    ensures { Gives result (request_of groups.now port form words.now) }
{
    let classes = groups.classes.as_slice();
    let pools = groups.pools.as_slice();
    match form {
        Form::Log => log_asked(alloc, words),
        Form::Match | Form::Search | Form::Lookup | Form::Exists | Form::Size | Form::Names =>
            class_asked(alloc, classes, form, words),
        Form::Table => table_asked(alloc, words),
        Form::After => after_asked(alloc, words),
        Form::ActiveMembers => members_asked(alloc, pools, words),
        Form::Seconds => Ok(Request::Asks(call_of_two(alloc, b"clock", b"seconds")?)),
        Form::ClientAddr => Ok(Request::Tells(Tell::ClientAddr)),
        Form::ClientPort => Ok(Request::Tells(Tell::ClientPort)),
        Form::ServerAddr | Form::SelectedAddr => Ok(Request::Tells(Tell::ServerAddr)),
        Form::SelectedPool => Ok(Request::Tells(Tell::SelectedPool)),
        Form::SelectedPort => Ok(Request::Tells(Tell::SelectedPort)),
        Form::Pool => pool_asked(alloc, pools, port, words),
        Form::Node => node_asked(alloc, port, words),
        Form::Reject => Ok(Request::Ends(Ending::Rejects)),
        Form::Close => Ok(Request::Ends(Ending::Closes)),
        Form::Collect => collect_asked(alloc, words),
        Form::Release => Ok(Request::Releases),
        Form::Respond => respond_asked(alloc, words),
        Form::Payload => Ok(Request::Tells(Tell::Held)),
        Form::PayloadLength => Ok(Request::Tells(Tell::HeldLength)),
        Form::Replace => replace_asked(alloc, words),
        Form::Reselect => Ok(Request::Reselects),
        Form::ReselectPool => reselect_pool_asked(alloc, pools, words),
        Form::ReselectNode => reselect_node_asked(alloc, port, words),
        Form::Detach => Ok(Request::Detaches),
    }
}

// `log [FACILITY] TEXT`
fn log_asked(alloc: Global, words: &[Text]) -> Result<Request, Raise>
    ensures { Gives result (log_asked words.now) }
{
    match words {
        [text] | [_, text] => Ok(Request::Logs(text.copy()?)),
        _ => Raise::arity(alloc, b"log"),
    }
}

// `class`, where its value isn't too long.
fn class_asked(
    alloc: Global,
    classes: &[NamedGroup],
    form: Form,
    words: &[Text],
) -> Result<Request, Raise>
    ensures { Gives result (class_asked classes.now form words.now) }
{
    let text = class_value(alloc, classes, form, words)?;
    if text.len() > TEXT_LIMIT {
        return Raise::too_long(alloc);
    }
    Ok(Request::Gives(text))
}

fn table_asked(alloc: Global, words: &[Text]) -> Result<Request, Raise>
    ensures { Gives result (table_asked words.now) }
{
    check_words(alloc, words)?;
    Ok(Request::Asks(call_of(alloc, b"table", words)?))
}

// `after MS`
fn after_asked(alloc: Global, words: &[Text]) -> Result<Request, Raise>
    ensures { Gives result (after_asked words.now) }
{
    let [word] = words else {
        return Raise::arity(alloc, b"after");
    };
    let _ = count_in(alloc, number(alloc, word.as_bytes())?)?;
    Ok(Request::Asks(call_of_two(alloc, b"after", word.as_bytes())?))
}

// `active_members POOL`
fn members_asked(alloc: Global, pools: &[PoolMembers], words: &[Text]) -> Result<Request, Raise>
    ensures { Gives result (members_asked pools.now words.now) }
{
    let [name] = words else {
        return Raise::arity(alloc, b"active_members");
    };
    pool_named(alloc, pools, name)?;
    let call = call_of_two(alloc, b"active_members", name.as_bytes())?;
    Ok(Request::Asks(call))
}

fn pool_asked(
    alloc: Global,
    pools: &[PoolMembers],
    port: u16,
    words: &[Text],
) -> Result<Request, Raise>
    ensures { Gives result (pool_asked pools.now port words.now) }
{
    Ok(Request::Chooses(pool_target(alloc, pools, port, words)?))
}

fn node_asked(alloc: Global, port: u16, words: &[Text]) -> Result<Request, Raise>
    ensures { Gives result (node_asked port words.now) }
{
    Ok(Request::Chooses(node_target(alloc, b"node", port, words)?))
}

// `TCP::collect N`
fn collect_asked(alloc: Global, words: &[Text]) -> Result<Request, Raise>
    ensures { Gives result (collect_asked words.now) }
{
    let [word] = words else {
        return Raise::arity(alloc, b"TCP::collect");
    };
    let count = count_in(alloc, number(alloc, word.as_bytes())?)?;
    Ok(Request::Collects(count))
}

// `TCP::respond TEXT`
fn respond_asked(alloc: Global, words: &[Text]) -> Result<Request, Raise>
    ensures { Gives result (respond_asked words.now) }
{
    match words {
        [text] => Ok(Request::Responds(text.copy()?)),
        _ => Raise::arity(alloc, b"TCP::respond"),
    }
}

// `TCP::payload replace OFFSET LENGTH TEXT`
fn replace_asked(alloc: Global, words: &[Text]) -> Result<Request, Raise>
    ensures { Gives result (replace_asked words.now) }
{
    match words {
        [_, offset, count, text] => part_asked(alloc, offset, count, text),
        _ => Raise::arity(alloc, b"TCP::payload"),
    }
}

fn part_asked(alloc: Global, first: &Text, second: &Text, text: &Text) -> Result<Request, Raise>
    ensures { Gives result (part_asked first.now second.now text.now) }
{
    let first = number(alloc, first.as_bytes())?;
    let second = number(alloc, second.as_bytes())?;
    let offset = count_in(alloc, first)?;
    let count = count_in(alloc, second)?;
    Ok(Request::Replaces(offset, count, text.copy()?))
}

// `LB::reselect pool NAME`
fn reselect_pool_asked(
    alloc: Global,
    pools: &[PoolMembers],
    words: &[Text],
) -> Result<Request, Raise>
    ensures { Gives result (reselect_pool_asked pools.now words.now) }
{
    let [_, name] = words else {
        return Raise::arity(alloc, b"LB::reselect");
    };
    pool_named(alloc, pools, name)?;
    Ok(Request::ReselectsFrom(Target::PoolOf(name.copy()?)))
}

// `LB::reselect node ADDR [PORT]`
fn reselect_node_asked(alloc: Global, port: u16, words: &[Text]) -> Result<Request, Raise>
    ensures { Gives result (reselect_node_asked port words.now) }
{
    let [_, words @ ..] = words else {
        return Raise::arity(alloc, b"LB::reselect");
    };
    let target = node_target(alloc, b"LB::reselect", port, words)?;
    Ok(Request::ReselectsFrom(target))
}

fn count_in(alloc: Global, number: i64) -> Result<usize, Raise>
    ensures { Gives result (count_in number) }
{
    match usize::try_from(number) {
        Ok(count) => Ok(count),
        Err(_) => Err(Raise::Fault(TclFault::out_of_range(alloc)?)),
    }
}

// A shared call: the command and the words behind it.
fn call_of(alloc: Global, command: &[u8], words: &[Text]) -> M<Texts>
    ensures { IfOk result (λ call. call ≡ command.now ∷ words.now) }
{
    let mut call = Texts::new(alloc);
    call.push(Text::new(alloc, command)?)?;
    for word in words {
        call.push(word.copy()?)?;
    }
    Ok(call)
}

fn call_of_two(alloc: Global, command: &[u8], word: &[u8]) -> M<Texts>
    ensures { IfOk result (λ call. call ≡ command.now ∷ (word.now ∷ [])) }
{
    let mut call = Texts::new(alloc);
    call.push(Text::new(alloc, command)?)?;
    call.push(Text::new(alloc, word)?)?;
    Ok(call)
}
