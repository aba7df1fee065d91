// Pools.

ghost use Rattle.std.specs.Prelude.{◌≡◌, IfOk};
ghost use Rattle.tmsh_text.specs.Printed.{member_line, member_lines, members_item, mode_item, pool_text};
ghost use Rattle.tmsh_text.specs.Printed.{pool_items, pools_text};

use crate::items::{joined, number_item, short_item, stanza};
use config::PoolSettings;
use pools::{Member, Method};
use px_bytes::{M, Text, print_addr};
use std::alloc::Global;

fn mode_item(method: Method) -> &'static [u8]
    ensures { result.now ≡ mode_item method }
{
    match method {
        Method::RoundRobin => b"",
        Method::Ratio => b"    load-balancing-mode ratio-member\n",
    }
}

fn member(alloc: Global, member: &Member) -> M<Text>
    ensures { IfOk result (λ text. text ≡ member_line member.now) }
{
    let addr = print_addr(alloc, member.addr)?;
    let ratio = short_item(alloc, b"ratio", 1, u32::from(member.ratio))?;
    let priority = short_item(alloc, b"priority-group", 0, u32::from(member.priority))?;
    joined(
        alloc,
        &[
            b"        ",
            addr.as_bytes(),
            b" {",
            ratio.as_bytes(),
            priority.as_bytes(),
            b" }\n",
        ],
    )
}

fn members(alloc: Global, members: &[Member]) -> M<Text>
    ensures { IfOk result (λ text. text ≡ member_lines members.now) }
{
    let mut text = Text::empty(alloc);
    for one in members {
        let line = member(alloc, one)?;
        text.push(line.as_bytes())?;
    }
    Ok(text)
}

fn members_item(alloc: Global, list: &[Member]) -> M<Text>
    ensures { IfOk result (λ text. text ≡ members_item list.now) }
{
    if list.is_empty() {
        return Ok(Text::empty(alloc));
    }
    let lines = members(alloc, list)?;
    joined(alloc, &[b"    members {\n", lines.as_bytes(), b"    }\n"])
}

fn pool_items(alloc: Global, pool: &PoolSettings) -> M<Text>
    ensures { IfOk result (λ text. text ≡ pool_items pool.now) }
{
    let active = number_item(alloc, b"min-active-members", 0, pool.min_active)?;
    let members = members_item(alloc, pool.members.as_slice())?;
    joined(
        alloc,
        &[
            mode_item(pool.method),
            active.as_bytes(),
            members.as_bytes(),
        ],
    )
}

fn pool(alloc: Global, pool: &PoolSettings) -> M<Text>
    ensures { IfOk result (λ text. text ≡ pool_text pool.now) }
{
    let items = pool_items(alloc, pool)?;
    stanza(alloc, b"ltm pool ", pool.name.as_bytes(), items.as_bytes())
}

/// Pools in their order.
pub(crate) fn pools(alloc: Global, pools: &[PoolSettings]) -> M<Text>
    ensures { IfOk result (λ text. text ≡ pools_text pools.now) }
{
    let mut text = Text::empty(alloc);
    for one in pools {
        let stanza = pool(alloc, one)?;
        text.push(stanza.as_bytes())?;
    }
    Ok(text)
}
