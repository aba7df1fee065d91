// Virtual servers.

ghost use Rattle.std.specs.Prelude.{◌≡◌, IfOk};
ghost use Rattle.tmsh_text.specs.Printed.{http_item, named_rules, persist_item, pool_item};
ghost use Rattle.tmsh_text.specs.Printed.{rules_item, server_text, server_items, servers_text};

use crate::items::{item, joined, number_item, stanza};
use config::VirtualSettings;
use px_bytes::{M, Text, print_addr};
use run_config::Persist;
use std::alloc::Global;

fn http_item(http: bool) -> &'static [u8]
    ensures { result.now ≡ http_item http }
{
    if http {
        b"    profiles { http }\n"
    } else {
        b""
    }
}

fn pool_item(alloc: Global, pool: &Option<Text>) -> M<Text>
    ensures { IfOk result (λ text. text ≡ pool_item pool.now) }
{
    match pool {
        Some(name) => item(alloc, b"pool", name.as_bytes()),
        None => Ok(Text::empty(alloc)),
    }
}

fn persist_item(persist: Persist) -> &'static [u8]
    ensures { result.now ≡ persist_item persist }
{
    match persist {
        Persist::None => b"",
        Persist::SourceAddr => b"    persist source_addr\n",
        Persist::Cookie => b"    persist cookie\n",
    }
}

// The names, each behind a blank.
fn named_rules(alloc: Global, names: &[Text]) -> M<Text>
    ensures { IfOk result (λ text. text ≡ named_rules names.now) }
{
    let mut text = Text::empty(alloc);
    for name in names {
        let word = joined(alloc, &[b" ", name.as_bytes()])?;
        text.push(word.as_bytes())?;
    }
    Ok(text)
}

fn rules_item(alloc: Global, names: &[Text]) -> M<Text>
    ensures { IfOk result (λ text. text ≡ rules_item names.now) }
{
    if names.is_empty() {
        return Ok(Text::empty(alloc));
    }
    let words = named_rules(alloc, names)?;
    joined(alloc, &[b"    rules {", words.as_bytes(), b" }\n"])
}

fn server_items(alloc: Global, server: &VirtualSettings) -> M<Text>
    ensures { IfOk result (λ text. text ≡ server_items server.now) }
{
    let addr = print_addr(alloc, server.listen)?;
    let destination = item(alloc, b"destination", addr.as_bytes())?;
    let pool = pool_item(alloc, &server.pool)?;
    let timeout = number_item(alloc, b"persist-timeout", 180, server.persist_timeout)?;
    let rules = rules_item(alloc, server.rules.as_slice())?;
    joined(
        alloc,
        &[
            destination.as_bytes(),
            http_item(server.http),
            pool.as_bytes(),
            persist_item(server.persist),
            timeout.as_bytes(),
            rules.as_bytes(),
        ],
    )
}

fn server(alloc: Global, server: &VirtualSettings) -> M<Text>
    ensures { IfOk result (λ text. text ≡ server_text server.now) }
{
    let items = server_items(alloc, server)?;
    stanza(
        alloc,
        b"ltm virtual ",
        server.name.as_bytes(),
        items.as_bytes(),
    )
}

/// Virtual servers in their order.
pub(crate) fn servers(alloc: Global, servers: &[VirtualSettings]) -> M<Text>
    ensures { IfOk result (λ text. text ≡ servers_text servers.now) }
{
    let mut text = Text::empty(alloc);
    for one in servers {
        let stanza = server(alloc, one)?;
        text.push(stanza.as_bytes())?;
    }
    Ok(text)
}
