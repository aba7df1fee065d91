// What the table of a virtual server configures.

ghost use Rattle.std.specs.Prelude.{◌≡◌, ◌++◌, IfOk, OnOk};
ghost use Rattle.toml.specs.View.{array_view, table_view, view};
ghost use Rattle.config.specs.Documents.{items_at};
ghost use Rattle.config.specs.Keys as key;
ghost use Rattle.config.specs.Settings.{each, persist_of, server_item, server_of, text_item};
ghost use Rattle.config.specs.Texts.{text_at};

use crate::config::VirtualSettings;
use crate::keys::{HTTP, LISTEN, NAME, PERSIST, PERSIST_TIMEOUT, POOL_NAME, RULES};
use crate::read::{addr_at, given, whole_at};
use crate::table::{array_at, text_at};
use crate::words::{chosen, truth_at};
use px_bytes::{M, Seq, Text, Texts};
use run_config::Persist;
use std::alloc::Global;
use toml::value::Array;
use toml::{Table, Value};

fn persist_of(word: Option<usize>) -> Persist
    ensures { result ≡ persist_of word }
{
    match word {
        Some(1) => Persist::SourceAddr,
        Some(2) => Persist::Cookie,
        _ => Persist::None,
    }
}

fn push_text(texts: &mut Texts, alloc: Global, value: &Value) -> M<()>
    ensures { OnOk result (texts.new ≡ texts.old ++ text_item (view value.now)) }
{
    match value.as_str() {
        Some(text) => texts.push(Text::new(alloc, text.as_bytes())?),
        None => Ok(()),
    }
}

// The texts of an array.
fn texts_of(alloc: Global, values: &Array) -> M<Texts>
    ensures { IfOk result (λ xs. xs ≡ each text_item (array_view values.now)) }
{
    let mut texts = Texts::new(alloc);
    for value in values {
        push_text(&mut texts, alloc, value)?;
    }
    Ok(texts)
}

fn rules_at(alloc: Global, table: &Table) -> M<Texts>
    ensures { IfOk result (λ xs.
        xs ≡ each text_item (items_at key.rule_names (table_view table.now))) }
{
    match array_at(table, RULES.name) {
        Some(values) => texts_of(alloc, values),
        None => Ok(Texts::new(alloc)),
    }
}

fn pool_at(alloc: Global, table: &Table) -> M<Option<Text>>
    ensures { IfOk result (λ pool. pool ≡ text_at key.pool_name.name (table_view table.now)) }
{
    match text_at(table, POOL_NAME.name) {
        Some(text) => Ok(Some(Text::new(alloc, text.as_bytes())?)),
        None => Ok(None),
    }
}

fn server_of(alloc: Global, table: &Table) -> M<VirtualSettings>
    ensures { IfOk result (λ server. server ≡ server_of (table_view table.now)) }
{
    Ok(VirtualSettings {
        name: given(alloc, &NAME, table)?,
        listen: addr_at(&LISTEN, table),
        http: truth_at(&HTTP, table),
        pool: pool_at(alloc, table)?,
        persist: persist_of(chosen(&PERSIST, table)),
        persist_timeout: whole_at(&PERSIST_TIMEOUT, table),
        rules: rules_at(alloc, table)?,
    })
}

fn push_server(servers: &mut Seq<VirtualSettings>, alloc: Global, value: &Value) -> M<()>
    ensures { OnOk result (servers.new ≡ servers.old ++ server_item (view value.now)) }
{
    match value.as_table() {
        Some(table) => servers.push(server_of(alloc, table)?),
        None => Ok(()),
    }
}

/// The virtual servers that the tables of an array configure.
pub(crate) fn servers_of(alloc: Global, values: &Array) -> M<Seq<VirtualSettings>>
    ensures { IfOk result (λ xs. xs ≡ each server_item (array_view values.now)) }
{
    let mut servers = Seq::new(alloc);
    for value in values {
        push_server(&mut servers, alloc, value)?;
    }
    Ok(servers)
}
