// Data groups.

ghost use Rattle.std.specs.Prelude.{◌≡◌, IfOk};
ghost use Rattle.tmsh_text.specs.Printed.{data_item, group_text, group_items, groups_text, kind_item};
ghost use Rattle.tmsh_text.specs.Printed.{data_record, records, records_item};

use crate::items::{joined, stanza};
use crate::words::word;
use config::GroupSettings;
use data_groups::GroupKind;
use px_bytes::{M, Text};
use std::alloc::Global;

fn kind_item(kind: GroupKind) -> &'static [u8]
    ensures { result.now ≡ kind_item kind }
{
    match kind {
        GroupKind::String => b"    type string\n",
        GroupKind::Ip => b"    type ip\n",
        GroupKind::Integer => b"    type integer\n",
    }
}

fn data_item(alloc: Global, value: &[u8]) -> M<Text>
    ensures { IfOk result (λ text. text ≡ data_item value.now) }
{
    if value.is_empty() {
        return Ok(Text::empty(alloc));
    }
    let data = word(alloc, value)?;
    joined(alloc, &[b" data ", data.as_bytes()])
}

fn data_record(alloc: Global, row: &(Text, Text)) -> M<Text>
    ensures { IfOk result (λ text. text ≡ data_record row.now) }
{
    let key = word(alloc, row.0.as_bytes())?;
    let data = data_item(alloc, row.1.as_bytes())?;
    joined(
        alloc,
        &[b"        ", key.as_bytes(), b" {", data.as_bytes(), b" }\n"],
    )
}

fn records(alloc: Global, rows: &[(Text, Text)]) -> M<Text>
    ensures { IfOk result (λ text. text ≡ records rows.now) }
{
    let mut text = Text::empty(alloc);
    for row in rows {
        let line = data_record(alloc, row)?;
        text.push(line.as_bytes())?;
    }
    Ok(text)
}

fn records_item(alloc: Global, rows: &[(Text, Text)]) -> M<Text>
    ensures { IfOk result (λ text. text ≡ records_item rows.now) }
{
    if rows.is_empty() {
        return Ok(Text::empty(alloc));
    }
    let lines = records(alloc, rows)?;
    joined(alloc, &[b"    records {\n", lines.as_bytes(), b"    }\n"])
}

fn group_items(alloc: Global, group: &GroupSettings) -> M<Text>
    ensures { IfOk result (λ text. text ≡ group_items group.now) }
{
    let records = records_item(alloc, group.rows.as_slice())?;
    joined(alloc, &[kind_item(group.kind), records.as_bytes()])
}

fn group(alloc: Global, group: &GroupSettings) -> M<Text>
    ensures { IfOk result (λ text. text ≡ group_text group.now) }
{
    let items = group_items(alloc, group)?;
    stanza(
        alloc,
        b"ltm data-group internal ",
        group.name.as_bytes(),
        items.as_bytes(),
    )
}

/// Data groups in their order.
pub(crate) fn groups(alloc: Global, groups: &[GroupSettings]) -> M<Text>
    ensures { IfOk result (λ text. text ≡ groups_text groups.now) }
{
    let mut text = Text::empty(alloc);
    for one in groups {
        let stanza = group(alloc, one)?;
        text.push(stanza.as_bytes())?;
    }
    Ok(text)
}
