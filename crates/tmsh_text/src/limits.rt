// The limits of a configuration.

ghost use Rattle.std.specs.Prelude.{◌≡◌, IfOk};
ghost use Rattle.tmsh_text.specs.Printed.{limit_items, limits};

use crate::items::{joined, number_item, stanza};
use config::Settings;
use px_bytes::{M, Text};
use std::alloc::Global;

fn limit_items(alloc: Global, settings: &Settings) -> M<Text>
    ensures { IfOk result (λ text. text ≡ limit_items settings.now) }
{
    let budget = number_item(alloc, b"budget", 100_000, settings.budget)?;
    let connections = number_item(alloc, b"connections", 512, settings.connections)?;
    let idle = number_item(alloc, b"idle", 300, settings.idle)?;
    let rows = number_item(alloc, b"rows", 65_536, settings.rows)?;
    joined(
        alloc,
        &[
            budget.as_bytes(),
            connections.as_bytes(),
            idle.as_bytes(),
            rows.as_bytes(),
        ],
    )
}

/// The limits, unless all are the usual ones.
pub(crate) fn limits(alloc: Global, settings: &Settings) -> M<Text>
    ensures { IfOk result (λ text. text ≡ limits settings.now) }
{
    let items = limit_items(alloc, settings)?;
    if items.len() == 0 {
        return Ok(items);
    }
    stanza(alloc, b"sys limits", b"", items.as_bytes())
}
