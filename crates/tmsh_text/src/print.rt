// Configurations in print.

ghost use Rattle.std.specs.Prelude.{◌≡◌, IfOk};
ghost use Rattle.tmsh_text.specs.Printed.{Prints, printed};

use crate::braces::{first_not_utf8, first_unbalanced};
use crate::fault::PrintFault;
use crate::groups::groups;
use crate::items::joined;
use crate::limits::limits;
use crate::pool_items::pools;
use crate::rules::rules;
use crate::servers::servers;
use config::LoadedConfig;
use px_bytes::{M, Text};
use std::alloc::Global;

fn printed(alloc: Global, config: &LoadedConfig) -> M<Text>
    ensures { IfOk result (λ text. text ≡ printed config.now) }
{
    let settings = &config.settings;
    let limits = limits(alloc, settings)?;
    let servers = servers(alloc, settings.virtuals.as_slice())?;
    let pools = pools(alloc, settings.pools.as_slice())?;
    let rules = rules(alloc, config.rules.as_slice())?;
    let groups = groups(alloc, settings.groups.as_slice())?;
    joined(
        alloc,
        &[
            limits.as_bytes(),
            servers.as_bytes(),
            pools.as_bytes(),
            rules.as_bytes(),
            groups.as_bytes(),
        ],
    )
}

/// The text of a configuration, unless a rule's text can't stand in it.
pub fn print_tmsh(alloc: Global, config: &LoadedConfig) -> Result<Text, PrintFault>
    ensures { Prints config.now result }
{
    if let Some(at) = first_unbalanced(config.rules.as_slice()) {
        return Err(PrintFault::Unbalanced(at));
    }
    if let Some(at) = first_not_utf8(config.rules.as_slice()) {
        return Err(PrintFault::NotUtf8(at));
    }
    Ok(printed(alloc, config)?)
}
