// The command that writes a configuration in version 2.

ghost use Rattle.proxy.specs.Migrating.{MigratesFile};

use crate::end::End;
use crate::mirror_command::tell_made;
use crate::offline_commands::refuse;
use config::migrated;
use px_outside::{Files, Sink};
use std::alloc::Global;
use toml_text::table_text;

/// Writes the document of a configuration that loads in version 2, or says why it doesn't load.
pub fn migrate<F: Files, K: Sink>(alloc: Global, name: &[u8], files: &mut F, out: &mut K) -> End
    ensures { MigratesFile name.now (F.told files.old) (K.written out.old) (K.written out.new)
        (F.faults files.old) (F.faults files.new) (K.faults out.old) (K.faults out.new) result }
{
    match migrated(alloc, files, name) {
        Ok(table) => tell_made(End::Done, table_text(alloc, &table), out),
        Err(why) => refuse(alloc, why, out),
    }
}
