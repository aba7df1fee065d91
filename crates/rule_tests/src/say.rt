// Texts are said.

ghost use Rattle.std.specs.Prelude.{◌≡◌, IfErr, OnOk};
ghost use Rattle.px_outside.specs.Outside.{told_more};
ghost use Rattle.tested_runs.specs.Sources.{TellsNoFile};

use px_outside::{Failed, Sink, write_all};
use tested_runs::TestStop;

/// Says a text.
pub(crate) fn say<K: Sink>(out: &mut K, text: &[u8]) -> Result<(), TestStop>
    ensures written { OnOk result (K.written out.new ≡ told_more (K.written out.old) text.now) }
    ensures fault { IfErr result TellsNoFile }
{
    match write_all(out, text) {
        Ok(()) => Ok(()),
        Err(Failed::Failed) => Err(TestStop::Write),
        Err(Failed::Memory) => Err(TestStop::Memory),
    }
}
