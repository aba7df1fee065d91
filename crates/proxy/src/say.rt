// What is said.

ghost use Rattle.std.specs.Prelude.{◌≡◌};
ghost use Rattle.proxy.specs.Loads.{is_read_fault};
ghost use Rattle.proxy.specs.Says.{Says};

use crate::end::End;
use config::ConfigFaultKind;
use px_outside::{Failed, Sink, write_all};

/// Whether a file could not be read.
pub fn is_read_fault(kind: ConfigFaultKind) -> bool
    ensures { result ≡ is_read_fault kind }
{
    matches!(kind, ConfigFaultKind::ReadFault)
}

/// Writes a text.
pub fn say<K: Sink>(out: &mut K, text: &[u8]) -> Result<(), End>
    ensures { Says text.now (K.written out.old) (K.written out.new) (K.faults out.old)
        (K.faults out.new) result }
{
    match write_all(out, text) {
        Ok(()) => Ok(()),
        Err(Failed::Failed) => Err(End::WriteFault),
        Err(Failed::Memory) => Err(End::Memory),
    }
}
