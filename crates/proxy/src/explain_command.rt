// The command that explains why a configuration doesn't load.

ghost use Rattle.std.specs.Prelude.{◌≡◌};
ghost use Rattle.proxy.specs.Explain.{explanation, loads_text};
ghost use Rattle.proxy.specs.Offline.{Explains, ExplainsFile};
ghost use Rattle.proxy.specs.Says.{Says, Tells, fault_end};
ghost use Rattle.proxy.specs.declared.end.End.TheVariants.{Done};

use crate::end::End;
use crate::explain::{explanation, loads_line};
use crate::say::{is_read_fault, say};
use config::{ConfigError, ConfigFault, ConfigFaultKind, VirtualSettings, read_config};
use px_outside::{Files, Sink};
use std::alloc::Global;

/// Says why a configuration doesn't load, or that it does and where it listens.
pub fn explain<F: Files, K: Sink>(alloc: Global, name: &[u8], files: &mut F, out: &mut K) -> End
    ensures { ExplainsFile name.now (F.told files.old) (K.written out.old) (K.written out.new)
        (F.faults files.old) (F.faults files.new) (K.faults out.old) (K.faults out.new) result }
{
    match read_config(alloc, files, name) {
        Ok(loaded) => tell_loads(alloc, name, loaded.settings.virtuals.as_slice(), out),
        Err(why) => tell_why(alloc, name, &why, out),
    }
}

// Says why there is no configuration.
fn tell_why<K: Sink>(alloc: Global, name: &[u8], why: &ConfigError, out: &mut K) -> End
    ensures { Explains name.now why.now (K.written out.old) (K.written out.new)
        (K.faults out.old) (K.faults out.new) result }
{
    match why {
        ConfigError::Fault(fault) => tell_fault(alloc, name, fault, out),
        ConfigError::Memory => End::Memory,
    }
}

fn tell_loads<K: Sink>(alloc: Global, name: &[u8], servers: &[VirtualSettings], out: &mut K) -> End
    ensures { Tells (loads_text name.now servers.now) Done (K.written out.old) (K.written out.new)
        (K.faults out.old) (K.faults out.new) result }
{
    End::Done.unless(say_loads(alloc, name, servers, out))
}

fn tell_fault<K: Sink>(alloc: Global, name: &[u8], fault: &ConfigFault, out: &mut K) -> End
    ensures { Tells (explanation name.now fault.now) (fault_end fault.now.kind) (K.written out.old)
        (K.written out.new) (K.faults out.old) (K.faults out.new) result }
{
    fault_end(fault.kind).unless(say_fault(alloc, name, fault, out))
}

fn fault_end(kind: ConfigFaultKind) -> End
    ensures { result ≡ fault_end kind }
{
    if is_read_fault(kind) {
        End::ReadFault
    } else {
        End::Config
    }
}

fn say_loads<K: Sink>(
    alloc: Global,
    name: &[u8],
    servers: &[VirtualSettings],
    out: &mut K,
) -> Result<(), End>
    ensures { Says (loads_text name.now servers.now) (K.written out.old) (K.written out.new)
        (K.faults out.old) (K.faults out.new) result }
{
    match loads_line(alloc, name, servers) {
        Ok(line) => say(out, line.as_bytes()),
        Err(_) => Err(End::Memory),
    }
}

fn say_fault<K: Sink>(
    alloc: Global,
    name: &[u8],
    fault: &ConfigFault,
    out: &mut K,
) -> Result<(), End>
    ensures { Says (explanation name.now fault.now) (K.written out.old) (K.written out.new)
        (K.faults out.old) (K.faults out.new) result }
{
    match explanation(alloc, name, fault) {
        Ok(text) => say(out, text.as_bytes()),
        Err(_) => Err(End::Memory),
    }
}
