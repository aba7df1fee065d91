// The access report of a record.

ghost use Rattle.std.specs.Prelude.{◌≡◌, ◌↔◌, true};
ghost use Rattle.proxy.specs.Recorded.{ReportsFile, TellsLineFault, TellsRecord};

use crate::end::End;
use crate::offline_commands::{read_end, tell};
use crate::report::text_fault_line;
use access_report::report_of;
use journal_text::LineKind;
use journal_value::LineFault;
use px_outside::{Files, Sink};
use std::alloc::Global;

/// Reads a record, and says what its virtual servers had, or which line of it is faulty first.
pub fn report<F: Files, K: Sink>(alloc: Global, name: &[u8], files: &mut F, out: &mut K) -> End
    ensures { ReportsFile name.now (F.told files.old) (K.written out.old) (K.written out.new)
        (F.faults files.old) (F.faults files.new) (K.faults out.old) (K.faults out.new) result }
{
    match files.read(alloc, name) {
        Ok(text) => report_record(alloc, text.as_bytes(), out),
        Err(failed) => read_end(failed),
    }
}

fn report_record<K: Sink>(alloc: Global, bytes: &[u8], out: &mut K) -> End
    ensures { TellsRecord bytes.now (K.written out.old) (K.written out.new) (K.faults out.old)
        (K.faults out.new) result }
{
    match report_of(alloc, bytes) {
        Ok(text) => tell(End::Done, text.as_bytes(), out),
        Err(fault) => tell_line_fault(alloc, fault, out),
    }
}

/// Says which line of a record is faulty first.
pub fn tell_line_fault<K: Sink>(alloc: Global, fault: LineFault, out: &mut K) -> End
    ensures { TellsLineFault fault (K.written out.old) (K.written out.new) (K.faults out.old)
        (K.faults out.new) result }
{
    if is_memory(fault.kind) {
        return End::Memory;
    }
    match text_fault_line(alloc, fault.line, fault.kind) {
        Ok(line) => tell(End::Schedule, line.as_bytes(), out),
        Err(_) => End::Memory,
    }
}

fn is_memory(kind: LineKind) -> bool
    ensures { (result ≡ true) ↔ (kind ≡ LineKind.Memory) }
{
    matches!(kind, LineKind::Memory)
}
