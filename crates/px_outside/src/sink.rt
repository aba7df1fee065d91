// A place to write to.

ghost use Rattle.std.specs.Prelude.{
  ◌≡◌,
  ℕ,
  ◌<◌,
  ◌≤◌,
  List,
  Option,
  None,
  length,
  take,
  IfOk,
  OnOk,
  OnErr,
  IsErrOf,
};
ghost use Rattle.std.specs.Bool.{IsFalse};
ghost use Rattle.px_outside.specs.Outside.{told_more, AddsPrefix, Rose};

use crate::Failed;

/// A place that bytes are written to. What was written is known where the sink tells it.
pub trait Sink {
    /// All that was written so far, where the sink tells it.
    ghost written: { Self → Option (List ℕ) };

    /// How often a write failed, counted up to 2 ^ 64 - 1.
    ghost faults: { Self → ℕ };

    /// Whether anything is kept of what is written. Text needn't be made for a sink that keeps
    /// nothing.
    fn keeps(&self) -> bool
        ensures untold { IsFalse result → written self.now ≡ None }
    {
        true
    }

    /// Writes a prefix of the bytes, and gives its length.
    fn write(&mut self, bytes: &[u8]) -> Result<usize, Failed>
        ensures within { IfOk result (λ taken. taken ≤ length bytes.now) }
        ensures takes_some { IfOk result (λ taken. 0 < length bytes.now → 0 < taken) }
        ensures writes_taken { IfOk result (λ taken.
            written self.new ≡ told_more (written self.old) (take taken bytes.now)) }
        ensures err_writes_nothing { OnErr result (written self.new ≡ written self.old) }
        ensures faults_never_fall { faults self.old ≤ faults self.new }
        ensures failed_is_counted { IsErrOf result Failed.Failed →
            Rose (faults self.old) (faults self.new) };
}

/// Writes all bytes, or a prefix of them, not all, where a write fails.
pub fn write_all<K: Sink>(sink: &mut K, bytes: &[u8]) -> Result<(), Failed>
    ensures ok_writes_all { OnOk result
        (K.written sink.new ≡ told_more (K.written sink.old) bytes.now) }
    ensures err_writes_prefix { OnErr result
        (AddsPrefix bytes.now (K.written sink.old) (K.written sink.new)) }
    ensures faults_never_fall { K.faults sink.old ≤ K.faults sink.new }
    ensures failed_is_counted { IsErrOf result Failed.Failed →
        Rose (K.faults sink.old) (K.faults sink.new) }
{
    let mut done = 0;
    while done < bytes.len() {
        done += sink.write(&bytes[done..])?;
    }
    Ok(())
}
