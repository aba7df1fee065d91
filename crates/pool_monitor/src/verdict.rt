// What an answer makes of a probe.

/// What becomes of an open probe that was asked.
#[derive(Clone, Copy)]
pub enum ProbeVerdict {
    /// It stays open.
    Waits,
    Succeeded,
    Failed,
    /// It failed, and the net has dropped its link.
    Refused,
}
