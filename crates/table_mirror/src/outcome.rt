// What a plan comes to.

use crate::packet::MirrorStop;
use journal_text::LineKind;
use px_bytes::Text;

/// What a plan comes to. Lines are counted from 1.
#[derive(Drop)]
pub enum MirrorOutcome {
    /// All lines were followed: the standby's rows, and how far it and the sender came.
    Mirrored(Text),
    /// A line is faulty.
    Faulty { line: u64, kind: LineKind },
    /// A line can't be followed.
    Stopped { line: u64, stop: MirrorStop },
}
