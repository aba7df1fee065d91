// What is counted.

ghost use Rattle.std.specs.Prelude.{◌≡◌, IfSome, OnOk};
ghost use Rattle.access_report.specs.Sums.{none, plus};

use px_bytes::{M, Memory};

/// What a virtual server had. Each sum of 64-bit numbers, one a line, fits 128 bits.
#[derive(Clone, Copy, PartialEq, Eq)]
pub struct ServerCounts {
    /// How many connections were accepted.
    pub conns: u128,
    /// How many bytes its clients took.
    pub bytes: u128,
    /// How many shared calls were answered.
    pub calls: u128,
    /// How many connections finished otherwise than closed.
    pub early: u128,
}

impl ServerCounts {
    pub const NONE: ServerCounts = ServerCounts {
        conns: 0,
        bytes: 0,
        calls: 0,
        early: 0,
    };

    /// Adds more to it. `Memory` where a sum has no 128 bits.
    pub fn raise(&mut self, more: ServerCounts) -> M<()>
        ensures { OnOk result (self.new ≡ plus self.old more) }
    {
        let Some(counts) = self.plus(more) else {
            return Err(Memory);
        };
        *self = counts;
        Ok(())
    }

    // Both together; None where a sum has no 128 bits.
    fn plus(self, more: ServerCounts) -> Option<ServerCounts>
        ensures { IfSome result (λ counts. counts ≡ plus self more) }
    {
        Some(ServerCounts {
            conns: self.conns.checked_add(more.conns)?,
            bytes: self.bytes.checked_add(more.bytes)?,
            calls: self.calls.checked_add(more.calls)?,
            early: self.early.checked_add(more.early)?,
        })
    }
}
