// Members are marked.

ghost use Rattle.std.specs.Prelude.{◌≡◌, ◌++◌, IfOk, OnOk};
ghost use Rattle.pool_monitor.specs.Pass.{Adds, AddsEach};
ghost use Rattle.pool_monitor.specs.Pump.{IsMarked, differs, mark_of, pool_of};

use crate::mark::{Mark, Marks};
use crate::monitor::Monitor;
use crate::probe::ProbedMember;
use px_bytes::{M, Text};
use std::alloc::Global;

impl ProbedMember {
    fn pool<'a>(&self, monitors: &'a [Monitor]) -> &'a [u8]
        ensures { result.now ≡ pool_of monitors.now self.now }
    {
        match monitors.get(self.monitor) {
            Some(monitor) => monitor.pool.as_bytes(),
            None => b"",
        }
    }

    fn mark_of(&self, alloc: Global, monitors: &[Monitor], up: bool) -> M<Mark>
        ensures { IfOk result (λ mark. mark ≡ mark_of monitors.now up self.now) }
    {
        Ok(Mark {
            pool: Text::new(alloc, self.pool(monitors))?,
            member: self.member,
            up,
        })
    }

    fn mark(&mut self, alloc: Global, monitors: &[Monitor], moment: u64, out: &mut Marks) -> M<()>
        ensures { OnOk result (Adds (IsMarked monitors.now moment) out.old out.new
            self.old self.new) }
    {
        let up = self.is_up(moment);
        if self.up != up {
            out.push(self.mark_of(alloc, monitors, up)?)?;
        }
        self.up = up;
        Ok(())
    }
}

/// Marks each member whose state isn't that of the pump before.
pub(crate) fn mark_each(
    members: &mut [ProbedMember],
    alloc: Global,
    monitors: &[Monitor],
    moment: u64,
    out: &mut Marks,
) -> M<()>
    ensures { OnOk result (AddsEach (IsMarked monitors.now moment) out.old out.new
        members.old members.new) }
{
    for member in members.iter_mut() {
        member.mark(alloc, monitors, moment, out)?;
    }
    Ok(())
}
