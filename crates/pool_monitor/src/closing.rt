// Probes that are open and due again.

ghost use Rattle.std.specs.Prelude.{◌≡◌, ◌≤◌};
ghost use Rattle.pool_monitor.specs.Pass.{Goes, Steps};
ghost use Rattle.pool_monitor.specs.Pump.{IsClosed, IsDropped};

use crate::probe::ProbedMember;
use px_outside::Net;

impl ProbedMember {
    // It fails, unasked.
    fn close_overdue<N: Net>(&mut self, net: &mut N, moment: u64)
        ensures closed { Steps N.did (IsClosed moment) net.old net.new self.old self.new }
        ensures faults_never_fall { N.faults net.old ≤ N.faults net.new }
    {
        if self.is_due(moment) {
            self.close(net);
        }
    }

    fn close<N: Net>(&mut self, net: &mut N)
        ensures closed { Steps N.did IsDropped net.old net.new self.old self.new }
        ensures faults_never_fall { N.faults net.old ≤ N.faults net.new }
    {
        if let Some(probe) = &self.probe {
            net.close(probe.link);
        }
        self.probe = None;
    }
}

/// Lets each fail that is open and due again.
pub(crate) fn close_overdue<N: Net>(members: &mut [ProbedMember], net: &mut N, moment: u64)
    ensures closed { Goes N.did (IsClosed moment) net.old net.new members.old members.new }
    ensures faults_never_fall { N.faults net.old ≤ N.faults net.new }
{
    for member in members.iter_mut() {
        member.close_overdue(net, moment);
    }
}
