// Probes are sent.

ghost use Rattle.std.specs.Prelude.{◌≡◌, ◌≤◌, OnOk, IsErrOf};
ghost use Rattle.px_outside.specs.Outside.{Rose};
ghost use Rattle.pool_monitor.specs.Pass.{Goes, Steps};
ghost use Rattle.pool_monitor.specs.Pump.{HasSent, IsSent, good_from};

use crate::probe::{OpenProbe, ProbedMember};
use px_bytes::Text;
use px_outside::{Failed, Net};
use std::alloc::Global;

impl ProbedMember {
    fn good_from(&self, moment: u64) -> u64
        ensures { result ≡ good_from moment self.now }
    {
        if self.sent.is_some() {
            self.good
        } else {
            moment
        }
    }

    fn begin<N: Net>(&mut self, alloc: Global, net: &mut N, moment: u64) -> Result<(), Failed>
        ensures sent { OnOk result (Steps N.did (HasSent moment) net.old net.new
            self.old self.new) }
        ensures fails { IsErrOf result Failed.Failed → Rose (N.faults net.old) (N.faults net.new) }
        ensures faults_never_fall { N.faults net.old ≤ N.faults net.new }
    {
        let link = net.connect(self.member)?;
        self.good = self.good_from(moment);
        self.sent = Some(moment);
        self.probe = Some(OpenProbe {
            link,
            connected: false,
            sent: 0,
            heard: Text::empty(alloc),
        });
        Ok(())
    }

    fn send<N: Net>(&mut self, alloc: Global, net: &mut N, moment: u64) -> Result<(), Failed>
        ensures sent { OnOk result (Steps N.did (IsSent moment) net.old net.new self.old self.new) }
        ensures fails { IsErrOf result Failed.Failed → Rose (N.faults net.old) (N.faults net.new) }
        ensures faults_never_fall { N.faults net.old ≤ N.faults net.new }
    {
        if self.is_due(moment) {
            return self.begin(alloc, net, moment);
        }
        Ok(())
    }
}

/// Sends each probe that is due.
pub(crate) fn send_each<N: Net>(
    members: &mut [ProbedMember],
    alloc: Global,
    net: &mut N,
    moment: u64,
) -> Result<(), Failed>
    ensures sent { OnOk result (Goes N.did (IsSent moment) net.old net.new members.old members.new) }
    ensures fails { IsErrOf result Failed.Failed → Rose (N.faults net.old) (N.faults net.new) }
    ensures faults_never_fall { N.faults net.old ≤ N.faults net.new }
{
    for member in members.iter_mut() {
        member.send(alloc, net, moment)?;
    }
    Ok(())
}
