// Open probes are asked.

ghost use Rattle.std.specs.Prelude.{◌≡◌, ◌≤◌, length, option_map, OnOk};
ghost use Rattle.pool_monitor.specs.Pass.{Ends, Goes, Steps};
ghost use Rattle.pool_monitor.specs.Pump.{IsAsked, IsSettled, after_verdict, close_after, http_of};

use crate::monitor::{HttpCheck, Monitor};
use crate::probe::{OpenProbe, ProbedMember};
use crate::verdict::ProbeVerdict;
use px_bytes::M;
use px_outside::Net;

impl ProbedMember {
    fn http<'a>(&self, monitors: &'a [Monitor]) -> Option<&'a HttpCheck>
        ensures { option_map (λ h. h.now) result ≡ http_of monitors.now self.now }
    {
        match monitors.get(self.monitor) {
            Some(monitor) => monitor.http.as_ref(),
            None => None,
        }
    }

    // Its probe stands so.
    fn settle<N: Net>(&mut self, net: &mut N, moment: u64, verdict: ProbeVerdict, probe: OpenProbe)
        ensures settled { Ends N.did (close_after verdict probe.link) net.old net.new
            (after_verdict moment verdict probe self.old) self.new }
        ensures faults_never_fall { N.faults net.old ≤ N.faults net.new }
    {
        match verdict {
            ProbeVerdict::Waits => self.probe = Some(probe),
            ProbeVerdict::Succeeded => {
                net.close(probe.link);
                self.good = self.good.max(moment);
                self.probe = None;
            }
            ProbeVerdict::Failed => {
                net.close(probe.link);
                self.probe = None;
            }
            ProbeVerdict::Refused => self.probe = None,
        }
    }

    // This open probe of it.
    fn ask_open<N: Net>(
        &mut self,
        net: &mut N,
        http: Option<&HttpCheck>,
        room: &mut [u8],
        moment: u64,
        probe: OpenProbe,
    ) -> M<()>
        requires { length room.old ≡ 65536 }
        ensures asked { OnOk result (Steps N.did (IsSettled (option_map (λ h. h.now) http.entry)
            moment probe) net.old net.new self.old self.new) }
        ensures faults_never_fall { N.faults net.old ≤ N.faults net.new }
    {
        let mut probe = probe;
        let verdict = probe.ask(net, http, room)?;
        self.settle(net, moment, verdict, probe);
        Ok(())
    }

    fn ask<N: Net>(
        &mut self,
        net: &mut N,
        monitors: &[Monitor],
        room: &mut [u8],
        moment: u64,
    ) -> M<()>
        requires { length room.old ≡ 65536 }
        ensures asked { OnOk result (Steps N.did (IsAsked monitors.now moment) net.old net.new
            self.old self.new) }
        ensures faults_never_fall { N.faults net.old ≤ N.faults net.new }
    {
        let http = self.http(monitors);
        match self.probe.take() {
            Some(probe) => self.ask_open(net, http, room, moment, probe),
            None => Ok(()),
        }
    }
}

/// Asks each open probe once.
pub(crate) fn ask_each<N: Net>(
    members: &mut [ProbedMember],
    net: &mut N,
    monitors: &[Monitor],
    room: &mut [u8],
    moment: u64,
) -> M<()>
    requires { length room.old ≡ 65536 }
    ensures asked { OnOk result (Goes N.did (IsAsked monitors.now moment) net.old net.new
        members.old members.new) }
    ensures faults_never_fall { N.faults net.old ≤ N.faults net.new }
{
    for member in members.iter_mut() {
        member.ask(net, monitors, room, moment)?;
    }
    Ok(())
}
