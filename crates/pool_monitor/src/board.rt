// Monitors with the members that they probe.

ghost use Rattle.std.specs.Prelude.{◌≡◌, ◌≤◌, IfOk, OnOk, IsErrOf, length};
ghost use Rattle.px_outside.specs.Outside.{Rose};
ghost use Rattle.pool_monitor.specs.Pump.{Probed, Tells, is_open, least_next, until_of, watch};
ghost use Rattle.std.specs.List.{list_any};

use crate::ask::ask_each;
use crate::closing::close_overdue;
use crate::exchange::MOST_HEARD;
use crate::mark::Marks;
use crate::marking::mark_each;
use crate::monitor::Monitor;
use crate::probe::ProbedMember;
use crate::sending::send_each;
use px_bytes::{M, Seq};
use px_outside::{Failed, Net, ReadyList};
use std::alloc::Global;
use std::marker::Model;

/// How long after a pump with an open probe the next one comes at the latest, in milliseconds.
const SOON: u64 = 100;

/// Monitors, and the members that they probe, in the order of the monitors and of the members of each.
#[derive(Drop)]
pub struct Board {
    alloc: Global,
    monitors: Seq<Monitor>,
    members: Vec<ProbedMember>,
    /// Where a read puts its bytes.
    room: Vec<u8>,
}

impl Model for Board {
    ghost use Rattle.std.specs.Prelude.{◌≡◌, vec_len};
    ghost use Rattle.pool_monitor.specs.Pump.{Watch};

    ghost Value = { Watch };

    ghost view = { λ b. record { monitors = b.monitors; members = b.members.items } };

    ghost invariant = { λ b. vec_len b.room ≡ 65536 };
}

impl Board {
    /// Before the first pump.
    pub(crate) fn new(alloc: Global, monitors: Seq<Monitor>, members: Vec<ProbedMember>) -> M<Board>
        ensures { IfOk result (λ b. b ≡ record { monitors = monitors; members = members.items }) }
    {
        let room = vec![in alloc; 0; MOST_HEARD]?;
        Ok(Board {
            alloc,
            monitors,
            members,
            room,
        })
    }

    pub fn monitors(&self) -> &[Monitor]
        ensures { result.now ≡ self.now.monitors }
    {
        self.monitors.as_slice()
    }

    /// Waits on the net no longer than until now, lets probes fail that are due again, asks each other
    /// open one once, sends the due ones, and tells which members are up or down now and weren't
    /// before. The moment is in milliseconds. The net is the same each time.
    pub fn pump<P: Net>(&mut self, net: &mut P, moment: u64, out: &mut Marks) -> Result<(), Failed>
        ensures pumped { OnOk result (Tells P.did self.old moment net.old net.new self.new
            out.old out.new) }
        ensures fails { IsErrOf result Failed.Failed → Rose (P.faults net.old) (P.faults net.new) }
        ensures faults_never_fall { P.faults net.old ≤ P.faults net.new }
    {
        let monitors = self.monitors.as_slice();
        probe_each(
            &mut self.members,
            self.alloc,
            net,
            monitors,
            &mut self.room,
            moment,
        )?;
        mark_each(&mut self.members, self.alloc, monitors, moment, out)?;
        Ok(())
    }

    /// The moment, in milliseconds, of the next pump at the latest: soon where a probe is open, else
    /// that of the next probe, or the greatest number where there is none.
    pub fn until(&self, moment: u64) -> u64
        ensures { result ≡ until_of moment self.now.members }
    {
        if is_any_open(&self.members) {
            return moment.saturating_add(SOON);
        }
        least_next(&self.members)
    }
}

// All but the marks.
fn probe_each<P: Net>(
    members: &mut [ProbedMember],
    alloc: Global,
    net: &mut P,
    monitors: &[Monitor],
    room: &mut [u8],
    moment: u64,
) -> Result<(), Failed>
    requires { length room.old ≡ 65536 }
    ensures probed { OnOk result (Probed P.did (watch monitors.now members.old) moment
        net.old net.new (watch monitors.now members.new)) }
    ensures fails { IsErrOf result Failed.Failed → Rose (P.faults net.old) (P.faults net.new) }
    ensures faults_never_fall { P.faults net.old ≤ P.faults net.new }
{
    let mut listed = ReadyList::new(alloc);
    net.wait(moment, &mut listed)?;
    close_overdue(members, net, moment);
    ask_each(members, net, monitors, room, moment)?;
    send_each(members, alloc, net, moment)?;
    Ok(())
}

fn is_any_open(members: &[ProbedMember]) -> bool
    ensures { result ≡ list_any is_open members.now }
{
    members.iter().any(|member| member.probe.is_some())
}

fn least_next(members: &[ProbedMember]) -> u64
    ensures { result ≡ least_next members.now }
{
    let mut least = u64::MAX;
    for member in members {
        least = least.min(member.next());
    }
    least
}
