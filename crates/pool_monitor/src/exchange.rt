// One ask of an open probe.

ghost use Rattle.std.specs.Prelude.{◌≡◌, ◌+◌, ◌∷◌, [], ◌<◌, ◌≤◌, ◌^◌, length, vec_len, IfOk, OnOk};
ghost use Rattle.std.specs.Prelude.{option_map};
ghost use Rattle.px_outside.specs.Net.{got};
ghost use Rattle.tcl_expr.specs.TextTests.{contains};
ghost use Rattle.pool_monitor.specs.Exchange.{AsksConnect, Asked, AskedHttp, HasRead, HasWritten};
ghost use Rattle.pool_monitor.specs.Exchange.{IfGot, Makes, hears, connect_verdict, got_verdict, read_verdict};
ghost use Rattle.pool_monitor.specs.Exchange.{room_left, tcp_verdict, write_verdict};

use crate::monitor::HttpCheck;
use crate::probe::OpenProbe;
use crate::verdict::ProbeVerdict;
use memchr::memmem;
use px_bytes::M;
use px_outside::{ConnectAnswer, Net, ReadAnswer, WriteAnswer};

/// How many bytes a probe reads at most.
pub(crate) const MOST_HEARD: usize = 65_536;

fn contains(text: &[u8], part: &[u8]) -> bool
    ensures { result ≡ contains text.now part.now }
{
    memmem::find(text, part).is_some()
}

fn tcp_verdict(answer: ConnectAnswer) -> ProbeVerdict
    ensures { result ≡ tcp_verdict answer }
{
    match answer {
        ConnectAnswer::Connected => ProbeVerdict::Succeeded,
        ConnectAnswer::Refused => ProbeVerdict::Refused,
        ConnectAnswer::NotYet => ProbeVerdict::Waits,
    }
}

fn connect_verdict(answer: ConnectAnswer) -> ProbeVerdict
    ensures { result ≡ connect_verdict answer }
{
    match answer {
        ConnectAnswer::Refused => ProbeVerdict::Refused,
        _ => ProbeVerdict::Waits,
    }
}

fn write_verdict(answer: WriteAnswer) -> ProbeVerdict
    ensures { result ≡ write_verdict answer }
{
    match answer {
        WriteAnswer::Reset => ProbeVerdict::Failed,
        _ => ProbeVerdict::Waits,
    }
}

// Of all that was read.
fn got_verdict(recv: &[u8], heard: &[u8]) -> ProbeVerdict
    ensures { result ≡ got_verdict recv.now heard.now }
{
    if contains(heard, recv) {
        ProbeVerdict::Succeeded
    } else if heard.len() >= MOST_HEARD {
        ProbeVerdict::Failed
    } else {
        ProbeVerdict::Waits
    }
}

fn read_verdict(recv: &[u8], heard: &[u8], answer: ReadAnswer) -> ProbeVerdict
    ensures { result ≡ read_verdict recv.now heard.now answer }
{
    match answer {
        ReadAnswer::Got(_) => got_verdict(recv, heard),
        ReadAnswer::NotYet => ProbeVerdict::Waits,
        _ => ProbeVerdict::Failed,
    }
}

// How many bytes it may still read.
fn room_left(heard: usize) -> usize
    ensures left { result ≡ room_left heard }
    ensures some { 0 < result }
    ensures within { result ≤ 65536 }
{
    MOST_HEARD - heard.min(MOST_HEARD - 1)
}

impl OpenProbe {
    fn ask_tcp<N: Net>(&mut self, net: &mut N) -> ProbeVerdict
        ensures asked { Makes N.did net.old net.new
            (λ call. AsksConnect tcp_verdict self.old call self.new result) }
        ensures faults_never_fall { N.faults net.old ≤ N.faults net.new }
    {
        let answer = net.connect_answer(self.link);
        self.connected = matches!(answer, ConnectAnswer::Connected);
        tcp_verdict(answer)
    }

    fn ask_connect<N: Net>(&mut self, net: &mut N) -> ProbeVerdict
        ensures asked { Makes N.did net.old net.new
            (λ call. AsksConnect connect_verdict self.old call self.new result) }
        ensures faults_never_fall { N.faults net.old ≤ N.faults net.new }
    {
        let answer = net.connect_answer(self.link);
        self.connected = matches!(answer, ConnectAnswer::Connected);
        connect_verdict(answer)
    }

    fn write<N: Net>(&mut self, net: &mut N, send: &[u8]) -> ProbeVerdict
        requires { self.old.sent < length send.now }
        ensures asked { Makes N.did net.old net.new
            (λ call. HasWritten send.now self.old call self.new result) }
        ensures faults_never_fall { N.faults net.old ≤ N.faults net.new }
    {
        let answer = net.write(self.link, &send[self.sent..]);
        if let WriteAnswer::Took(n) = answer {
            self.sent += n;
        }
        write_verdict(answer)
    }

    fn hear(&mut self, answer: ReadAnswer, room: &[u8]) -> M<()>
        requires { IfGot answer (length room.now) }
        ensures { OnOk result (self.new ≡ hears (got answer room.now) self.old) }
    {
        if let ReadAnswer::Got(n) = answer {
            self.heard.push(&room[..n])?;
        }
        Ok(())
    }

    fn read_into<N: Net>(&mut self, net: &mut N, recv: &[u8], room: &mut [u8]) -> M<ProbeVerdict>
        requires { length room.old ≡ room_left (length self.old.heard) }
        ensures asked { IfOk result (λ verdict. Makes N.did net.old net.new
            (λ call. HasRead recv.now self.old call self.new verdict)) }
        ensures faults_never_fall { N.faults net.old ≤ N.faults net.new }
    {
        let answer = net.read(self.link, room);
        self.hear(answer, room)?;
        Ok(read_verdict(recv, self.heard.as_bytes(), answer))
    }

    fn read<N: Net>(&mut self, net: &mut N, recv: &[u8], room: &mut [u8]) -> M<ProbeVerdict>
        requires { length room.old ≡ 65536 }
        ensures asked { IfOk result (λ verdict. Makes N.did net.old net.new
            (λ call. HasRead recv.now self.old call self.new verdict)) }
        ensures faults_never_fall { N.faults net.old ≤ N.faults net.new }
    {
        let left = room_left(self.heard.len());
        self.read_into(net, recv, &mut room[..left])
    }

    fn ask_http<N: Net>(
        &mut self,
        net: &mut N,
        check: &HttpCheck,
        room: &mut [u8],
    ) -> M<ProbeVerdict>
        requires { length room.old ≡ 65536 }
        ensures asked { IfOk result (λ verdict. Makes N.did net.old net.new
            (λ call. AskedHttp check.now self.old call self.new verdict)) }
        ensures faults_never_fall { N.faults net.old ≤ N.faults net.new }
    {
        if !self.connected {
            return Ok(self.ask_connect(net));
        }
        if self.sent < check.send.len() {
            return Ok(self.write(net, check.send.as_bytes()));
        }
        self.read(net, check.recv.as_bytes(), room)
    }

    /// Asks it once: for the answer to its connect, to take more of what it sends, or for bytes.
    pub(crate) fn ask<N: Net>(
        &mut self,
        net: &mut N,
        http: Option<&HttpCheck>,
        room: &mut [u8],
    ) -> M<ProbeVerdict>
        requires { length room.old ≡ 65536 }
        ensures asked { IfOk result (λ verdict. Makes N.did net.old net.new
            (λ call. Asked (option_map (λ h. h.now) http.entry) self.old call self.new verdict)) }
        ensures faults_never_fall { N.faults net.old ≤ N.faults net.new }
    {
        match http {
            None => Ok(self.ask_tcp(net)),
            Some(check) => self.ask_http(net, check, room),
        }
    }
}
