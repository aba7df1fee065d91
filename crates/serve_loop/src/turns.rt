// Turns.

ghost use Rattle.std.specs.Prelude.{◌≡◌, ◌≤◌, IfOk, IfErr};
ghost use Rattle.serve_loop.specs.Fallen.{Stopped};
ghost use Rattle.serve_loop.specs.Faults.{FromNetOrSink};
ghost use Rattle.serve_loop.specs.Part.{stand};
ghost use Rattle.serve_loop.specs.Server.{IsOver, Served, running};
ghost use Rattle.serve_loop.specs.Turn.{CanAccept};

use crate::server::Server;
use crate::{ServeEnd, ServeFault};
use core_events::EventCore;
use px_outside::{Clock, Net, Sink};

/// So many turns, and no more once as many connections were accepted as may be and all are over.
pub fn serve<C: EventCore + Drop, N: Net, T: Clock, K: Sink>(
    server: &mut Server<C>,
    net: &mut N,
    clock: &mut T,
    journal: &mut K,
    turns: u64,
) -> Result<ServeEnd, ServeFault>
    ensures served { IfOk result (Served C.face N.did N.gave T.gave turns
        (running server.old net.old clock.old (K.written journal.old))
        (running server.new net.new clock.new (K.written journal.new))) }
    ensures fails { IfErr result (FromNetOrSink (N.faults net.old) (N.faults net.new)
        (K.faults journal.old) (K.faults journal.new)) }
    ensures stopped { IfErr result (Stopped C.face N.did N.gave T.gave turns
        (running server.old net.old clock.old (K.written journal.old))
        (running server.new net.new clock.new (K.written journal.new))) }
    ensures net_faults_never_fall { N.faults net.old ≤ N.faults net.new }
    ensures journal_faults_never_fall { K.faults journal.old ≤ K.faults journal.new }
{
    for turn in 0..turns {
        let _ = turn;
        server.turn(net, clock, journal)?;
        if server.serving.is_over() {
            return Ok(ServeEnd::Conns);
        }
    }
    Ok(ServeEnd::Turns)
}
