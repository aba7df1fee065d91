// The end of a report.

ghost use Rattle.std.specs.Prelude.{◌≡◌, ◌≤◌, ◌++◌, IfOk, OnOk, OnErr, IfErr};
ghost use Rattle.px_outside.specs.Outside.{told_more, Rose};
ghost use Rattle.proxy_core.specs.Refusals.{live_at};
ghost use Rattle.proxy.specs.Replay.{conn_text, conns_text, open_if_live, servers_text};
ghost use Rattle.proxy.specs.Stops.{IsOutside};
ghost use Rattle.proxy.specs.Written.{WritesFrontOf};

use crate::replay::{Replay, Stop};
use crate::report::{client_line, open_line, server_line};
use crate::taken::Taken;
use proxy_core::Core;
use px_bytes::{M, Side, Text};
use px_outside::{Sink, write_all};
use std::alloc::Global;

impl Replay {
    /// Writes the lines of the connections and the last line. Where that stops, a part of them is
    /// written.
    pub fn finish<K: Sink>(&self, alloc: Global, last: &Text, out: &mut K) -> Result<(), Stop>
        ensures writes_all { OnOk result (K.written out.new ≡ told_more (K.written out.old)
            (conns_text self.now.core self.now.taken.items ++ last.now)) }
        ensures writes_front { OnErr result
            (WritesFrontOf (conns_text self.now.core self.now.taken.items ++ last.now)
            (K.written out.old) (K.written out.new)) }
        ensures failed_is_counted { IfErr result
            (λ why. why ≡ Stop.WriteFault → Rose (K.faults out.old) (K.faults out.new)) }
        ensures faults_never_fall { K.faults out.old ≤ K.faults out.new }
        ensures only_outside { IfErr result (λ why. IsOutside why) }
    {
        for taken in &self.taken {
            write_all(out, conn_text(alloc, &self.core, taken)?.as_bytes())?;
        }
        write_all(out, last.as_bytes())?;
        Ok(())
    }
}

// The lines of one connection.
fn conn_text(alloc: Global, core: &Core, taken: &Taken) -> M<Text>
    ensures { IfOk result (λ text. text ≡ conn_text core.now taken.now) }
{
    let mut text = client_line(alloc, taken.conn, taken.client.as_bytes())?;
    text.push(servers_text(alloc, taken.conn, taken.servers.as_slice())?.as_bytes())?;
    text.push(open_text(alloc, core, taken.conn)?.as_bytes())?;
    Ok(text)
}

// The lines of its server connections.
fn servers_text(alloc: Global, conn: u32, servers: &[Text]) -> M<Text>
    ensures { IfOk result (λ text. text ≡ servers_text conn 1 servers.now) }
{
    let mut text = Text::empty(alloc);
    for (at, bytes) in servers.iter().enumerate() {
        text.push(server_line(alloc, conn, at + 1, bytes.as_bytes())?.as_bytes())?;
    }
    Ok(text)
}

// The line of a connection that is live at the end.
fn open_text(alloc: Global, core: &Core, conn: u32) -> M<Text>
    ensures { IfOk result (λ text. text ≡ open_if_live conn (live_at core.now.live.items conn)) }
{
    match core.pending(conn, Side::Client) {
        Some(to_client) => {
            let to_server = core.pending(conn, Side::Server).unwrap_or(0);
            open_line(alloc, conn, to_client, to_server)
        }
        None => Ok(Text::empty(alloc)),
    }
}
