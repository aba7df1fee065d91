// What a core's fields tell of its connections.

ghost use Rattle.std.specs.Prelude.{◌≡◌, ◌↔◌, [], IsTrue, IfOk, length, option_map};
ghost use Rattle.proxy_core.specs.Queries.{front_of, pending_on, queue_on};
ghost use Rattle.proxy_core.specs.Live.{edges_in, wanted_of};
ghost use Rattle.proxy_core.specs.Refusals.{live_at};

use crate::core_state::Core;
use crate::live::Live;
use crate::ring::find;
use core_events::Edges;
use px_bytes::{M, Side, Text};

impl Core {
    pub(crate) fn is_settled(&self) -> bool
        ensures { IsTrue result ↔ ((self.now.live.ring ≡ []) × (self.now.queue.items ≡ [])) }
    {
        self.live.is_idle() && self.queue.is_empty()
    }

    pub(crate) fn live_count(&self) -> u32
        ensures { result ≡ length self.now.live.items }
    {
        let _limit = self.config.connections;
        self.live.len() as u32
    }

    pub(crate) fn pending_at(&self, conn: u32, side: Side) -> Option<usize>
        ensures { result ≡ option_map (λ l. pending_on side l.conn)
            (live_at self.now.live.items conn) }
    {
        Some(self.at(conn)?.queued(side).len())
    }

    pub(crate) fn front_at(&self, conn: u32, side: Side) -> Option<&[u8]>
        ensures { option_map (λ bytes. bytes.now) result
            ≡ option_map (λ l. queue_on side l.conn) (live_at self.now.live.items conn) }
    {
        Some(self.at(conn)?.queued(side))
    }

    pub(crate) fn copy_at(&self, conn: u32, side: Side, n: usize) -> M<Option<Text>>
        ensures { IfOk result (λ text. text ≡ front_of side n (live_at self.now.live.items conn)) }
    {
        let Some(live) = self.at(conn) else {
            return Ok(None);
        };
        match live.queued(side).get(..n) {
            Some(bytes) => Ok(Some(Text::new(self.alloc, bytes)?)),
            None => Ok(None),
        }
    }

    pub(crate) fn wants_at(&self, conn: u32, side: Side) -> Option<usize>
        ensures { result ≡ option_map (λ l. wanted_of side l.conn)
            (live_at self.now.live.items conn) }
    {
        Some(self.at(conn)?.wants(side))
    }

    pub(crate) fn edges_at(&self, conn: u32) -> Option<Edges>
        ensures { result ≡ option_map edges_in (live_at self.now.live.items conn) }
    {
        Some(self.at(conn)?.ends())
    }

    // The live connection of a number.
    fn at(&self, conn: u32) -> Option<&Live>
        ensures { option_map (λ l. l.now) result ≡ live_at self.now.live.items conn }
    {
        let at = find(&self.live, conn)?;
        Some(&self.live[at])
    }
}

impl Live {
    // The bytes that a side is to take.
    fn queued(&self, side: Side) -> &[u8]
        ensures { result.now ≡ queue_on side self.now.conn }
    {
        match &self.conn {
            Some(conn) => conn.front(side),
            None => &[],
        }
    }
}
