// The core that is served.

ghost use Rattle.std.specs.Prelude.{◌≡◌, ◌≤◌, ◌<◌, ◌++◌, ℕ, Some, List, length, true};
ghost use Rattle.std.specs.Prelude.{option_map, IsTrue, IfSome};
ghost use Rattle.core_events.specs.declared.note.Note.{Note};
ghost use Rattle.core_events.specs.declared.event.Event.TheVariants as event;
ghost use Rattle.core_events.specs.Face.{Face, MayCome, MayTake, MayAnswer};

use crate::{Event, Notes};
use px_bytes::{Addr, Side};

/// Connections and the rules that they run, moved by events. Each question has its answer in the
/// face. An event that a question allows isn't refused.
pub trait EventCore {
    /// The questions, and what an event does.
    ghost face: { Face Self };

    /// Takes an event and adds its notes. Says whether it was taken; a refused one changes nothing.
    fn step(&mut self, event: Event, notes: &mut Notes) -> bool
        requires { 68 ≤ notes.old.spare }
        ensures taken { face.stands self.old → face.takes self.old event → result ≡ true }
        ensures moved { IsTrue result → ((group : List Note)
            × (notes.new.items ≡ notes.old.items ++ group)
            × face.moved self.old event group self.new) }
        ensures stands { face.stands self.old → face.stands self.new };

    /// The number of the next connection. None where no more may be accepted.
    fn next(&self) -> Option<u32>
        ensures next { face.next self.now result }
        ensures takes { IfSome result (λ n. (slot : ℕ) (name : List ℕ) (from : Addr)
            → face.name self.now slot (Some name)
            → face.takes self.now (event.Accept n name from)) };

    /// How many connections are live.
    fn live(&self) -> u32
        ensures { face.live self.now result };

    /// The name of the virtual server that listens at a slot.
    fn name(&self, slot: u32) -> Option<&[u8]>
        ensures { face.name self.now slot (option_map (λ x. x.now) result) };

    /// How many virtual servers listen, their slots being numbered from 0.
    fn slots(&self) -> u32
        ensures { face.slots self.now result };

    /// Where the virtual server of a slot listens.
    fn listen(&self, slot: u32) -> Option<Addr>
        ensures { face.listens self.now slot result };

    /// How many bytes of a side may come.
    fn wants(&self, conn: u32, side: Side) -> usize
        ensures wants { face.wants self.now conn side result }
        ensures takes { 0 < result → MayCome (face.takes self.now) conn side result };

    /// Whether the connection waits for the answer to its connect.
    fn connecting(&self, conn: u32) -> bool
        ensures connecting { face.connecting self.now conn result }
        ensures takes { IsTrue result → MayAnswer (face.takes self.now) conn };

    /// The bytes that are pending to a side.
    fn front(&self, conn: u32, side: Side) -> &[u8]
        ensures queue { face.queue self.now conn side result.now }
        ensures takes { 0 < length result.now
            → MayTake (face.takes self.now) conn side (length result.now) };

    /// Whether nothing is ready.
    fn settled(&self) -> bool
        ensures { face.settled self.now result };

    /// The connection that is ready for the longest time.
    fn ready(&self) -> Option<u32>
        ensures { face.ready self.now result };

    /// The present moment, in milliseconds.
    fn moment(&self) -> u64
        ensures moment { face.moment self.now result }
        ensures takes { (m : ℕ) → result ≤ m → face.takes self.now (event.Tick m) };

    /// The moment at which something is due by time alone, or the greatest number.
    fn due(&self) -> u64
        ensures { face.due self.now result };

    /// What is always taken.
    ghost always: { (s : Self) → face.stands s
        → face.takes s event.Run × face.takes s event.Turn };
}
