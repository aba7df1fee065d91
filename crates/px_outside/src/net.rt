// Sockets.

ghost use Rattle.std.specs.Prelude.{◌≡◌, ℕ, ◌<◌, length, IfOk, OnOk, IsErrOf};
ghost use Rattle.px_outside.specs.Outside.{Rose};
ghost use Rattle.px_outside.specs.Net.{
  Call,
  Listen,
  Wait,
  Accept,
  Connect,
  Ask,
  Read,
  Write,
  Finish,
  Close,
  Lasts,
  IsNew,
  GivesNew,
  ListsAlive,
  ReadsWithin,
  WritesWithin,
  got,
};

use crate::{Accepted, ConnectAnswer, Failed, ReadAnswer, ReadyList, WriteAnswer};
use px_bytes::Addr;

/// Stream sockets. A listener is named by its slot, a connection, here a link, by a number that is
/// never given twice. What a call does and answers is known where the net tells it.
///
/// What `wait` listed stays due: it is listed again only after a call on it answered NotYet. A call
/// on a number that names no open link answers NotYet and does nothing.
pub trait Net {
    /// From the first state this call, with its answer, leads to the second.
    ghost did: { Self → Call → Self → Type 0 };

    /// The net has given this number to a link.
    ghost gave: { Self → ℕ → Type 0 };

    /// The link of this number is neither closed nor refused.
    ghost alive: { Self → ℕ → Type 0 };

    /// How often the net itself failed, counted up to 2 ^ 64 - 1.
    ghost faults: { Self → ℕ };

    /// How often the link of this number failed, counted up to 2 ^ 64 - 1.
    ghost link_faults: { Self → ℕ → ℕ };

    /// Listens at an address. Slots are numbered from 0 in the order of these calls.
    fn listen(&mut self, slot: u32, at: Addr) -> Result<(), Failed>
        ensures did { did self.old (Listen slot at result) self.new }
        ensures failed_is_counted { IsErrOf result Failed.Failed →
            Rose (faults self.old) (faults self.new) }
        ensures lasts { Lasts
            (gave self.old) (alive self.old) (faults self.old) (link_faults self.old)
            (gave self.new) (alive self.new) (faults self.new) (link_faults self.new) };

    /// Waits until something may be ready, no longer than until this moment of the clock in
    /// milliseconds, and puts it in place of what is listed. A wait may also end early.
    fn wait(&mut self, until: u64, out: &mut ReadyList) -> Result<(), Failed>
        ensures did { did self.old (Wait until out.new result) self.new }
        ensures lists_alive { OnOk result (ListsAlive (alive self.new) out.new) }
        ensures failed_is_counted { IsErrOf result Failed.Failed →
            Rose (faults self.old) (faults self.new) }
        ensures lasts { Lasts
            (gave self.old) (alive self.old) (faults self.old) (link_faults self.old)
            (gave self.new) (alive self.new) (faults self.new) (link_faults self.new) };

    /// The next connection that waits at a listener.
    fn accept(&mut self, slot: u32) -> Result<Accepted, Failed>
        ensures did { did self.old (Accept slot result) self.new }
        ensures is_new { IfOk result (GivesNew (gave self.old) (gave self.new)) }
        ensures failed_is_counted { IsErrOf result Failed.Failed →
            Rose (faults self.old) (faults self.new) }
        ensures lasts { Lasts
            (gave self.old) (alive self.old) (faults self.old) (link_faults self.old)
            (gave self.new) (alive self.new) (faults self.new) (link_faults self.new) };

    /// Begins to connect. `connect_answer` tells what became of it.
    fn connect(&mut self, to: Addr) -> Result<u32, Failed>
        ensures did { did self.old (Connect to result) self.new }
        ensures is_new { IfOk result (IsNew (gave self.old) (gave self.new)) }
        ensures failed_is_counted { IsErrOf result Failed.Failed →
            Rose (faults self.old) (faults self.new) }
        ensures lasts { Lasts
            (gave self.old) (alive self.old) (faults self.old) (link_faults self.old)
            (gave self.new) (alive self.new) (faults self.new) (link_faults self.new) };

    /// Whether a link that `connect` gave is connected. The net closes one that is refused.
    fn connect_answer(&mut self, link: u32) -> ConnectAnswer
        ensures did { did self.old (Ask link result) self.new }
        ensures refused_is_counted { result ≡ ConnectAnswer.Refused →
            Rose (link_faults self.old link) (link_faults self.new link) }
        ensures refused_is_closed { result ≡ ConnectAnswer.Refused → alive self.new link → ⊥ }
        ensures lasts { Lasts
            (gave self.old) (alive self.old) (faults self.old) (link_faults self.old)
            (gave self.new) (alive self.new) (faults self.new) (link_faults self.new) };

    /// Puts bytes of a link into the room, from its start.
    fn read(&mut self, link: u32, room: &mut [u8]) -> ReadAnswer
        requires { 0 < length room.old }
        ensures did { did self.old (Read link (length room.old) result (got result room.new))
            self.new }
        ensures within { ReadsWithin (length room.old) result }
        ensures reset_is_counted { result ≡ ReadAnswer.Reset →
            Rose (link_faults self.old link) (link_faults self.new link) }
        ensures lasts { Lasts
            (gave self.old) (alive self.old) (faults self.old) (link_faults self.old)
            (gave self.new) (alive self.new) (faults self.new) (link_faults self.new) };

    /// Sends a prefix of the bytes.
    fn write(&mut self, link: u32, bytes: &[u8]) -> WriteAnswer
        requires { 0 < length bytes.now }
        ensures did { did self.old (Write link bytes.now result) self.new }
        ensures within { WritesWithin (length bytes.now) result }
        ensures reset_is_counted { result ≡ WriteAnswer.Reset →
            Rose (link_faults self.old link) (link_faults self.new link) }
        ensures lasts { Lasts
            (gave self.old) (alive self.old) (faults self.old) (link_faults self.old)
            (gave self.new) (alive self.new) (faults self.new) (link_faults self.new) };

    /// Ends the sending half of a link.
    fn finish(&mut self, link: u32)
        ensures did { did self.old (Finish link) self.new }
        ensures lasts { Lasts
            (gave self.old) (alive self.old) (faults self.old) (link_faults self.old)
            (gave self.new) (alive self.new) (faults self.new) (link_faults self.new) };

    fn close(&mut self, link: u32)
        ensures did { did self.old (Close link) self.new }
        ensures closed { alive self.new link → ⊥ }
        ensures lasts { Lasts
            (gave self.old) (alive self.old) (faults self.old) (link_faults self.old)
            (gave self.new) (alive self.new) (faults self.new) (link_faults self.new) };
}
