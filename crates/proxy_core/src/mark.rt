// A member of a pool is up or down.

ghost use Rattle.std.specs.Prelude.{◌≡◌, Some, None, OnOk, OnErr, IfErr};
ghost use Rattle.core_events.specs.declared.event_kind.EventKind.TheVariants.{Marks};
ghost use Rattle.proxy_core.specs.Refusal.{refusal_of};
ghost use Rattle.shared_store.specs.Store.{marked};

use crate::core_state::Core;
use core_events::BadEvent;
use px_bytes::Addr;

impl Core {
    /// A member of a pool is up or down from now on.
    pub(crate) fn mark(&mut self, pool: &[u8], member: Addr, up: bool) -> Result<(), BadEvent>
        ensures accepted { OnOk result (refusal_of self.old (Marks pool.now member up) ≡ None) }
        ensures refused { IfErr result
            (λ why. refusal_of self.old (Marks pool.now member up) ≡ Some why) }
        ensures marks { OnOk result (self.new
            ≡ record self.old { store = marked pool.now member up self.old.store }) }
        ensures same { OnErr result (self.new ≡ self.old) }
    {
        if self.store.mark(pool, member, up) {
            Ok(())
        } else {
            Err(BadEvent::NoMember)
        }
    }
}
