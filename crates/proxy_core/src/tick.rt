// The present moment, and the calls whose time has come.

ghost use Rattle.std.specs.Prelude.{◌≡◌, Some, None, OnOk, OnErr, IfErr};
ghost use Rattle.proxy_core.specs.Changes.{TicksTo};
ghost use Rattle.core_events.specs.declared.event_kind.EventKind.TheVariants.{Ticks};
ghost use Rattle.proxy_core.specs.Refusal.{refusal_of};

use crate::core_state::Core;
use core_events::BadEvent;

impl Core {
    /// It is this moment: the calls that slept up to it wait for their Turn, and rows and records that
    /// have run out are gone. It takes no memory.
    pub(crate) fn tick(&mut self, moment: u64) -> Result<(), BadEvent>
        ensures accepted { OnOk result (refusal_of self.old (Ticks moment) ≡ None) }
        ensures refused { IfErr result (λ why. refusal_of self.old (Ticks moment) ≡ Some why) }
        ensures ticks { OnOk result (TicksTo self.old self.new moment) }
        ensures same { OnErr result (self.new ≡ self.old) }
    {
        if moment < self.moment {
            return Err(BadEvent::MomentBack);
        }
        self.moment = moment;
        self.store.expire(moment);
        self.queue.wake(moment);
        Ok(())
    }
}
