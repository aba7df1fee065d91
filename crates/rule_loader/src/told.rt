// The fault that is told.

ghost use Rattle.std.specs.Prelude.{◌≡◌, [], ◌∷◌};
ghost use Rattle.rule_loader.specs.Faults.{after_faults, fault_at};

use crate::load_fault::{LoadKind, RuleFault};

/// The fault to be told of what was looked at so far.
#[derive(Clone, Copy)]
pub(crate) struct Told {
    pub fault: Option<RuleFault>,
}

impl Told {
    /// Keeps a fault, if none comes before it.
    pub(crate) fn note(&mut self, kind: LoadKind, place: usize)
        ensures { self.new ≡ after_faults (fault_at kind place ∷ []) self.old }
    {
        let fault = RuleFault { kind, place };
        match &self.fault {
            None => self.fault = Some(fault),
            Some(first) => {
                if fault.comes_first(first) {
                    self.fault = Some(fault);
                }
            }
        }
    }
}
