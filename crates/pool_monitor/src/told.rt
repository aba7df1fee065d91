// The fault that is told.

ghost use Rattle.std.specs.Prelude.{◌≡◌, [], ◌∷◌, None, OnOk};
ghost use Rattle.config.specs.Faults.{after_faults, comes_first, fault_at};
ghost use Rattle.config.specs.Tables.{faults_of};
ghost use Rattle.pool_monitor.specs.Documents.{place_text};

use crate::place::Place;
use config::{ConfigFault, ConfigFaultKind};
use px_bytes::M;
use std::alloc::Global;
use std::marker::Model;

/// The fault to be told of what was looked at so far.
#[derive(Drop)]
pub(crate) struct Told {
    pub first: Option<ConfigFault>,
    pub alloc: Global,
}

impl Model for Told {
    ghost use Rattle.std.specs.Prelude.{Option};
    ghost use Rattle.config.specs.declared.fault.ConfigFault.{ConfigFault};

    ghost Value = { Option ConfigFault };

    ghost view = { λ t. t.first };
}

impl Told {
    /// Nothing is wrong so far.
    pub(crate) fn new(alloc: Global) -> Told
        ensures { result ≡ None }
    {
        Told { first: None, alloc }
    }

    // Whether a fault of this kind is told in place of the one so far.
    fn is_first(&self, kind: ConfigFaultKind) -> bool
        ensures { result ≡ comes_first kind self.now }
    {
        match &self.first {
            Some(first) => kind.number() < first.kind.number(),
            None => true,
        }
    }

    /// Keeps a fault, if its number is the smallest so far.
    pub(crate) fn note(&mut self, kind: ConfigFaultKind, place: Place<'_>) -> M<()>
        ensures { OnOk result (self.new
            ≡ after_faults (fault_at kind (place_text place.entry) ∷ []) self.old) }
    {
        if self.is_first(kind) {
            let place = place.text(self.alloc)?;
            self.first = Some(ConfigFault {
                kind,
                place,
                spot: None,
            });
        }
        Ok(())
    }
}

impl Told {
    /// Keeps what is wrong at a place, if something is.
    pub(crate) fn note_if(&mut self, kind: Option<ConfigFaultKind>, place: Place<'_>) -> M<()>
        ensures { OnOk result (self.new
            ≡ after_faults (faults_of (place_text place.entry) kind) self.old) }
    {
        match kind {
            Some(kind) => self.note(kind, place),
            None => Ok(()),
        }
    }
}
