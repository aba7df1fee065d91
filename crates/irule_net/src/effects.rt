// What network commands do outside the script.

ghost use Rattle.std.specs.Prelude.{◌≡◌, ◌++◌, List, [], ◌∷◌, map, OnOk};
ghost use Rattle.px_bytes.specs.Host.{Effect, Logged, Sent};
ghost use Rattle.irule_net.specs.Effects.{effect_of};

use px_bytes::{M, Side, Text};
use std::alloc::Global;
use std::marker::Model;

/// A line that was logged, or bytes that were sent to a side.
#[derive(Drop)]
pub enum Made {
    Logged(Text),
    Sent(Side, Text),
}

/// What commands did outside the script, in the order in which it is to be seen.
#[derive(Drop)]
pub struct Effects {
    made: Vec<Made>,
}

impl Model for Effects {
    ghost Value = { List Effect };

    ghost view = { λ e. map effect_of e.made.items };
}

impl Effects {
    pub fn new(alloc: Global) -> Effects
        ensures { result ≡ [] }
    {
        Effects {
            made: Vec::new(alloc),
        }
    }

    pub fn as_slice(&self) -> &[Made]
        ensures { map effect_of result.now ≡ self.now }
    {
        &self.made
    }

    /// Takes all of them away.
    pub fn clear(&mut self)
        ensures { self.new ≡ [] }
    {
        self.made.clear();
    }

    pub(crate) fn log(&mut self, line: Text) -> M<()>
        ensures { OnOk result (self.new ≡ self.old ++ Logged line ∷ []) }
    {
        self.made.push(Made::Logged(line))?;
        Ok(())
    }

    pub(crate) fn send(&mut self, side: Side, bytes: Text) -> M<()>
        ensures { OnOk result (self.new ≡ self.old ++ Sent side bytes ∷ []) }
    {
        self.made.push(Made::Sent(side, bytes))?;
        Ok(())
    }
}
