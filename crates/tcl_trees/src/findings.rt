// The flaw to be told, and the names of commands.

ghost use Rattle.std.specs.Prelude.{◌≡◌};
ghost use Rattle.tcl_trees.specs.Compiled.{beginning};
ghost use Rattle.tcl_trees.specs.Flaws.{noted};

use crate::flaw::Flaw;
use px_bytes::{Seq, Text};
use std::alloc::Global;

/// A name of a command as it stands in the source, and the place of the command's first byte.
#[derive(Drop)]
pub struct CommandName {
    pub place: usize,
    pub name: Text,
}

/// The flaw to be told of what was looked at so far, and the literal names of the commands in it
/// that are none of Tcl's own commands on variables, control or expressions.
#[derive(Drop)]
pub struct Findings {
    pub flaw: Option<Flaw>,
    pub names: Seq<CommandName>,
}

impl Findings {
    /// Nothing found yet.
    pub fn new(alloc: Global) -> Findings
        ensures { result ≡ beginning }
    {
        Findings {
            flaw: None,
            names: Seq::new(alloc),
        }
    }

    /// Keeps the flaw, if none comes before it.
    #[tactic(auto, unfolding(crate::specs::Flaws::noted))]
    pub fn note(&mut self, flaw: Flaw)
        ensures { self.new ≡ noted flaw self.old }
    {
        match &self.flaw {
            None => self.flaw = Some(flaw),
            Some(first) => {
                if flaw.comes_first(first) {
                    self.flaw = Some(flaw);
                }
            }
        }
    }
}
