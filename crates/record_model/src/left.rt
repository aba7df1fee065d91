// What RULE_INIT leaves.

ghost use Rattle.std.specs.Prelude.{◌≡◌};
ghost use Rattle.record_model.specs.Init.{nothing_left};

use px_bytes::Texts;
use std::alloc::Global;
use tcl_vars::Vars;

/// What was left so far: the variables, and the lines that were logged.
#[derive(Drop)]
pub struct Left {
    pub vars: Vars,
    pub lines: Texts,
}

impl Left {
    pub fn new(alloc: Global) -> Left
        ensures { result ≡ nothing_left }
    {
        Left {
            vars: Vars::new(alloc),
            lines: Texts::new(alloc),
        }
    }
}
