// The commands of a host.

ghost use Rattle.std.specs.Prelude.{ℕ, List, [], ◌++◌};
ghost use Rattle.px_bytes.specs.Answered.{DidStep};
ghost use Rattle.rule_model.specs.Host.{Effect, HostStep};

use px_bytes::{HostAnswer, Texts};
use std::alloc::Global;

/// Host commands. `Env` is what the host only reads.
pub trait Host {
    type Env;

    /// What the definitions see of it.
    ghost Seen: { Type 0 };

    ghost seen: { Self → Self.Seen };

    /// The host came from the one to the other by making these effects.
    ghost made: { Self → List Effect → Self → Type 0 };

    /// What a command gives, and what is seen of the host after it.
    ghost table: { Self.Env → Self.Seen → List (List ℕ) → HostStep Self.Seen };

    /// Calls the command that the first word names.
    fn call(&mut self, alloc: Global, env: &Self::Env, words: &Texts) -> HostAnswer
        ensures { let step = Self.table env.now (Self.seen self.old) words.now in
            let made : List Effect → Type 0 = λ es. Self.made self.old es self.new in
            DidStep step result (Self.seen self.new) made };

    ghost made_none: { (a : Self) → Self.made a [] a };

    ghost made_both: { (a b c : Self) (es fs : List Effect)
        → Self.made a es b → Self.made b fs c → Self.made a (es ++ fs) c };
}
