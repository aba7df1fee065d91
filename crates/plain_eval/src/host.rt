// The commands of a host.

ghost use Rattle.std.specs.Prelude.{ℕ, List};
ghost use Rattle.rule_model.specs.Host.{HostStep};
ghost use Rattle.plain_eval.specs.Plain.{Answers};

use px_bytes::{HostAnswer, Texts};
use std::alloc::Global;

/// Host commands. `Env` is what the host only reads.
pub trait PlainHost {
    type Env;

    /// What a command gives, and the host's state after it.
    ghost table: { Self.Env → Self → List (List ℕ) → HostStep Self };

    /// Calls the command that the first word names.
    fn call(&mut self, alloc: Global, env: &Self::Env, words: &Texts) -> HostAnswer
        ensures { Answers (table env.now self.old words.now) result self.new };
}
