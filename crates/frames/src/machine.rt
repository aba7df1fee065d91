// A body by steps.

ghost use Rattle.std.specs.Prelude.{OnOk, [], length, ◌≡◌};
ghost use Rattle.rule_model.specs.Outcome.{reply_code};
ghost use Rattle.frames.specs.Frames.{path_of};
ghost use Rattle.frames.specs.Went.{IsAsked};

use crate::frame::{Mode, Standing};
use crate::stops;
use px_bytes::{M, Reply};
use rule_nodes::code_of_reply;
use std::alloc::Global;

/// A body that stops where it asks a shared call, and goes on with the reply.
#[derive(Drop)]
pub struct Machine {
    pub at: Standing,
    pub ticked: u64,
}

impl Machine {
    /// A machine before a body's first command, with this budget.
    pub fn start(alloc: Global, budget: u32) -> Machine
        ensures frames { result.at.frames.items ≡ [] }
        ensures mode { result.at.mode ≡ Mode.Begin }
        ensures budget { result.at.budget ≡ budget }
    {
        Machine {
            at: Standing {
                frames: Vec::new(alloc),
                mode: Mode::Begin,
                budget,
            },
            ticked: 0,
        }
    }

    /// The same, with the memory that the machine has.
    pub fn restart(&mut self, budget: u32)
        ensures frames { self.new.at.frames.items ≡ [] }
        ensures mode { self.new.at.mode ≡ Mode.Begin }
        ensures budget { self.new.at.budget ≡ budget }
    {
        self.at.frames.clear();
        self.at.mode = Mode::Begin;
        self.at.budget = budget;
    }

    /// Takes the reply to the call that waits.
    pub fn resume(&mut self, reply: &Reply) -> M<()>
        requires { IsAsked self.old.at.mode }
        ensures { OnOk result
            (self.new.at ≡ record self.old.at { mode = Mode.Back (reply_code reply.now) }) }
    {
        self.at.mode = Mode::Back(code_of_reply(reply)?);
        Ok(())
    }

    /// How often the last step ticked.
    pub fn ticked(&self) -> u64
        ensures { result ≡ self.now.ticked }
    {
        self.ticked
    }

    /// How many numbers the path has to the node on which the body stands.
    pub fn depth(&self) -> usize
        ensures { result ≡ length (path_of self.now.at.frames.items) }
    {
        stops::depth(self.at.frames.as_slice())
    }

    /// Writes that path, from the body on; where a call waits it is the place of its command.
    pub fn stopped_at(&self, out: &mut [usize])
        requires { length out.old ≡ length (path_of self.now.at.frames.items) }
        ensures { out.new ≡ path_of self.now.at.frames.items }
    {
        stops::fill(self.at.frames.as_slice(), out);
    }
}
