// How far a text has been read.

ghost use Rattle.std.specs.Prelude.{◌≡◌, ◌≤◌, length};
ghost use Rattle.tcl_words.specs.Faults.{noted, closed};

use crate::parse_fault::Fault;
use crate::places::stands;

/// How far a text has been read, and the fault to be told so far.
#[derive(Clone, Copy)]
pub struct Progress {
    pub at: usize,
    pub fault: Option<Fault>,
}

impl Progress {
    /// Keeps the fault, if none comes before it.
    #[tactic(auto, unfolding(crate::specs::Faults::noted))]
    pub fn note(&mut self, fault: Fault)
        ensures value { self.new ≡ noted fault self.old }
        ensures stays { self.new.at ≡ self.old.at }
    {
        match &self.fault {
            None => self.fault = Some(fault),
            Some(first) => {
                if fault.comes_first(first) {
                    self.fault = Some(fault);
                }
            }
        }
    }

    /// Takes the construct's last byte, or notes that it is missing.
    #[tactic(auto, unfolding(crate::specs::Faults::closed, crate::specs::Places::stands))]
    pub fn close(&mut self, text: &[u8], byte: u8, fault: Fault)
        requires { self.old.at ≤ length text.now }
        ensures value { self.new ≡ closed byte fault text.now self.old }
        ensures within { self.new.at ≤ length text.now }
        ensures onward { self.old.at ≤ self.new.at }
    {
        if stands(text, self.at, byte) {
            self.at += 1;
        } else {
            self.note(fault);
        }
    }
}
