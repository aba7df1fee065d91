// What a run by steps tells.

use crate::outcome::{push_asks, push_number};
use px_bytes::{M, Text, Texts};
use std::alloc::Global;

/// How a body ended, the whole outcome, how many calls had a reply, the calls with their paths, and the last words of all calls
/// one after another.
#[derive(Drop)]
pub struct Run {
    pub end: Text,
    pub outcome: Text,
    pub asked: u32,
    pub calls: Text,
    pub last_words: Text,
}

impl Run {
    pub fn new(alloc: Global) -> Run {
        Run {
            end: Text::empty(alloc),
            outcome: Text::empty(alloc),
            asked: 0,
            calls: Text::empty(alloc),
            last_words: Text::empty(alloc),
        }
    }

    /// A call that gets a reply.
    pub fn note(&mut self, alloc: Global, path: &[usize], call: &Texts) -> M<()> {
        self.asked = self.asked.saturating_add(1);
        push_asks(alloc, &mut self.calls, call)?;
        let mut mark = b" at ".as_slice();
        for number in path {
            push_number(alloc, &mut self.calls, mark, *number as u64)?;
            mark = b".";
        }
        self.calls.push(b"; ")?;
        match call.as_slice().last() {
            Some(word) => self.last_words.push(word.as_bytes()),
            None => Ok(()),
        }
    }
}
