// A shared call is answered.

ghost use Rattle.std.specs.Prelude.{◌≡◌, ◌≤◌, ◌+◌, ◌++◌, List, length};
ghost use Rattle.core_events.specs.declared.note.Note.{Note};
ghost use Rattle.proxy_core.specs.Changes.{TurnsQueue};

use crate::core_state::Core;
use crate::ring::find;
use core_events::Notes;

impl Core {
    /// Answers the call that waits for the longest time, at the present moment. Its connection gets
    /// ready. On an empty queue nothing happens.
    pub(crate) fn turn(&mut self, notes: &mut Notes)
        requires { 68 ≤ notes.old.spare }
        ensures turns { (group : List Note) × (notes.new.items ≡ notes.old.items ++ group)
            × TurnsQueue self.old self.new self.old.queue.items group }
        ensures few_notes { length notes.new.items ≤ length notes.old.items + 68 }
    {
        let Some(asked) = self.queue.pop() else {
            return;
        };
        let Some(at) = find(&self.live, asked.conn) else {
            return;
        };
        self.live[at].answer(self.alloc, &mut self.store, asked, self.moment, notes);
        self.live.make_ready(at);
    }
}
