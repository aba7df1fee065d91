// The side of the standby.

ghost use Rattle.std.specs.Prelude.{◌≡◌, IfOk, OnErr, OnOk, None};
ghost use Rattle.session_table.specs.Tables.{after, expired, new_table, replied};
ghost use Rattle.table_mirror.specs.Entries.{entry_view};
ghost use Rattle.table_mirror.specs.Mirrored.{differs, same_fault, same_reply, unless_same};
ghost use Rattle.table_mirror.specs.Sides.{Left, Refused, TakenTo, applied_or, is_other, taken_by};

use crate::entry::PushedEntry;
use px_bytes::{M, Memory, Raise, Reply, TclFault};
use session_table::{SessionTable, check_words};
use std::alloc::Global;

/// What a standby says to an entry.
#[derive(Drop)]
pub enum EntryTaken {
    /// It was the next, and the table gave its reply.
    Applied,
    /// It was applied before.
    Old,
    /// Others come before it.
    Ahead,
    /// The table gives another reply: the standby is of no use any more.
    Differs(Reply),
}

impl EntryTaken {
    /// Whether the table gave another reply.
    pub fn is_other(&self) -> bool
        ensures { result ≡ is_other self.now }
    {
        matches!(self, EntryTaken::Differs(_))
    }
}

/// A table, and how many entries were applied to it.
#[derive(Drop)]
pub struct Standby {
    pub table: SessionTable,
    pub applied: usize,
}

impl Standby {
    /// No entry was applied; `limit`: how many rows the table may have.
    pub fn new(alloc: Global, limit: u32) -> Standby
        ensures { result ≡ record { table = new_table limit; applied = 0 } }
    {
        Standby {
            table: SessionTable::new(alloc, limit),
            applied: 0,
        }
    }

    /// The entry of this place arrives, the first that was pushed being 0.
    pub fn take(&mut self, alloc: Global, place: usize, entry: &PushedEntry<'_>) -> M<EntryTaken>
        ensures taken { IfOk result (λ t. t ≡ taken_by self.old place (entry_view entry.now)) }
        ensures standby { IfOk result (λ t. TakenTo t self.old self.new (entry_view entry.now)) }
        ensures err { OnErr result (Refused self.old self.new (entry_view entry.now)) }
    {
        if place < self.applied {
            return Ok(EntryTaken::Old);
        }
        if place > self.applied {
            return Ok(EntryTaken::Ahead);
        }
        self.apply(alloc, entry)
    }

    // The entry is the next.
    fn apply(&mut self, alloc: Global, entry: &PushedEntry<'_>) -> M<EntryTaken>
        ensures taken { IfOk result (λ t. t ≡ applied_or (differs self.old.table (entry_view entry.now))) }
        ensures standby { IfOk result (λ t. TakenTo t self.old self.new (entry_view entry.now)) }
        ensures err { OnErr result (Refused self.old self.new (entry_view entry.now)) }
    {
        let Some(applied) = self.applied.checked_add(1) else {
            return Err(Memory);
        };
        let other = answer(&mut self.table, alloc, entry)?;
        if let Some(ours) = other {
            return Ok(EntryTaken::Differs(ours));
        }
        self.applied = applied;
        Ok(EntryTaken::Applied)
    }
}

// Answers an entry, and gives the reply where it isn't the entry's.
fn answer(table: &mut SessionTable, alloc: Global, entry: &PushedEntry<'_>) -> M<Option<Reply>>
    ensures other { IfOk result (λ other. other ≡ differs table.old (entry_view entry.now)) }
    ensures table { IfOk result (λ other. other ≡ None
        → table.new ≡ after table.old entry.now.moment entry.now.words.now) }
    ensures err { OnErr result (Left table.old table.new entry.now.moment) }
{
    match check_words(alloc, entry.words) {
        Ok(()) => answer_call(table, alloc, entry),
        Err(Raise::Fault(fault)) => Ok(Some(Reply::Fault(fault))),
        Err(Raise::Memory) => Err(Memory),
    }
}

// The words are a call.
fn answer_call(table: &mut SessionTable, alloc: Global, entry: &PushedEntry<'_>) -> M<Option<Reply>>
    ensures other { IfOk result (λ other. other
        ≡ unless_same (replied table.old entry.now.moment entry.now.words.now) entry.now.reply.now) }
    ensures table { OnOk result (table.new ≡ after table.old entry.now.moment entry.now.words.now) }
    ensures err { OnErr result (table.new ≡ expired entry.now.moment table.old) }
{
    let ours = table.answer(alloc, entry.words, entry.moment)?;
    if same_reply(&ours, entry.reply) {
        Ok(None)
    } else {
        Ok(Some(ours))
    }
}

fn same_reply(ours: &Reply, theirs: &Reply) -> bool
    ensures { result ≡ same_reply ours.now theirs.now }
{
    match (ours, theirs) {
        (Reply::Ok(a), Reply::Ok(b)) => a.as_bytes() == b.as_bytes(),
        (Reply::Fault(a), Reply::Fault(b)) => same_fault(a, b),
        _ => false,
    }
}

fn same_fault(a: &TclFault, b: &TclFault) -> bool
    ensures { result ≡ same_fault a.now b.now }
{
    a.kind as u8 == b.kind as u8 && a.text.as_bytes() == b.text.as_bytes()
}
