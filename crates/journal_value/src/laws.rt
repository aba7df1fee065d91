// Laws of journals.

ghost use Rattle.journal_value.specs.Journal.{FaultHasNoJournal, WrittenJournalIsRead};

/// A journal that was written is read back as its events and notes: `read_journal` gives no other.
pub fn written_journal_is_read()
    ensures { WrittenJournalIsRead }
{}

/// A text with a faulty line is no journal: it has a fault only where memory was refused.
pub fn fault_has_no_journal()
    ensures { FaultHasNoJournal }
{}
