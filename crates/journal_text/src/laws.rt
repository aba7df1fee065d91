// Laws of lines.

ghost use Rattle.journal_text.specs.Laws.{FaultSpellsNone, OneEvent, WrittenIsRead};

/// A line spells one event at most.
pub fn one_event()
    ensures { OneEvent }
{}

/// A line that has a fault, other than that memory was refused, spells no event.
pub fn fault_spells_none()
    ensures { FaultSpellsNone }
{}

/// What is written of an event is read as the same event.
pub fn written_is_read()
    ensures { WrittenIsRead }
{}
