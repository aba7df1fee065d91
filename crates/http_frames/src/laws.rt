// What holds of the units of streams that come in fragments.

ghost use Rattle.http_frames.specs.Cuttings.{CutsAreNotSeen, CutsAreRead, EachIsRead, NotYetMayBecome};
ghost use Rattle.http_frames.specs.NextUnit.{UnitIsOne};
ghost use Rattle.http_frames.specs.Parts.{PartsAreThere, PartsStay};

/// The law that for every cutting of a stream into fragments the units are the same, neighbouring
/// pieces of a body joined.
pub fn cuts_are_not_seen()
    ensures { CutsAreNotSeen }
{}

/// The law that every cutting of a stream has units, of which the law above speaks.
pub fn cuts_are_read()
    ensures { CutsAreRead }
{}

/// The law that a unit that was found stays the unit whatever follows, but that a piece may become
/// longer.
pub fn each_is_read()
    ensures { EachIsRead }
{}

/// The law that where nothing is there yet, what is held is the front of a unit.
pub fn not_yet_may_become()
    ensures { NotYetMayBecome }
{}

/// The law that there is one unit at the front of what is held, and that it is `unit_of`.
pub fn unit_is_one()
    ensures { UnitIsOne }
{}

/// The law that a part that is there stays, whatever follows.
pub fn parts_stay()
    ensures { PartsStay }
{}

/// The law that what a part takes is there.
pub fn parts_are_there()
    ensures { PartsAreThere }
{}
