// What holds of the fault that is told, and of configurations.

ghost use Rattle.config.specs.Laws.{FirstIsTold, LoadedIsFilled, OneConfiguration};

/// The law that the fault that is told has the smallest number, and is the first with it.
pub fn first_is_told()
    ensures { FirstIsTold }
{}

/// The law that a document is one configuration only.
pub fn one_configuration()
    ensures { OneConfiguration }
{}

/// The law that a proxy can be given each configuration that loads: the keys of its data groups are
/// of their kinds, and the members of its pools may be.
pub fn loaded_is_filled()
    ensures { LoadedIsFilled }
{}
