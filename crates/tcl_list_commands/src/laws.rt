// What holds of lists in order.

ghost use Rattle.tcl_list_commands.specs.SortLaws.{SortHasTheSame, SortIsOrdered, SortKeepsEquals};

/// The law that no element is to stand before the one in front of it.
pub fn sort_is_ordered()
    ensures { SortIsOrdered }
{}

/// The law that the elements are those that were there.
pub fn sort_has_the_same()
    ensures { SortHasTheSame }
{}

/// The law that elements that are equal in an order keep theirs.
pub fn sort_keeps_equals()
    ensures { SortKeepsEquals }
{}
