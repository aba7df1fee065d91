// What the cuts and orders are.

ghost use Rattle.std.specs.Prelude.{ℕ, List};
ghost use Rattle.test_orders.specs.Laws.{EachCutOnce, EachOrderOnce, PiecesAreWhole};

/// The law that no two cuts are the same, and that one is there exactly for each place that has
/// bytes of its text on both sides.
pub fn each_cut_once()
    ensures { (lengths : List ℕ) → EachCutOnce lengths }
{}

/// The law that no two orders are the same, and that one is there exactly where what is of each
/// group stays in order.
pub fn each_order_once()
    ensures { (groups : List ℕ) → EachOrderOnce groups }
{}

/// The law that the pieces of a text are that text, by each cut, and that none is empty.
pub fn pieces_are_whole()
    ensures { PiecesAreWhole }
{}
