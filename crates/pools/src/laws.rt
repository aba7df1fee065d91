// What holds of selections.

ghost use Rattle.pools.specs.Laws.{EachRoundIsFair, NoneWhereNoneIsUp, SelectedIsUp};
ghost use Rattle.pools.specs.Laws.{WishKeepsTurn};

/// The law that each member has its share of a round.
pub fn each_round_is_fair()
    ensures { EachRoundIsFair }
{}

/// The law that no member is found exactly where none is up.
pub fn none_where_none_is_up()
    ensures { NoneWhereNoneIsUp }
{}

/// The law that a member that is selected is up.
pub fn selected_is_up()
    ensures { SelectedIsUp }
{}

/// The law that the wish for a member that is up doesn't move the counter.
pub fn wish_keeps_turn()
    ensures { WishKeepsTurn }
{}
