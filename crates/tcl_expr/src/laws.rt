// What holds of expressions and operators.

ghost use Rattle.tcl_expr.specs.Binding.{PrefixesBind, RowsBindInOrder, RowsGroupFromTheLeft};
ghost use Rattle.tcl_expr.specs.Blanks.{BlanksChangeOnlyPlaces};
ghost use Rattle.tcl_expr.specs.DivisionLaw.{DivisionAddsUp};
ghost use Rattle.tcl_expr.specs.GrammarLaws.{MoreRoomIsSame, OneExpression, ReadingIsGrammar};
ghost use Rattle.tcl_expr.specs.Precedence.{Precedence};

/// The law that a quotient times its divisor and the remainder add up to what was divided, and that
/// the remainder is 0 or has the divisor's sign, and is smaller.
#[tactic(auto, using(crate::proofs::DivisionAddsUp::division_adds_up))]
pub fn division_adds_up()
    ensures { DivisionAddsUp }
{}

/// The law that the reading gives an expression exactly where the text is one by the grammar.
pub fn reading_is_grammar()
    ensures { ReadingIsGrammar }
{}

/// The law that a text is at most one expression.
pub fn one_expression()
    ensures { OneExpression }
{}

/// With more room a text is the same expression: room does nothing but refuse.
pub fn more_room_is_same()
    ensures { MoreRoomIsSame }
{}

/// The law that white space between the tokens of an expression changes nothing but places.
pub fn blanks_change_only_places()
    ensures { BlanksChangeOnlyPlaces }
{}

/// How operators bind.
#[tactic(auto, using(crate::proofs::ExpressionRows::precedence))]
pub fn precedence()
    ensures { Precedence }
{}

/// Each row of operators binds tighter than the next, signs tighter than all, `not` looser than a
/// comparison, and the operators of a row group from the left: computed over the whole table.
pub fn rows_bind()
    ensures in_order { RowsBindInOrder }
    ensures prefixes { PrefixesBind }
    ensures from_the_left { RowsGroupFromTheLeft }
{}
