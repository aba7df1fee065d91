// The rows of operators in expressions, from the tightest:
//
// | row | operators |
// |---|---|
// | 1 | `- + ~ !` before an operand |
// | 2 | `* / %` |
// | 3 | `+ -` |
// | 4 | `<< >>` |
// | 5 | `< > <= >=` |
// | 6 | `== !=` |
// | 7 | `eq ne equals contains starts_with ends_with matches_glob matches` |
// | 8 | `&` |
// | 9 | `^` |
// | 10 | `|` |
// | 11 | `not` before an operand |
// | 12 | `&& and` |
// | 13 | `|| or` |

ghost use Rattle.std.specs.Prelude.{◌≡◌, ◌≤◌, ◌<◌, ◌^◌, length, IfSome};
ghost use Rattle.tcl_expr.specs.Tokens.{joint_at, prefix_at};

use crate::tokens::first_word;
use crate::{Joint, Op1, Op2};

/// Words and what they mean in a row. One that means nothing is a longer operator of another row.
type Words<T, const N: usize> = [(&'static [u8], Option<T>); N];

const SIGNS: Words<Op1, 5> = [
    (b"!=", None),
    (b"-", Some(Op1::Neg)),
    (b"+", Some(Op1::Plus)),
    (b"~", Some(Op1::BitNot)),
    (b"!", Some(Op1::Not)),
];

const PRODUCTS: Words<Joint, 3> = [
    (b"*", Some(Joint::Both(Op2::Mul))),
    (b"/", Some(Joint::Both(Op2::Div))),
    (b"%", Some(Joint::Both(Op2::Mod))),
];

const SUMS: Words<Joint, 2> = [
    (b"+", Some(Joint::Both(Op2::Add))),
    (b"-", Some(Joint::Both(Op2::Sub))),
];

const SHIFTS: Words<Joint, 2> = [
    (b"<<", Some(Joint::Both(Op2::Shl))),
    (b">>", Some(Joint::Both(Op2::Shr))),
];

const ORDERS: Words<Joint, 4> = [
    (b"<=", Some(Joint::Both(Op2::AtMost))),
    (b">=", Some(Joint::Both(Op2::AtLeast))),
    (b"<", Some(Joint::Both(Op2::Less))),
    (b">", Some(Joint::Both(Op2::Greater))),
];

const EQUALITIES: Words<Joint, 2> = [
    (b"==", Some(Joint::Both(Op2::NumEq))),
    (b"!=", Some(Joint::Both(Op2::NumNe))),
];

const TEXT_TESTS: Words<Joint, 8> = [
    (b"equals", Some(Joint::Both(Op2::TextEq))),
    (b"eq", Some(Joint::Both(Op2::TextEq))),
    (b"ne", Some(Joint::Both(Op2::TextNe))),
    (b"contains", Some(Joint::Both(Op2::Contains))),
    (b"starts_with", Some(Joint::Both(Op2::StartsWith))),
    (b"ends_with", Some(Joint::Both(Op2::EndsWith))),
    (b"matches_glob", Some(Joint::Both(Op2::MatchesGlob))),
    (b"matches", Some(Joint::Both(Op2::MatchesGlob))),
];

const BIT_ANDS: Words<Joint, 2> = [(b"&&", None), (b"&", Some(Joint::Both(Op2::BitAnd)))];

const BIT_XORS: Words<Joint, 1> = [(b"^", Some(Joint::Both(Op2::BitXor)))];

const BIT_ORS: Words<Joint, 2> = [(b"||", None), (b"|", Some(Joint::Both(Op2::BitOr)))];

const OPPOSITES: Words<Op1, 1> = [(b"not", Some(Op1::Not))];

const ANDS: Words<Joint, 2> = [(b"&&", Some(Joint::And)), (b"and", Some(Joint::And))];

const ORS: Words<Joint, 2> = [(b"||", Some(Joint::Or)), (b"or", Some(Joint::Or))];

/// The operator before an operand of the row that stands at the place, and the place after it.
#[tactic(auto, unfolding(crate::specs::Tokens::prefix_at))]
pub(crate) fn prefix_at(row: u8, text: &[u8], at: usize) -> Option<(Op1, usize)>
    requires { at ≤ length text.now }
    ensures value { result ≡ prefix_at row text.now at }
    ensures within { IfSome result (λ found. found.1 ≤ length text.now) }
    ensures onward { IfSome result (λ found. at < found.1) }
{
    match row {
        1 => first_word(&SIGNS, text, at),
        11 => first_word(&OPPOSITES, text, at),
        _ => None,
    }
}

/// The operator between two operands of the row that stands at the place, and the place after it.
#[tactic(auto, unfolding(crate::specs::Tokens::joint_at))]
pub(crate) fn joint_at(row: u8, text: &[u8], at: usize) -> Option<(Joint, usize)>
    requires { at ≤ length text.now }
    ensures value { result ≡ joint_at row text.now at }
    ensures within { IfSome result (λ found. found.1 ≤ length text.now) }
    ensures onward { IfSome result (λ found. at < found.1) }
{
    match row {
        2 => first_word(&PRODUCTS, text, at),
        3 => first_word(&SUMS, text, at),
        4 => first_word(&SHIFTS, text, at),
        5 => first_word(&ORDERS, text, at),
        6 => first_word(&EQUALITIES, text, at),
        7 => first_word(&TEXT_TESTS, text, at),
        8 => first_word(&BIT_ANDS, text, at),
        9 => first_word(&BIT_XORS, text, at),
        10 => first_word(&BIT_ORS, text, at),
        12 => first_word(&ANDS, text, at),
        13 => first_word(&ORS, text, at),
        _ => None,
    }
}
