// What operators give of whole numbers, without a text.

ghost use Rattle.std.specs.Prelude.{◌≡◌, ℕ, List, Ok, Some, IfSome};
ghost use Rattle.std.specs.Fmt.{signed_decimal};
ghost use Rattle.px_bytes.specs.Whole.{whole};
ghost use Rattle.tcl_expr.specs.Operators.{operator_value_2, printed, quotient, remainder};
ghost use Rattle.tcl_expr.specs.Operators.{tested, with_divisor};

use crate::Op2;

/// What an operator gives of two whole numbers, where it gives one in range: its value is that
/// number in decimal. None for what compares texts, for a shift and where there is a fault.
pub fn whole_2(op: Op2, a: i64, b: i64) -> Option<i64>
    ensures { (x y : List ℕ) → whole x ≡ Some a → whole y ≡ Some b
        → IfSome result (λ n. operator_value_2 op x y ≡ Ok (signed_decimal n)) }
{
    match op {
        Op2::Mul => a.checked_mul(b),
        Op2::Div => quotient(a, b),
        Op2::Mod => remainder(a, b),
        Op2::Add => a.checked_add(b),
        Op2::Sub => a.checked_sub(b),
        Op2::Less => test(a.cmp(&b).is_lt()),
        Op2::Greater => test(a.cmp(&b).is_gt()),
        Op2::AtMost => test(a.cmp(&b).is_le()),
        Op2::AtLeast => test(a.cmp(&b).is_ge()),
        Op2::NumEq => test(a.cmp(&b).is_eq()),
        Op2::NumNe => test(a.cmp(&b).is_ne()),
        Op2::BitAnd => Some(a & b),
        Op2::BitXor => Some(a ^ b),
        Op2::BitOr => Some(a | b),
        _ => None,
    }
}

// 1 where a test holds, and else 0.
fn test(holds: bool) -> Option<i64>
    ensures { IfSome result (λ n. tested holds ≡ Ok (signed_decimal n)) }
{
    Some(if holds { 1 } else { 0 })
}

// Of a positive divisor, as most are.
fn quotient(a: i64, b: i64) -> Option<i64>
    ensures { let value = with_divisor b (printed (quotient a b)) in
        IfSome result (λ n. value ≡ Ok (signed_decimal n)) }
{
    if b > 0 { Some(a.div_euclid(b)) } else { None }
}

fn remainder(a: i64, b: i64) -> Option<i64>
    ensures { let value = with_divisor b (printed (remainder a b)) in
        IfSome result (λ n. value ≡ Ok (signed_decimal n)) }
{
    if b > 0 { Some(a.rem_euclid(b)) } else { None }
}
