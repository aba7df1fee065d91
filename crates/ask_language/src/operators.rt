// The operators of tcl_expr.

ghost use Rattle.std.specs.Prelude.{◌≡◌, ◌<◌};

use px_bytes::{Raise, Steps, Text};
use questions::Question;
use std::alloc::Global;
use std::marker::Brand;
use std::sync::ledger::{Blank, Ledger};
use tcl_expr::{Op1, Op2, apply1, apply2};

pub fn one_answer(question: &mut Question<'_>) {
    let name = question.word();
    let x = question.text();
    match op1(name) {
        Some(op) => {
            let value = one::<Brand>(question.alloc, op, x.as_bytes(), Blank::new(1));
            question.say_value(&value);
        }
        None => question.unknown(),
    }
}

pub fn two_answer(question: &mut Question<'_>) {
    let name = question.word();
    let x = question.text();
    let y = question.text();
    match op2(name) {
        Some(op) => {
            let value = two::<Brand>(
                question.alloc,
                op,
                x.as_bytes(),
                y.as_bytes(),
                Blank::new(1),
            );
            question.say_value(&value);
        }
        None => question.unknown(),
    }
}

fn one<L: Ledger>(alloc: Global, op: Op1, x: &[u8], blank: Blank) -> Result<Text, Raise>
    requires name { blank.name ≡ L.name }
    requires parts { blank.parts ≡ L.parts }
    requires some { 0 < blank.parts }
{
    let mut steps = Steps::<L>::new(blank);
    apply1(alloc, op, x, &mut steps)
}

fn two<L: Ledger>(alloc: Global, op: Op2, x: &[u8], y: &[u8], blank: Blank) -> Result<Text, Raise>
    requires name { blank.name ≡ L.name }
    requires parts { blank.parts ≡ L.parts }
    requires some { 0 < blank.parts }
{
    let mut steps = Steps::<L>::new(blank);
    apply2(alloc, op, x, y, &mut steps)
}

fn op1(name: &str) -> Option<Op1> {
    match name {
        "Plus" => Some(Op1::Plus),
        "Neg" => Some(Op1::Neg),
        "BitNot" => Some(Op1::BitNot),
        "Not" => Some(Op1::Not),
        _ => None,
    }
}

fn op2(name: &str) -> Option<Op2> {
    match name {
        "Mul" => Some(Op2::Mul),
        "Div" => Some(Op2::Div),
        "Mod" => Some(Op2::Mod),
        "Add" => Some(Op2::Add),
        "Sub" => Some(Op2::Sub),
        "Shl" => Some(Op2::Shl),
        "Shr" => Some(Op2::Shr),
        "Less" => Some(Op2::Less),
        "Greater" => Some(Op2::Greater),
        "AtMost" => Some(Op2::AtMost),
        "AtLeast" => Some(Op2::AtLeast),
        "NumEq" => Some(Op2::NumEq),
        "NumNe" => Some(Op2::NumNe),
        _ => text_op(name),
    }
}

fn text_op(name: &str) -> Option<Op2> {
    match name {
        "TextEq" => Some(Op2::TextEq),
        "TextNe" => Some(Op2::TextNe),
        "Contains" => Some(Op2::Contains),
        "StartsWith" => Some(Op2::StartsWith),
        "EndsWith" => Some(Op2::EndsWith),
        "MatchesGlob" => Some(Op2::MatchesGlob),
        "BitAnd" => Some(Op2::BitAnd),
        "BitXor" => Some(Op2::BitXor),
        "BitOr" => Some(Op2::BitOr),
        _ => None,
    }
}
