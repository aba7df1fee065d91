// What the words of an `if` are.

ghost use Rattle.std.specs.Prelude.{◌≡◌, ◌<◌, IfOk, IfSome, length, map, option_map};
ghost use Rattle.tcl_words.specs.View.{word_view};
ghost use Rattle.tcl_trees.specs.Forms.{behind_body, branches_in, if_form, last_body};
ghost use Rattle.tcl_compile.specs.IfView.{arms_view, behind_arms, branches_view, from_arm};
ghost use Rattle.tcl_compile.specs.IfView.{from_elseif};

use crate::texts::is_text;
use px_bytes::M;
use std::alloc::Global;
use tcl_words::Word;

/// A condition with its body.
#[derive(Drop)]
pub(crate) struct Arm<'a> {
    pub condition: &'a Word,
    pub body: &'a Word,
}

/// The conditions of an `if` with their bodies, and perhaps a last body.
#[derive(Drop)]
pub(crate) struct Branches<'a> {
    pub arms: Vec<Arm<'a>>,
    pub last: Option<&'a Word>,
}

/// The condition that stands first, its body and the words behind them.
fn first_arm(words: &[Word]) -> Option<(Arm<'_>, &[Word])>
    ensures goes_on { branches_in (map word_view words.now) ≡ from_arm result }
    ensures shorter { IfSome result (λ r. length r.1.now < length words.now) }
{
    let (condition, words) = words.split_first()?;
    let (word, behind) = words.split_first()?;
    if !is_text(word, b"then") {
        let body = word;
        return Some((Arm { condition, body }, behind));
    }
    let (body, behind) = behind.split_first()?;
    Some((Arm { condition, body }, behind))
}

/// The words behind `elseif`, where it stands first.
fn behind_elseif(words: &[Word]) -> Option<&[Word]>
    ensures goes_on { behind_body (map word_view words.now)
        ≡ from_elseif (map word_view words.now) result }
    ensures shorter { IfSome result (λ more. length more.now < length words.now) }
{
    let (word, more) = words.split_first()?;
    is_text(word, b"elseif").then_some(more)
}

/// The arms with what stands behind them, where that is no more than a last body.
fn with_last<'a>(arms: Vec<Arm<'a>>, words: &'a [Word]) -> Option<Branches<'a>>
    ensures { option_map branches_view result
        ≡ option_map (behind_arms (arms_view arms.entry.items)) (last_body (map word_view words.now)) }
{
    match words {
        [] => Some(Branches { arms, last: None }),
        [body] if !is_text(body, b"else") => Some(Branches {
            arms,
            last: Some(body),
        }),
        [word, body] if is_text(word, b"else") => Some(Branches {
            arms,
            last: Some(body),
        }),
        _ => None,
    }
}

/// The conditions of an `if` with their bodies, and its last body.
pub(crate) fn if_form(alloc: Global, words: &[Word]) -> M<Option<Branches<'_>>>
    ensures { IfOk result (λ r. option_map branches_view r ≡ if_form (map word_view words.now)) }
{
    let Some((_, mut left)) = words.split_first() else {
        return Ok(None);
    };
    let mut arms = Vec::new(alloc);
    while let Some((arm, behind)) = first_arm(left) {
        arms.push(arm)?;
        match behind_elseif(behind) {
            Some(more) => left = more,
            None => return Ok(with_last(arms, behind)),
        }
    }
    Ok(None)
}
