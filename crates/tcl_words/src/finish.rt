// Words from their parts.

ghost use Rattle.std.specs.Prelude.{◌≡◌, ◌≤◌, ◌<◌, length, IfOk};
ghost use Rattle.tcl_words.specs.Finish.{is_plain, only_plain, is_literal, raw_of, filled};
ghost use Rattle.tcl_words.specs.Finish.{finished};
ghost use Rattle.tcl_words.specs.View.{part_view, parts_view, word_view};

use crate::script::{Form, Part, Span, Word};
use px_bytes::{M, Text};
use std::alloc::Global;

fn is_plain(part: &Part) -> bool
    ensures { result ≡ is_plain (part_view part.now) }
{
    match part {
        Part::Plain { .. } => true,
        Part::Variable { .. } | Part::Element { .. } | Part::Bracket { .. } => false,
    }
}

/// Whether the parts have no variable and no bracket.
fn only_plain(parts: &[Part]) -> bool
    ensures { result ≡ only_plain (parts_view parts.now) }
{
    match parts {
        [] => true,
        [part] => is_plain(part),
        _ => false,
    }
}

/// Whether the word's inner bytes have nothing to replace.
#[tactic(auto, unfolding(crate::specs::Finish::is_literal))]
fn is_literal(inner: &[u8], parts: &[Part]) -> bool
    ensures { result ≡ is_literal inner.now (parts_view parts.now) }
{
    only_plain(parts) && !inner.contains(&b'\\')
}

/// The raw bytes of the word, if it keeps them.
fn raw_of(alloc: Global, form: Form, inner: &[u8], parts: &[Part]) -> M<Option<Text>>
    ensures { IfOk result (λ raw. raw ≡ raw_of form inner.now (parts_view parts.now)) }
{
    let keeps = match form {
        Form::Braced => true,
        Form::Bare | Form::Quoted => is_literal(inner, parts),
    };
    if !keeps {
        return Ok(None);
    }
    let raw = Text::new(alloc, inner)?;
    Ok(Some(raw))
}

/// The parts, or an empty plain one where there is none.
fn filled(alloc: Global, at: usize, parts: Vec<Part>) -> M<Vec<Part>>
    ensures { IfOk result (λ v. parts_view v.items ≡ filled at (parts_view parts.items)) }
{
    if !parts.is_empty() {
        return Ok(parts);
    }
    let span = Span { start: at, end: at };
    let text = Text::empty(alloc);
    let mut parts = Vec::new(alloc);
    parts.push(Part::Plain { span, text })?;
    Ok(parts)
}

/// The word of these parts.
pub fn finished(
    alloc: Global,
    text: &[u8],
    span: Span,
    form: Form,
    inner: Span,
    parts: Vec<Part>,
) -> M<Word>
    requires ordered { inner.start ≤ inner.end }
    requires within { inner.end ≤ length text.now }
    ensures { IfOk result (λ w. word_view w
        ≡ finished text.now span form inner (parts_view parts.items)) }
{
    let raw = raw_of(alloc, form, &text[inner.start..inner.end], &parts)?;
    let parts = filled(alloc, inner.start, parts)?;
    Ok(Word {
        span,
        form,
        inner,
        raw,
        parts,
    })
}
