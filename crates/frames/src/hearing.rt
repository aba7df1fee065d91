// Codes that are heard, or not, and what a machine tells.

ghost use Rattle.std.specs.Prelude.{IfOk, map, ◌≡◌};
ghost use Rattle.rule_model.specs.Outcome.{heard_code};

use px_bytes::{M, Text, Texts};
use rule_model::Code;
use std::alloc::Global;

/// A value that nothing hears becomes the empty one.
#[inline(always)]
pub fn hear(alloc: Global, wanted: bool, code: Code) -> Code
    ensures { result ≡ heard_code wanted code }
{
    if wanted {
        return code;
    }
    match code {
        Code::Value(_) => Code::Value(Text::empty(alloc)),
        code => code,
    }
}

/// A copy of these texts.
#[tactic(auto, using(crate::proofs::Heard::map_same))]
pub fn copied(alloc: Global, texts: &Texts) -> M<Texts>
    ensures { IfOk result (λ all. all ≡ texts.now) }
{
    copies(alloc, texts.as_slice())
}

/// A copy of these.
pub fn copies(alloc: Global, texts: &[Text]) -> M<Texts>
    ensures { IfOk result (λ all. all ≡ map (λ t. t) texts.now) }
{
    let mut all = Texts::new(alloc);
    for text in texts {
        all.push(text.copy()?)?;
    }
    Ok(all)
}
