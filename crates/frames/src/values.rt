// The words of a command that are evaluated.

ghost use Rattle.std.specs.Prelude.{IfOk, [], length, not, nat_lt, sum_by};
ghost use Rattle.std.specs.Prelude.{true, ◌∷◌, ◌++◌, ◌≡◌, ◌≤◌};
ghost use Rattle.px_bytes.specs.Limit.{text_limit};

use px_bytes::{M, TEXT_LIMIT, Text, Texts};
use std::alloc::Global;
use std::marker::Model;

/// Words in order, which aren't longer together than a text may be. How many bytes they have is
/// kept beside them, so that a word more is added without a look at the others.
#[derive(Drop)]
pub struct Values {
    texts: Texts,
    total: usize,
}

impl Model for Values {
    ghost use Rattle.std.specs.Prelude.{ℕ, List, length, sum_by, ◌≡◌, ◌≤◌};
    ghost use Rattle.px_bytes.specs.Limit.{text_limit};

    ghost Value = { List (List ℕ) };

    ghost view = { λ v. v.texts };

    ghost invariant = { λ v. (v.total ≡ sum_by length v.texts) × (v.total ≤ text_limit) };
}

impl Values {
    /// No words.
    #[inline(always)]
    pub fn new(alloc: Global) -> Values
        ensures { result ≡ [] }
    {
        Values {
            texts: Texts::new(alloc),
            total: 0,
        }
    }

    /// The name of a command alone.
    #[inline(always)]
    pub fn of_name(alloc: Global, name: &[u8]) -> M<Values>
        requires { length name.now ≤ text_limit }
        ensures { IfOk result (λ values. values ≡ name.now ∷ []) }
    {
        let mut texts = Texts::new(alloc);
        texts.push(Text::new(alloc, name)?)?;
        Ok(Values {
            texts,
            total: name.len(),
        })
    }

    /// Adds a word, unless they would be longer together than a text may be.
    #[inline(always)]
    pub fn add(&mut self, word: Text) -> M<bool>
        ensures fits { let all = self.old ++ word ∷ [] in
            IfOk result (λ fits. fits ≡ not (nat_lt text_limit (sum_by length all))) }
        ensures added { IfOk result (λ fits. fits ≡ true → self.new ≡ self.old ++ word ∷ []) }
    {
        let more = word.len();
        if more > TEXT_LIMIT - self.total {
            return Ok(false);
        }
        self.texts.push(word)?;
        self.total += more;
        Ok(true)
    }

    /// The words.
    #[inline(always)]
    pub fn into_texts(self) -> Texts
        ensures { result ≡ self }
    {
        self.texts
    }
}
