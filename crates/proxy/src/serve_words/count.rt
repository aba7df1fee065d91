// How often, where the words say it.

ghost use Rattle.std.specs.Prelude.{◌≡◌, ◌≤◌, ℕ, IfNone, IfSome, option_map};
ghost use Rattle.proxy.specs.ServeWords.{IsCount};

use px_bytes::read_decimal;

/// A count from 1 to `most`, which stands where none is given.
pub fn count_of(given: Option<&str>, most: u64) -> Option<u64>
    ensures some { IfSome result (λ n. IsCount (option_map (λ t. t.now) given.entry) most n) }
    ensures within { IfSome result (λ n. n ≤ most) }
    ensures none { IfNone result
        ((n : ℕ) → ¬ (IsCount (option_map (λ t. t.now) given.entry) most n)) }
{
    let Some(text) = given else {
        return Some(most);
    };
    match read_decimal(text.as_bytes(), most) {
        Some(count) if count > 0 => Some(count),
        _ => None,
    }
}
