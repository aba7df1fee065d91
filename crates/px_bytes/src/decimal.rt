// Decimal numbers.

ghost use Rattle.std.specs.Prelude.{◌≡◌, ℕ, ◌^◌, ◌<◌, ◌≤◌, ◌↔◌, IsTrue, IfSome, IfNone};
ghost use Rattle.std.specs.Fmt.{decimal};
ghost use Rattle.px_bytes.specs.Decimal.{BeginsPlainly};

/// A decimal number of at most `most`, without sign and without needless zeros. It takes no memory.
pub fn read_decimal(text: &[u8], most: u64) -> Option<u64>
    ensures found { IfSome result (λ n. (text.now ≡ decimal n) × (n ≤ most)) }
    ensures none { IfNone result ((n : ℕ) → n ≤ most → ¬ (text.now ≡ decimal n)) }
{
    match read_u64(text) {
        Some(number) if number <= most => Some(number),
        _ => None,
    }
}

fn read_u64(text: &[u8]) -> Option<u64>
    ensures found { IfSome result (λ n. text.now ≡ decimal n) }
    ensures none { IfNone result ((n : ℕ) → n < 2 ^ 64 → ¬ (text.now ≡ decimal n)) }
{
    if !begins_plainly(text) {
        return None;
    }
    match str::from_utf8(text) {
        Ok(digits) => digits.parse().ok(),
        Err(_) => None,
    }
}

// `parse` takes a sign and needless zeros, which a decimal doesn't begin with.
fn begins_plainly(text: &[u8]) -> bool
    ensures { IsTrue result ↔ BeginsPlainly text.now }
{
    matches!(text, [b'0'] | [b'1'..=b'9', ..])
}
