// Numbers without sign.

ghost use Rattle.std.specs.Prelude.{◌≡◌, ◌<◌, ◌≤◌, ◌^◌};
ghost use Rattle.std.specs.Str.Parse.{AllDigits, digits_value};

/// The number that digits of the radix write, which is below 2^63.
pub(crate) fn number_of(radix: u32, digits: &[u8]) -> u64
    requires least { 2 ≤ radix }
    requires most { radix ≤ 16 }
    requires digits { AllDigits radix digits.now }
    requires small { digits_value radix digits.now < 2 ^ 63 }
    ensures { result ≡ digits_value radix digits.now }
{
    let mut number: u64 = 0;
    for byte in digits {
        let digit = char::from(*byte).to_digit(radix).unwrap_or(0);
        number = number * u64::from(radix) + u64::from(digit);
    }
    number
}
