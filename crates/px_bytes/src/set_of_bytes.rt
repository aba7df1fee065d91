// Sets of bytes.

ghost use Rattle.std.specs.Prelude.{◌≡◌, ℕ};
ghost use Rattle.px_bytes.specs.ByteSet.{has_byte, is_among};

/// Whether each byte is in the set.
pub type ByteSet = [bool; 256];

/// The set of these bytes.
pub fn byte_set(bytes: &[u8]) -> ByteSet
    ensures { (byte : ℕ) → has_byte result byte ≡ is_among bytes.now byte }
{
    let mut set = [false; 256];
    for byte in bytes {
        set[usize::from(*byte)] = true;
    }
    set
}

pub fn has_byte(set: &ByteSet, byte: u8) -> bool
    ensures { result ≡ has_byte set.now byte }
{
    set[usize::from(byte)]
}
