// What stands between tokens: white space, and lines whose first byte is `#`.

ghost use Rattle.std.specs.Prelude.{◌≡◌, ◌≤◌, length};
ghost use Rattle.tmsh_read.specs.Tokens.{gap_after, gap_len, spaced};

use px_bytes::is_space;

/// Where a byte between tokens stands.
#[derive(Clone, Copy)]
pub(crate) enum Gap {
    /// First of its line.
    LineStart,
    Within,
    /// In a line that is skipped.
    Remark,
}

fn spaced(byte: u8) -> Option<Gap>
    ensures { result ≡ spaced byte }
{
    if byte == b'\n' {
        Some(Gap::LineStart)
    } else if is_space(byte) {
        Some(Gap::Within)
    } else {
        None
    }
}

impl Gap {
    // Where the byte behind this one stands; none where this one begins a token.
    fn after(self, byte: u8) -> Option<Gap>
        ensures { result ≡ gap_after self byte }
    {
        match self {
            Gap::Remark if byte == b'\n' => Some(Gap::LineStart),
            Gap::Remark => Some(Gap::Remark),
            Gap::LineStart if byte == b'#' => Some(Gap::Remark),
            _ => spaced(byte),
        }
    }
}

/// How many bytes stand before the next token.
pub(crate) fn gap_len(gap: Gap, bytes: &[u8]) -> usize
    ensures len { result ≡ gap_len gap bytes.now }
    ensures within { result ≤ length bytes.now }
{
    let mut gap = gap;
    let mut len = 0;
    for byte in bytes {
        match gap.after(*byte) {
            Some(next) => gap = next,
            None => return len,
        }
        len += 1;
    }
    len
}
