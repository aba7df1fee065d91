// Texts between braces, which close each other.

ghost use Rattle.std.specs.Prelude.{◌≡◌, ◌<◌, ◌≤◌, ◌^◌, IfSome, length};
ghost use Rattle.tmsh_read.specs.Braced.{after, braced_len, closed, none_open};

/// How many braces stand open behind a front of a text, and whether it ends on a backslash, which
/// makes the next byte count for nothing.
#[derive(Clone, Copy)]
pub struct Braces {
    pub depth: usize,
    pub escaped: bool,
}

impl Braces {
    /// Before the first byte.
    pub fn new() -> Braces
        ensures { result ≡ none_open }
    {
        Braces {
            depth: 0,
            escaped: false,
        }
    }

    /// Goes a byte on; none where it closes a brace that isn't open.
    pub fn after(self, byte: u8) -> Option<Braces>
        requires { self.depth < 2 ^ 63 }
        ensures { result ≡ after self byte }
    {
        let Braces { depth, escaped } = self;
        if escaped {
            return Some(Braces {
                depth,
                escaped: false,
            });
        }
        match byte {
            b'\\' => Some(Braces {
                depth,
                escaped: true,
            }),
            b'{' => Some(Braces {
                depth: depth + 1,
                escaped,
            }),
            b'}' if depth == 0 => None,
            b'}' => Some(Braces {
                depth: depth - 1,
                escaped,
            }),
            _ => Some(self),
        }
    }

    /// Whether a text may end here.
    pub fn closed(self) -> bool
        ensures { result ≡ closed self }
    {
        self.depth == 0 && !self.escaped
    }
}

/// How many bytes stand before the brace that closes the one before them; none where there is none.
pub(crate) fn braced_len(bytes: &[u8]) -> Option<usize>
    ensures len { result ≡ braced_len none_open bytes.now }
    ensures within { IfSome result (λ len. len < length bytes.now) }
{
    let mut braces = Braces::new();
    let mut len = 0;
    for byte in bytes {
        match braces.after(*byte) {
            Some(next) => braces = next,
            None => return Some(len),
        }
        len += 1;
    }
    None
}
