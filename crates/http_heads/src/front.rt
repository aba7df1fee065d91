// What stands where a head is due.

ghost use Rattle.std.specs.Prelude.{◌≡◌, ◌+◌, ◌≤◌, drop, length, nat_eq, nat_le, take};
ghost use Rattle.http_heads.specs.Fronts.{Looks, LooksAll, WereLooked, begins_blank, blank_length, head_limit};
ghost use Rattle.http_heads.specs.Fronts.{head_part, headless, none_looked};

use px_bytes::HttpFault;
use seg_buffer::find_crlf2;

/// A head is looked for in so many bytes.
const MOST_BYTES: usize = 65_536;

/// What stands at the front of a stream where a head is due.
#[derive(Clone, Copy)]
pub enum HeadPart {
    /// A head of so many bytes, with the empty lines before it.
    HeadOf(usize),
    /// Nothing more comes.
    StreamEnds,
    Faulty(HttpFault),
    /// No whole head yet.
    NoHead,
}

/// How many bytes at the front were looked at and held no head, and how many of them are empty lines.
#[derive(Clone, Copy)]
pub struct Looked {
    pub size: usize,
    pub blank: usize,
}

fn begins_blank(text: &[u8]) -> bool
    ensures { result ≡ begins_blank text.now }
{
    match text {
        [b'\r', b'\n', ..] => true,
        _ => false,
    }
}

// How many bytes the empty lines take, where these are the first ones.
fn blank_length(text: &[u8], first: usize) -> usize
    requires inside { first ≤ length text.now }
    requires blank { blank_length text.now ≡ first + blank_length (drop first text.now) }
    ensures value { result ≡ blank_length text.now }
    ensures within { result ≤ length text.now }
{
    let mut blank = first;
    for _line in first..text.len() {
        if !begins_blank(&text[blank..]) {
            return blank;
        }
        blank += 2;
    }
    blank
}

// No end of a head stands there.
fn headless(long: bool, ended: bool, empty: bool) -> HeadPart
    ensures { result ≡ headless long ended empty }
{
    match (long, ended, empty) {
        (true, _, _) => HeadPart::Faulty(HttpFault::LongHead),
        (false, true, true) => HeadPart::StreamEnds,
        (false, true, false) => HeadPart::Faulty(HttpFault::BadHead),
        (false, false, _) => HeadPart::NoHead,
    }
}

// The bytes in which a head is looked for.
fn front_of(unread: &[u8]) -> &[u8]
    ensures { result.now ≡ take head_limit unread.now }
{
    if unread.len() <= MOST_BYTES {
        return unread;
    }
    &unread[..MOST_BYTES]
}

impl Looked {
    // All of so many bytes were looked at, and hold no end of a head.
    fn no_end(&mut self, size: usize, blank: usize, ended: bool) -> HeadPart
        ensures part { result ≡ headless (nat_le head_limit size) ended (nat_eq size blank) }
        ensures looks { LooksAll result self.old self.new size blank }
    {
        let part = headless(size >= MOST_BYTES, ended, size == blank);
        if let HeadPart::NoHead = part {
            *self = Looked { size, blank };
        }
        part
    }

    /// Nothing was looked at yet.
    pub fn nothing() -> Looked
        ensures { result ≡ none_looked }
    {
        Looked { size: 0, blank: 0 }
    }

    /// What stands at the front, where more came behind what was looked at. These bytes aren't looked at again, but for
    /// the last three, in which the end of a head may begin.
    pub fn head_part(&mut self, unread: &[u8], ended: bool) -> HeadPart
        requires { WereLooked self.old unread.now }
        ensures part { result ≡ head_part unread.now ended }
        ensures looks { Looks result self.old self.new unread.now }
    {
        let front = front_of(unread);
        let blank = blank_length(front, self.blank);
        match find_crlf2(&front[blank..], self.size.saturating_sub(blank + 3)) {
            Some(place) => HeadPart::HeadOf(blank + place + 4),
            None => self.no_end(unread.len(), blank, ended),
        }
    }
}
