// Byte texts.

ghost use Rattle.std.specs.Prelude.{◌≡◌, ◌≤◌, ℕ, List, [], ◌++◌, Some, length, IfOk, OnOk, OnErr};
ghost use Rattle.std.specs.Bool.{OnTrue, OnFalse};
ghost use Rattle.std.specs.Fmt.{signed_decimal};
ghost use Rattle.px_bytes.specs.InPlace.{with_sum, behind};

use crate::{M, read_whole};
use itoa::Buffer;
use smallvec::SmallVec;
use std::alloc::Global;
use std::marker::Model;

/// How many bytes stand in the value itself.
const INSIDE: usize = 22;

/// A list of bytes. Up to 22 of them stand in the value itself, and take no memory.
#[derive(Drop)]
pub struct Text {
    bytes: SmallVec<u8, INSIDE>,
}

impl Model for Text {
    ghost Value = { List ℕ };

    ghost view = { λ t. t.bytes.items };
}

impl Text {
    /// These bytes.
    pub fn new(alloc: Global, bytes: &[u8]) -> M<Text>
        ensures { IfOk result (λ t. t ≡ bytes.now) }
    {
        Ok(Text {
            bytes: SmallVec::from_slice(alloc, bytes)?,
        })
    }

    /// No bytes, which takes no memory.
    pub fn empty(alloc: Global) -> Text
        ensures { result ≡ [] }
    {
        Text {
            bytes: SmallVec::new(alloc),
        }
    }

    /// The bytes of a vector, which becomes the text without a copy.
    pub fn from_vec(bytes: Vec<u8>) -> Text
        ensures { result ≡ bytes.items }
    {
        Text {
            bytes: SmallVec::from_vec(bytes),
        }
    }

    pub fn as_bytes(&self) -> &[u8]
        ensures { result.now ≡ self.now }
    {
        self.bytes.as_slice()
    }

    pub fn len(&self) -> usize
        ensures { result ≡ length self.now }
    {
        self.bytes.len()
    }

    pub fn copy(&self) -> M<Text>
        ensures { IfOk result (λ t. t ≡ self.now) }
    {
        Text::new(*self.bytes.allocator(), self.as_bytes())
    }

    /// Puts these bytes in place of its own, where both stand in the value itself: it tells whether
    /// it did, and takes no memory.
    #[inline]
    pub fn refill(&mut self, bytes: &[u8]) -> bool
        ensures done { OnTrue result (self.new ≡ bytes.now) }
        ensures short { OnTrue result (length self.new ≤ 22) }
        ensures undone { OnFalse result (self.new ≡ self.old) }
    {
        if self.bytes.spilled() || bytes.len() > INSIDE {
            return false;
        }
        self.bytes.clear();
        self.bytes.extend_from_slice(bytes).is_ok()
    }

    /// Puts a whole number in decimal in place of its bytes, where they stand in the value itself.
    pub fn refill_whole(&mut self, value: i64) -> bool
        ensures done { OnTrue result (self.new ≡ signed_decimal value) }
        ensures short { OnTrue result (length self.new ≤ 22) }
        ensures undone { OnFalse result (self.new ≡ self.old) }
    {
        let mut digits = Buffer::new();
        self.refill(digits.format(value).as_bytes())
    }

    /// Adds to the whole number that it is, where it is one and the sum is too, and it stands in
    /// the value itself: it tells whether it did, and takes no memory.
    pub fn add_whole(&mut self, more: i64) -> bool
        ensures done { OnTrue result (Some self.new ≡ with_sum self.old more) }
        ensures short { OnTrue result (length self.new ≤ 22) }
        ensures undone { OnFalse result (self.new ≡ self.old) }
    {
        let Some(number) = read_whole(self.as_bytes()) else {
            return false;
        };
        match number.checked_add(more) {
            Some(sum) => self.refill_whole(sum),
            None => false,
        }
    }

    /// Adds bytes at the end, and `between` before them where it isn't empty: whether it was done.
    /// Where memory is refused nothing changes.
    pub fn extend(&mut self, between: &[u8], more: &[u8]) -> bool
        ensures done { OnTrue result (self.new ≡ behind self.old between.now more.now) }
        ensures undone { OnFalse result (self.new ≡ self.old) }
    {
        if self.bytes.reserve(between.len() + more.len()).is_err() {
            return false;
        }
        if !self.bytes.is_empty() && self.bytes.extend_from_slice(between).is_err() {
            return false;
        }
        self.bytes.extend_from_slice(more).is_ok()
    }

    /// Adds bytes at the end.
    pub fn push(&mut self, more: &[u8]) -> M<()>
        ensures ok { OnOk result (self.new ≡ self.old ++ more.now) }
        ensures err { OnErr result (self.new ≡ self.old) }
    {
        self.bytes.extend_from_slice(more)?;
        Ok(())
    }
}
