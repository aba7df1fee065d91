// Numbers that wait for their turn.

ghost use Rattle.std.specs.Prelude.{◌≡◌, ◌++◌, ◌∷◌, ◌<◌, ◌↔◌, [], false, IfSome, IsTrue, OnOk, OnErr, length, max};
ghost use Rattle.std.specs.Prelude.{nat_eq, option_to_list, slice_get};
ghost use Rattle.std.specs.List.{position_from};
ghost use Rattle.index_lists.specs.Ring.{is_in, without};

use std::alloc::{AllocError, Global};
use std::collections::VecDeque;
use std::marker::Model;

/// Numbers that wait for their turn, each once.
#[derive(Drop)]
pub struct Ring {
    numbers: VecDeque<u32>,
    room: usize,
}

impl Model for Ring {
    ghost use Rattle.std.specs.Prelude.{◌≤◌, nat_eq};
    ghost use Rattle.std.specs.List.{IsDistinct};
    ghost use Rattle.std.specs.VecDeque.{deque_capacity};
    ghost use Rattle.index_lists.specs.Ring.{Ring as Numbers};

    ghost Value = { Numbers };

    ghost view = { λ r. record { items = r.numbers.items; room = r.room } };

    ghost invariant = { λ r. IsDistinct nat_eq r.numbers.items × (r.room ≤ deque_capacity r.numbers) };
}

impl Ring {
    /// No numbers and no room, which takes no memory.
    pub fn new(alloc: Global) -> Self
        ensures items { result.items ≡ [] }
        ensures room { result.room ≡ 0 }
    {
        Ring {
            numbers: VecDeque::new(alloc),
            room: 0,
        }
    }

    /// Makes room for so many numbers. No later call with no more of them takes memory.
    pub fn reserve(&mut self, room: usize) -> Result<(), AllocError>
        ensures items { self.new.items ≡ self.old.items }
        ensures ok { OnOk result (self.new.room ≡ max self.old.room room) }
        ensures err { OnErr result (self.new.room ≡ self.old.room) }
    {
        if room <= self.room {
            return Ok(());
        }
        let more = room.saturating_sub(self.numbers.len());
        self.numbers.reserve_exact(more)?;
        self.room = room;
        Ok(())
    }

    /// How many numbers there are.
    pub fn len(&self) -> usize
        ensures { result ≡ length self.now.items }
    {
        self.numbers.len()
    }

    pub fn is_empty(&self) -> bool
        ensures { IsTrue result ↔ (self.now.items ≡ []) }
    {
        self.numbers.is_empty()
    }

    /// The number that waits for the longest time.
    pub fn front(&self) -> Option<u32>
        ensures { result ≡ slice_get self.now.items 0 }
    {
        self.numbers.front().copied()
    }

    /// Puts a number that isn't there at the back.
    pub fn push(&mut self, number: u32)
        requires room { length self.old.items < self.old.room }
        requires absent { is_in self.old.items number ≡ false }
        ensures items { self.new.items ≡ self.old.items ++ number ∷ [] }
        ensures room { self.new.room ≡ self.old.room }
    {
        self.numbers.push_back_reserved(number);
    }

    /// Takes the number at the front off.
    pub fn pop(&mut self) -> Option<u32>
        ensures front { result ≡ slice_get self.old.items 0 }
        ensures items { self.old.items ≡ option_to_list result ++ self.new.items }
        ensures once { IfSome result (λ number. is_in self.new.items number ≡ false) }
        ensures room { self.new.room ≡ self.old.room }
    {
        self.numbers.pop_front()
    }

    /// Takes a number out, wherever it stands. Whether it was there. It goes through all numbers.
    pub fn unlink(&mut self, number: u32) -> bool
        ensures was { result ≡ is_in self.old.items number }
        ensures items { self.new.items ≡ without number self.old.items }
        ensures out { is_in self.new.items number ≡ false }
        ensures room { self.new.room ≡ self.old.room }
    {
        let Some(at) = place(&self.numbers, number) else {
            return false;
        };
        let _ = self.numbers.remove(at);
        true
    }
}

fn place(numbers: &VecDeque<u32>, number: u32) -> Option<usize>
    ensures { result ≡ position_from (nat_eq number) 0 numbers.now.items }
{
    numbers.iter().position(|n| number == *n)
}
