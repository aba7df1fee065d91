// The side of the active table.

ghost use Rattle.std.specs.Prelude.{◌≡◌, ◌+◌, max, slice_get};
ghost use Rattle.table_mirror.specs.Sides.{place_in};

/// How many of its entries the active table has pushed, and how many it knows to be applied.
#[derive(Clone, Copy)]
pub struct Sender {
    pub pushed: usize,
    pub acked: usize,
}

impl Sender {
    /// So many entries were pushed.
    pub fn new(pushed: usize) -> Sender
        ensures { result ≡ record { pushed = pushed; acked = 0 } }
    {
        Sender { pushed, acked: 0 }
    }

    /// The place of the entry that stands so many behind the first that isn't acknowledged; none exactly
    /// where fewer were pushed.
    pub fn offer(self, at: u64) -> Option<usize>
        ensures { result ≡ place_in self.pushed (self.acked + at) }
    {
        let place = (self.acked as u64).checked_add(at)?;
        if place < self.pushed as u64 {
            Some(place as usize)
        } else {
            None
        }
    }

    /// So many entries were applied.
    pub fn ack(&mut self, upto: usize)
        ensures { self.new ≡ record self.old { acked = max self.old.acked upto } }
    {
        self.acked = self.acked.max(upto);
    }
}
