// Slots of keys, and their deadlines.

ghost use Rattle.std.specs.Prelude.{◌≡◌, ℕ, ◌<◌, ◌≤◌, IfOk, OnOk, length, slice_set};
ghost use Rattle.slab.specs.Slab.{HasRoomFor};
ghost use Rattle.index_lists.specs.Wheel.{due_of};

use index_lists::Wheel;
use slab::Slab;
use std::alloc::AllocError;

/// Makes room for one more key, and tells its slot.
pub(crate) fn room_for_one<K>(keys: &mut Slab<K>, dues: &mut Wheel) -> Result<u32, AllocError>
    ensures keys { keys.new ≡ record keys.old { capacity = keys.new.capacity } }
    ensures dues { (slot : ℕ) → due_of dues.new.dues slot ≡ due_of dues.old.dues slot }
    ensures more { length dues.old.dues ≤ length dues.new.dues }
    ensures room { OnOk result (HasRoomFor keys.new 1) }
    ensures reserved { OnOk result (keys.new.capacity ≤ length dues.new.dues) }
    ensures slot { IfOk result (λ slot. slot ≡ keys.new.vacant_key) }
{
    keys.reserve(1)?;
    reserve(dues, keys.capacity())?;
    number(keys.vacant_key())
}

/// Gives a slot a deadline, or takes it away.
pub(crate) fn set_due(dues: &mut Wheel, slot: u32, due: Option<u64>)
    requires { slot < length dues.old.dues }
    ensures { dues.new.dues ≡ slice_set dues.old.dues slot due }
{
    match due {
        Some(due) => dues.put(slot, due),
        None => {
            dues.cancel(slot);
        }
    }
}

fn reserve(dues: &mut Wheel, room: usize) -> Result<(), AllocError>
    ensures dues { (slot : ℕ) → due_of dues.new.dues slot ≡ due_of dues.old.dues slot }
    ensures more { length dues.old.dues ≤ length dues.new.dues }
    ensures ok { OnOk result (room ≤ length dues.new.dues) }
{
    dues.reserve(number(room)?)
}

// A number that a slot may have, as one of which there may be a deadline.
fn number(n: usize) -> Result<u32, AllocError>
    ensures { IfOk result (λ m. m ≡ n) }
{
    match u32::try_from(n) {
        Ok(m) => Ok(m),
        Err(_) => Err(AllocError),
    }
}
