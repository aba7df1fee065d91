// Files by name.

ghost use Rattle.std.specs.Prelude.{◌≡◌, ℕ, ◌≤◌, List, Option, IfOk, IfSome, IsErrOf};
ghost use Rattle.px_outside.specs.Outside.{Rose};

use crate::Failed;
use px_bytes::Text;
use std::alloc::Global;

/// Files that are read by name. What they hold is known where they tell it.
pub trait Files {
    /// The contents of a name, where the files tell it.
    ghost told: { Self → List ℕ → Option (List ℕ) };

    /// How often a read failed, counted up to 2 ^ 64 - 1.
    ghost faults: { Self → ℕ };

    /// The whole contents of a name. A name that isn't there is a fault.
    fn read(&mut self, alloc: Global, name: &[u8]) -> Result<Text, Failed>
        ensures contents { IfOk result (λ text.
            IfSome (told self.old name.now) (λ bytes. text ≡ bytes)) }
        ensures same_files { told self.new ≡ told self.old }
        ensures faults_never_fall { faults self.old ≤ faults self.new }
        ensures failed_is_counted { IsErrOf result Failed.Failed →
            Rose (faults self.old) (faults self.new) };
}
