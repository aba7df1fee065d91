// Moments.

ghost use Rattle.std.specs.Prelude.{ℕ, ◌≤◌};

/// A clock that counts milliseconds. Its moments are known where the clock tells them.
pub trait Clock {
    /// From the first state this moment leads to the second.
    ghost gave: { Self → ℕ → Self → Type 0 };

    /// How often the clock could not be read, counted up to 2 ^ 64 - 1.
    ghost faults: { Self → ℕ };

    /// The present moment, or the last one again where the clock can't be read, which counts.
    fn now(&mut self) -> u64
        ensures gave { gave self.old result self.new }
        ensures faults_never_fall { faults self.old ≤ faults self.new };
}
