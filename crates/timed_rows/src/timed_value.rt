// What stands under a key.

/// A value, its deadline, and the slot of its key.
#[derive(Drop)]
pub struct TimedValue<T> {
    pub(crate) value: T,
    pub(crate) due: Option<u64>,
    pub(crate) slot: u32,
}
