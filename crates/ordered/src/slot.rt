// A place for one pair. The key and the value of a blank slot are free.
#[derive(Clone, Copy)]
pub struct Slot<K, R> {
    pub filled: bool,
    pub key: K,
    pub value: R,
}

// No more slots of a row count than these; later ones are never read or written.
pub const MOST_SLOTS: usize = 1_048_575;
