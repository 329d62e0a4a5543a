// The ordered index: keys, slots, faults and what every make of an index promises.
#![tactic(auto)]

mod fault;
mod index;
mod key;
mod slot;

pub use fault::Fault;
pub use index::OrderedIndex;
pub use key::Key;
pub use slot::{MOST_SLOTS, Slot};
