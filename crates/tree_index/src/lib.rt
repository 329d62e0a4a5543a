// The index slots of an array tree: where they stand, what they name, and how they are set.
#![tactic(auto)]

mod naming;
mod spots;

pub use naming::{index_key, refresh};
