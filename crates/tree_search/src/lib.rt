// Search in the slots of a standing array tree, one node of each level at a time.
#![tactic(auto)]

mod descent;
mod leaf;
mod seek;

pub use descent::target_leaf;
pub use leaf::leaf_slots;
pub use seek::{find, first_from};
