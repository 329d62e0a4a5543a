// Search and shift in a lent row of slots, for every make of an index.
#![tactic(auto)]

mod halving;
mod shift;

pub use halving::{Bound, rank, search};
pub use shift::{blank, push_down, push_up};
