// Where an array tree stands in a row of slots.
#![tactic(auto)]

mod layout;
mod row;

pub use layout::Layout;
