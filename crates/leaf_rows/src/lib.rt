// Pairs put into and taken out of the leaves of a tree: a lent row of slots, one leaf after the other.
#![tactic(auto)]

mod leaves;
mod placing;

pub use placing::{Span, put};
