// The straight row: an ordered index that keeps its pairs in the first slots of a lent row, in key order.
#![tactic(auto)]

mod row;

pub use row::StraightRow;
