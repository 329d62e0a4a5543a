// The array tree: a complete tree of nodes in a lent row of slots.
#![tactic(auto)]

mod blanking;
mod closing;
mod feeding;
mod filling_tree;
mod index;
mod making;
mod standing_tree;
#[cfg(test)]
mod tests;

pub use filling_tree::FillingTree;
pub use standing_tree::ArrayTree;
