// The program over any input and output: lines come in, each is handed to the desk, and its answer goes out.
#![tactic(auto)]

mod input;
mod serving;

pub use serving::{load, serve};
