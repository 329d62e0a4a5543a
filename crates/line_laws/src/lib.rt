// A law over both ends of the lines: what is written of a log is read as that log.
#![tactic(auto)]

mod back;

pub use back::reread;
