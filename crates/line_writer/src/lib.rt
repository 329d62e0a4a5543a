// The lines of a yard's answers, written into a row of bytes.
#![tactic(auto)]

mod answers;
mod row;

pub use answers::{ROW, ShortRow, write_list, write_log, write_no, write_ok, write_open};
