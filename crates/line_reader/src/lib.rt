// What a line of the yard's format says, or the first reason why it is refused.
#![tactic(auto)]

mod draft;
mod fields;
mod forms;
mod reader;
mod request;

pub use reader::read_request;
pub use request::{Reason, Refused, Request, Word};
