// The desk that answers a yard's lines: it reads a line, does what it asks for and writes the answer.
#![tactic(auto)]

mod desk;
mod loading;
mod loading_desk;
mod refusal;
mod reply;

pub use desk::{Answered, Desk};
pub use loading_desk::LoadingDesk;
pub use refusal::Refusal;
pub use reply::Reply;
