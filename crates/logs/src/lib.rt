// What a log is, the two kinds of key that logs are found by, and what a yard is asked.
#![tactic(auto)]

mod call;
mod keys;
mod limits;
mod log;
mod species;

pub use call::Call;
pub use keys::{Size, Tag};
pub use limits::Limits;
pub use log::{Body, Log, Place, Rest};
pub use species::Species;
