// The desk for a whole day: a desk that loads logs and can be opened, and the desk over the open yard.
#![tactic(auto)]

mod open_desk;
mod opening;
mod opening_desk;

pub use open_desk::OpenDesk;
pub use opening::{SIZE_SLOTS, TAG_SLOTS};
pub use opening_desk::OpeningDesk;
