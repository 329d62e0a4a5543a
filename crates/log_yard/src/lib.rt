// The log yard: two ordered indexes that agree, the calls on them, and their law over every list of calls.
#![tactic(auto)]

mod answer;
mod calling;
mod listing;
mod moves;
mod opening;
mod pairs;
mod refusal;
mod running;
mod serving;
mod yard;

pub use answer::Answer;
pub use opening::Unopened;
pub use refusal::{OpenRefusal, Refusal};
pub use serving::serve;
pub use yard::Yard;
