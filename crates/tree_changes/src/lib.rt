// Changes of a standing array tree: a pair put in, replaced or taken out, and the index slots that this concerns renewed.
#![tactic(auto)]

mod placing;
mod removing;
mod replacing;

pub use placing::put_pair;
pub use removing::take_pair;
pub use replacing::set_pair;
