// Lines cut out of an input that comes in chunks. A line of any length is known by its first 201 bytes:
// one more than a line may have, so that a longer one is seen to be too long and never stored whole.
#![tactic(auto)]

mod line;

pub use line::LineBuffer;
