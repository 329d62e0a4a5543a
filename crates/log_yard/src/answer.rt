use logs::Log;

// What an accepted call answers.
#[derive(Clone, Copy, Debug, PartialEq, Eq)]
pub enum Answer {
    Done,
    Found(Log),
    // how many logs were written, and whether more follow
    Listed(usize, bool),
}
