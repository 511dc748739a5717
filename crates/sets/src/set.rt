// A set of states: a value that is copied, one bit for each state.

// How many words of 64 bits a set has. Every size follows from it.
pub const WORDS: usize = 1;

// How many states a set has room for.
pub const STATES: usize = WORDS * 64;

// State s is bit s % 64 of word s / 64. A fixed array, by a rule of the project: a try never allocates.
#[derive(Clone, Copy, PartialEq, Eq, Debug)]
pub struct StateSet {
    pub(crate) words: [u64; WORDS],
}
