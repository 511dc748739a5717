// What a try and a settle answer.
use ctl::Verdict;

// The verdict at the bound that was tried, and the looks that it took. A type of its own beside the evaluator's
// judgement, which this crate does not see: a record answers a try too, and `ctl`,
// which both see, speaks of verdicts and of no call.
#[derive(Clone, Copy, PartialEq, Eq, Debug)]
pub struct Tried {
    pub verdict: Verdict,
    pub looks: u32,
}

// The verdict, the bound that gave it, the looks of all answered tries together, and how many tries were passed over.
#[derive(Clone, Copy, PartialEq, Eq, Debug)]
pub struct Settled {
    pub verdict: Verdict,
    pub bound: u16,
    pub looks: u64,
    pub passed: u16,
}
