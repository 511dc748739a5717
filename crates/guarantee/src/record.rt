// What a roster remembers of a rule.
ghost use Rattle.std.specs.Prelude.{◌≡◌};
ghost use Rattle.guarantee.specs.Records.{no_record, known_at, found_by, noted};

use ctl::Verdict;

// A bound at which a verdict was reached, with that verdict.
#[derive(Clone, Copy, PartialEq, Eq, Debug)]
pub struct Found {
    pub bound: u16,
    pub verdict: Verdict,
}

// The highest bound answered undecided, and the lowest answered with a verdict.
#[derive(Clone, Copy, PartialEq, Eq, Debug)]
pub struct Record {
    pub undecided: Option<u16>,
    pub found: Option<Found>,
}

impl Record {
    // The record of a rule that was never tried. No Default: a derived one says
    // nothing to a clause, and one written out is no shorter than this.
    pub fn new() -> Record
        ensures { result ≡ no_record }
    {
        Record {
            undecided: None,
            found: None,
        }
    }

    // Notes the verdict that an evaluation at `bound` gave.
    pub fn note(&mut self, bound: u16, verdict: Verdict)
        ensures { self.new ≡ noted self.old bound verdict }
    {
        match verdict {
            Verdict::Undecided => {
                self.undecided = Some(self.undecided.map_or(bound, |highest| highest.max(bound)));
            }
            Verdict::Holds | Verdict::Fails => {
                if self.found.is_none_or(|found| bound < found.bound) {
                    self.found = Some(Found { bound, verdict });
                }
            }
        }
    }

    // The verdict recorded at or below `bound`.
    pub fn found_by(&self, bound: u16) -> Option<Verdict>
        ensures { result ≡ found_by self.now.found bound }
    {
        self.found
            .filter(|found| found.bound <= bound)
            .map(|found| found.verdict)
    }

    // What the record says of `bound`, if it says anything.
    pub fn known_at(&self, bound: u16) -> Option<Verdict>
        ensures { result ≡ known_at self.now bound }
    {
        let undecided = self.undecided.filter(|highest| bound <= *highest);
        self.found_by(bound)
            .or(undecided.map(|_| Verdict::Undecided))
    }
}
