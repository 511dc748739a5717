// The lines of a text, one after another.
ghost use Rattle.std.specs.Prelude.{◌≡◌, ◌-◌, ◌≤◌, length};
ghost use Rattle.std.specs.Iterator.{at_most};
ghost use Rattle.text.specs.Lines.{NextLine};

use crate::pieces::piece_end;
use std::ops::Range;

// Each line as the places from its front up to its byte 10; what no byte 10 ends is no line. The readers of a row
// and of a rule keep a text and a place too, and take other steps.
#[derive(Drop)]
pub struct Lines<'a> {
    text: &'a [u8],
    at: usize,
    ghost within: { at ≤ length text.now },
}

impl<'a> Lines<'a> {
    // The lines of the text, from its front.
    pub fn of(text: &'a [u8]) -> Lines<'a>
        ensures { (result.text.now ≡ text.now) × (result.at ≡ 0) }
    {
        Lines { text, at: 0 }
    }
}

impl Iterator for Lines<'_> {
    type Item = Range<usize>;

    ghost next_gives = { λ s r t. (t.text ≡ s.text) × NextLine s.text.now s.at t.at r };

    ghost remaining = { λ s. at_most (length s.text.now - s.at) };

    fn next(&mut self) -> Option<Range<usize>> {
        let end = piece_end(self.text, self.at, b'\n');
        if end == self.text.len() {
            return None;
        }
        let line = self.at..end;
        self.at = end + 1;
        Some(line)
    }
}
