// One line of a row text, read from its sign to its last target.
ghost use Rattle.std.specs.Prelude.{◌≡◌, ◌≤◌, length, drop, if◌then◌else◌, Some, None, nat_le};
ghost use Rattle.rowtext.specs.Steps.{Peeked, SignOr, MarksOr, TargetOr, TargetsOr, LineOr};

use crate::fault::RowFault;
use crate::row::{MOST_ROWS, Row};
use std::alloc::Global;
use text::figures::number;
use text::pieces::piece_end;

// The text up to a line's end, and how far it is read: places are those of the whole text, and the
// steps count `at` themselves, since a fault tells it. `same` is no fact of a reader: it ties its text
// before a step to that after it. The count of lines is no field: each step would have to say that it
// stays. It shares its fields with the rule reader, and no step with that or with `Lines`.
#[derive(Drop)]
struct Reader<'a> {
    text: &'a [u8],
    at: usize,
    heap: Global,
    ghost within: { at ≤ length text.now },
}

impl Reader<'_> {
    fn peek(&self) -> Option<u8>
        ensures { Peeked self.now.text.now self.now.at result }
    {
        self.text.get(self.at).copied()
    }

    fn sign(&mut self) -> Result<bool, RowFault>
        ensures same { self.new.text ≡ self.old.text }
        ensures took { SignOr self.old.at (drop self.old.at self.old.text.now) (drop self.new.at self.new.text.now) result }
    {
        let start = match self.peek() {
            Some(b'*') => true,
            Some(b'-') => false,
            _ => return Err(RowFault::Sign(self.at)),
        };
        self.at += 1;
        Ok(start)
    }

    // The letters up to `>`, and the `>`.
    fn marks(&mut self) -> Result<Vec<u8>, RowFault>
        ensures same { self.new.text ≡ self.old.text }
        ensures took { MarksOr self.old.at (drop self.old.at self.old.text.now) (drop self.new.at self.new.text.now) result }
    {
        let mut marks = Vec::new(self.heap);
        let mut low = b'a';
        while let Some(b) = self.peek() {
            match b {
                b'>' => {
                    self.at += 1;
                    return Ok(marks);
                }
                b'a'..=b'z' if low <= b => {
                    marks.push(b)?;
                    low = b + 1;
                    self.at += 1;
                }
                _ => return Err(RowFault::Marks(self.at)),
            }
        }
        Err(RowFault::Marks(self.at))
    }

    // The piece up to the next comma or the line's end, as a target from `low` on.
    fn target(&mut self, low: u16) -> Result<u16, RowFault>
        ensures same { self.new.text ≡ self.old.text }
        ensures took { TargetOr low self.old.at (drop self.old.at self.old.text.now) (drop self.new.at self.new.text.now) result }
    {
        let from = self.at;
        let end = piece_end(self.text, self.at, b',');
        self.at = end;
        match number(&self.text[from..end], MOST_ROWS as u32) {
            Some(t) if low <= t as u16 => Ok(t as u16),
            _ => Err(RowFault::Target(from)),
        }
    }

    // All targets, with the place of the first that is not below `count`: a pair and no error, since such a
    // target is told only where no line has another fault.
    fn targets(&mut self, count: usize) -> Result<(Vec<u16>, Option<usize>), RowFault>
        ensures { TargetsOr count self.old.at (drop self.old.at self.old.text.now) result }
    {
        let mut targets = Vec::new(self.heap);
        let mut beyond = None;
        let mut low = 0;
        loop {
            let from = self.at;
            let t = self.target(low)?;
            targets.push(t)?;
            beyond = beyond.or(beyond_at(t, count, from));
            if self.at >= self.text.len() {
                return Ok((targets, beyond));
            }
            low = t + 1;
            self.at += 1;
        }
    }

    fn row(&mut self, count: usize) -> Result<(Row, Option<usize>), RowFault>
        ensures { LineOr count self.old.at (drop self.old.at self.old.text.now) result }
    {
        let start = self.sign()?;
        let marks = self.marks()?;
        let (targets, beyond) = self.targets(count)?;
        Ok((
            Row {
                start,
                marks,
                targets,
            },
            beyond,
        ))
    }
}

// The place of a target that is not below `count`.
fn beyond_at(t: u16, count: usize, at: usize) -> Option<usize>
    ensures { result ≡ (if nat_le count t then Some at else None) }
{
    (usize::from(t) >= count).then_some(at)
}

// The line that ends with `text`, from `at` on.
pub(crate) fn read_row(
    heap: Global,
    text: &[u8],
    at: usize,
    count: usize,
) -> Result<(Row, Option<usize>), RowFault>
    requires { at ≤ length text.now }
    ensures { LineOr count at (drop at text.now) result }
{
    let mut reader = Reader { text, at, heap };
    reader.row(count)
}
