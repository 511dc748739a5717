// A whole row text, line by line.
ghost use Rattle.std.specs.Prelude.{◌≡◌, ◌≤◌, if◌then◌else◌, Some, None, length, take, drop};
ghost use Rattle.rowtext.specs.Claims.{RowTextHasOneAnswer};
ghost use Rattle.rowtext.specs.Faults.{Reads, has_lines};
ghost use Rattle.rowtext.specs.Steps.{LineOr};
ghost use Rattle.text.specs.Pieces.{newlines};

use crate::fault::RowFault;
use crate::reader::read_row;
use crate::row::{MOST_ROWS, Row};
use std::alloc::Global;
use std::ops::Range;
use text::lines::Lines;
use text::pieces::count_lines;

// How many lines the text has, if it is ended by byte 10 and they are 1 to 64.
fn lawful_count(text: &[u8]) -> Option<usize>
    ensures { result ≡ (if has_lines text.now then Some (newlines text.now) else None) }
{
    if text.last() != Some(&b'\n') {
        return None;
    }
    let count = count_lines(text);
    (count <= MOST_ROWS).then_some(count)
}

// The row of one line of the text.
fn read_line(
    heap: Global,
    text: &[u8],
    line: Range<usize>,
    count: usize,
) -> Result<(Row, Option<usize>), RowFault>
    requires { (line.start ≤ line.end) × (line.end ≤ length text.now) }
    ensures { LineOr count line.start (drop line.start (take line.end text.now)) result }
{
    read_row(heap, &text[..line.end], line.start, count)
}

// The rows that the text describes, or its first fault.
pub fn read_rows(heap: Global, text: &[u8]) -> Result<Vec<Row>, RowFault>
    ensures { Reads text.now result }
{
    let count = lawful_count(text).ok_or(RowFault::Lines)?;
    let mut rows = Vec::new(heap);
    let mut beyond = None;
    for line in Lines::of(text) {
        let (row, late) = read_line(heap, text, line, count)?;
        rows.push(row)?;
        beyond = beyond.or(late);
    }
    match beyond {
        Some(place) => Err(RowFault::Beyond(place)),
        None => Ok(rows),
    }
}

// A row text describes one list of rows or earns one fault, never both.
pub fn row_text_has_one_answer()
    ensures { RowTextHasOneAnswer }
{}
