// The parts of a channel file: rows, rules, and the last line, which says where the rules begin.
ghost use Rattle.std.specs.Prelude.{◌≡◌, ◌<◌, ◌≤◌, length};
ghost use Rattle.channel.specs.Files.{line_front};
ghost use Rattle.channel.specs.Steps.{LineBegins, LastOr, PartsOr};

use crate::fault::FormFault;
use crate::listing::MOST_BYTES;
use text::figures::number;

// An offset is below this: it has at most five figures.
const OFFSETS: u32 = 100000;

#[derive(Clone, Copy)]
pub(crate) struct Parts<'a> {
    pub(crate) rows: &'a [u8],
    pub(crate) rules: &'a [u8],
}

// Does a line begin at `at`?
fn is_line_front(file: &[u8], at: usize) -> bool
    requires { at ≤ length file.now }
    ensures { result ≡ line_front file.now at }
{
    at == 0 || file[at - 1] == b'\n'
}

// Where the line begins that ends at `end`.
fn front_of_line(file: &[u8], end: usize) -> usize
    requires { end ≤ length file.now }
    ensures { LineBegins file.now end result }
{
    let newline = file[..end].iter().rposition(|b| *b == b'\n');
    newline.map_or(0, |at| at + 1)
}

// The place of the last line's `@`, and the offset after it.
fn last_line(file: &[u8]) -> Option<(usize, usize)>
    ensures { LastOr file.now result }
{
    let lines = file.strip_suffix(b"\n")?;
    let at = front_of_line(file, lines.len());
    let figures = lines[at..].strip_prefix(b"@")?;
    let offset = number(figures, OFFSETS)?;
    Some((at, offset as usize))
}

pub(crate) fn split(file: &[u8]) -> Result<Parts<'_>, FormFault>
    ensures { PartsOr file.now result }
{
    if file.is_empty() || file.len() > MOST_BYTES {
        return Err(FormFault::Size);
    }
    let (at, offset) = last_line(file).ok_or(FormFault::LastLine)?;
    if offset > at || !is_line_front(file, offset) {
        return Err(FormFault::Offset);
    }
    Ok(Parts {
        rows: &file[..offset],
        rules: &file[offset..at],
    })
}
