// Where a piece of a text ends, and how many lines a text has.
ghost use Rattle.std.specs.Prelude.{◌≡◌, ◌≤◌, length};
ghost use Rattle.text.specs.Pieces.{PieceEnd, newlines};

// The first delimiter of the text, or its end.
fn first_end(text: &[u8], delimiter: u8) -> usize
    ensures { PieceEnd delimiter text.now 0 result }
{
    let ahead = text.iter().position(|b| *b == delimiter);
    ahead.unwrap_or(text.len())
}

// The next delimiter from `at` on, or the text's end.
pub fn piece_end(text: &[u8], at: usize, delimiter: u8) -> usize
    requires { at ≤ length text.now }
    ensures { PieceEnd delimiter text.now at result }
{
    at + first_end(&text[at..], delimiter)
}

// How many lines the text ends by byte 10.
pub fn count_lines(text: &[u8]) -> usize
    ensures { result ≡ newlines text.now }
{
    text.iter().filter(|b| **b == b'\n').count()
}
