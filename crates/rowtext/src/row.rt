// One row: whether its state is a start, the letters it carries, and where it moves.

// A row text has at most so many lines, and every target is below this.
pub const MOST_ROWS: usize = 64;

#[derive(Drop)]
pub struct Row {
    pub start: bool,
    pub marks: Vec<u8>,
    pub targets: Vec<u16>,
}
