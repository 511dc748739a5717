// A number written in base ten without leading zero.
ghost use Rattle.std.specs.Prelude.{◌<◌, ◌≤◌};
ghost use Rattle.text.specs.Figures.{FigureBelow};

// The number below `top` that the piece writes, if there is one; any number of figures is safe.
pub fn number(piece: &[u8], top: u32) -> Option<u32>
    requires { (0 < top) × (top ≤ 100000) }
    ensures { FigureBelow top piece.now result }
{
    if let [] | [b'0', _, ..] = piece {
        return None;
    }
    let mut n = 0;
    for b in piece {
        if !b.is_ascii_digit() {
            return None;
        }
        n = n * 10 + u32::from(*b - b'0');
        if n >= top {
            return None;
        }
    }
    Some(n)
}
