// Random row texts and rule texts, from a fixed seed.
ghost use Rattle.std.specs.Prelude.{◌<◌};

use std::alloc::{AllocError, Global};

#[derive(Clone, Copy)]
pub(crate) struct Random(pub(crate) u64);

impl Random {
    fn next(&mut self) -> u64 {
        let mut x = self.0;
        x ^= x.wrapping_shl(13);
        x ^= x.wrapping_shr(7);
        x ^= x.wrapping_shl(17);
        self.0 = x;
        x
    }

    // A number below n; 0 if n is 0, so that callers need not show that it is not.
    pub(crate) fn below(&mut self, n: usize) -> usize
        ensures { 0 < n → result < n }
    {
        let x = self.next().wrapping_shr(11);
        (x as usize).checked_rem(n).unwrap_or(0)
    }

    fn chance(&mut self) -> bool {
        self.below(2) == 1
    }

    // One of the texts.
    fn pick<T: Copy, const N: usize>(&mut self, from: &[T; N]) -> T
        requires { 0 < N }
    {
        from[self.below(N)]
    }
}

// One line: a sign, some of the letters a to c, and at least one target below `count`.
fn random_line(heap: Global, random: &mut Random, count: usize) -> Result<String, AllocError> {
    let mut line = String::from_str(heap, if random.chance() { "*" } else { "-" })?;
    for letter in "abc".chars() {
        if random.chance() {
            line.push(letter)?;
        }
    }
    let sure = random.below(count);
    let mut before = ">";
    for t in 0..count {
        if t == sure || random.chance() {
            write!(line, "{before}{t}")?;
            before = ",";
        }
    }
    line.push_str("\n")?;
    Ok(line)
}

// A row text of one to five lines.
pub(crate) fn random_rows(heap: Global, random: &mut Random) -> Result<String, AllocError> {
    let mut text = String::new(heap);
    let count = random.below(5).saturating_add(1);
    for _ in 0..count {
        let line = random_line(heap, random, count)?;
        text.push_str(line.as_str())?;
    }
    Ok(text)
}

// A letter, its negation, or a constant.
const LEAVES: [&str; 8] = ["a", "b", "c", "!a", "!b", "!c", "0", "1"];

const FRONTS: [&str; 6] = ["AX", "AF", "AG", "EX", "EF", "EG"];

const JOINTS: [(&str, &str); 6] = [
    ("(", "&"),
    ("(", "|"),
    ("A(", "U"),
    ("A(", "R"),
    ("E(", "U"),
    ("E(", "R"),
];

// Appends a unit of at most so many layers.
pub(crate) fn random_rule(
    random: &mut Random,
    layers: u8,
    text: &mut String,
) -> Result<(), AllocError> {
    if layers == 0 {
        return text.push_str(random.pick(&LEAVES));
    }
    match random.below(6) {
        0 => text.push_str(random.pick(&LEAVES)),
        1 => {
            text.push_str("!")?;
            random_rule(random, layers - 1, text)
        }
        2 | 3 => {
            text.push_str(random.pick(&FRONTS))?;
            random_rule(random, layers - 1, text)
        }
        _ => {
            let (front, joint) = random.pick(&JOINTS);
            text.push_str(front)?;
            random_rule(random, layers - 1, text)?;
            text.push_str(joint)?;
            random_rule(random, layers - 1, text)?;
            text.push_str(")")
        }
    }
}
