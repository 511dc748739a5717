// Rule texts and what becomes of each: the table that the tests run the reader over. The reader's
// contract is proved; these show its meaning by example, and that memory never runs out on them.
#![tactic(auto)]

// A text, and what it is refused with; or nothing, if it is taken. By number and place and not by the fault, so
// that `number` and `place` are tried too.
pub struct Case {
    pub text: &'static str,
    pub refusal: Option<(u8, usize)>,
}

// A text of `times` openings, a middle and as many closings.
pub struct Nest {
    pub open: &'static str,
    pub times: usize,
    pub middle: &'static str,
    pub close: &'static str,
    pub refusal: Option<(u8, usize)>,
}

// A text, and what stands at the root of its tree and of its negation's.
pub struct Root {
    pub text: &'static str,
    pub kept: &'static str,
    pub negated: &'static str,
}

// The signs that cannot stand behind a beginning.
pub struct Place {
    pub beginning: &'static str,
    pub misplaced: &'static str,
}

pub static CASES: [Case; 68] = [
    // Each kind of unit.
    Case {
        text: "a",
        refusal: None,
    },
    Case {
        text: "z",
        refusal: None,
    },
    Case {
        text: "0",
        refusal: None,
    },
    Case {
        text: "1",
        refusal: None,
    },
    Case {
        text: "!a",
        refusal: None,
    },
    Case {
        text: "!!a",
        refusal: None,
    },
    Case {
        text: "(a)",
        refusal: None,
    },
    Case {
        text: "AXa",
        refusal: None,
    },
    Case {
        text: "AFa",
        refusal: None,
    },
    Case {
        text: "AGa",
        refusal: None,
    },
    Case {
        text: "EXa",
        refusal: None,
    },
    Case {
        text: "EFa",
        refusal: None,
    },
    Case {
        text: "EGa",
        refusal: None,
    },
    Case {
        text: "A(aUb)",
        refusal: None,
    },
    Case {
        text: "A(aRb)",
        refusal: None,
    },
    Case {
        text: "E(aUb)",
        refusal: None,
    },
    Case {
        text: "E(aRb)",
        refusal: None,
    },
    // Joined units and terms, and rules inside rules.
    Case {
        text: "a&b&c",
        refusal: None,
    },
    Case {
        text: "a|b|c",
        refusal: None,
    },
    Case {
        text: "a&b|!c&d",
        refusal: None,
    },
    Case {
        text: "(a|b)&(c|d)",
        refusal: None,
    },
    Case {
        text: "AG(!c|AF o)",
        refusal: None,
    },
    Case {
        text: "E(a|bUc&d)",
        refusal: None,
    },
    Case {
        text: "A(E(aUb)RAX!(c))",
        refusal: None,
    },
    Case {
        text: "AXEFAG!a&b",
        refusal: None,
    },
    // Spaces before, between and behind all other signs.
    Case {
        text: " a",
        refusal: None,
    },
    Case {
        text: "a ",
        refusal: None,
    },
    Case {
        text: "  a  ",
        refusal: None,
    },
    Case {
        text: "! a",
        refusal: None,
    },
    Case {
        text: "A X a",
        refusal: None,
    },
    Case {
        text: "A  F  a",
        refusal: None,
    },
    Case {
        text: "E ( a U b )",
        refusal: None,
    },
    Case {
        text: " A ( a R b ) ",
        refusal: None,
    },
    Case {
        text: " ( a & ! b ) | c ",
        refusal: None,
    },
    // No sign.
    Case {
        text: "a+b",
        refusal: Some((7, 1)),
    },
    Case {
        text: "+",
        refusal: Some((7, 0)),
    },
    Case {
        text: "a +",
        refusal: Some((7, 2)),
    },
    Case {
        text: "a\tb",
        refusal: Some((7, 1)),
    },
    Case {
        text: "a\r",
        refusal: Some((7, 1)),
    },
    Case {
        text: "a\n",
        refusal: Some((7, 1)),
    },
    Case {
        text: "\0",
        refusal: Some((7, 0)),
    },
    Case {
        text: "B",
        refusal: Some((7, 0)),
    },
    Case {
        text: "AYa",
        refusal: Some((7, 1)),
    },
    Case {
        text: "2",
        refusal: Some((7, 0)),
    },
    Case {
        text: "é",
        refusal: Some((7, 0)),
    },
    Case {
        text: "(a]",
        refusal: Some((7, 2)),
    },
    // A sign out of place.
    Case {
        text: "a b",
        refusal: Some((8, 2)),
    },
    Case {
        text: "a b+",
        refusal: Some((8, 2)),
    },
    Case {
        text: "ab",
        refusal: Some((8, 1)),
    },
    Case {
        text: "10",
        refusal: Some((8, 1)),
    },
    Case {
        text: "a!",
        refusal: Some((8, 1)),
    },
    Case {
        text: "A(a)",
        refusal: Some((8, 3)),
    },
    Case {
        text: "(a U b)",
        refusal: Some((8, 3)),
    },
    Case {
        text: "a)",
        refusal: Some((8, 1)),
    },
    Case {
        text: "()",
        refusal: Some((8, 1)),
    },
    Case {
        text: "a&|b",
        refusal: Some((8, 2)),
    },
    Case {
        text: "Aa",
        refusal: Some((8, 1)),
    },
    Case {
        text: "A(aUbUc)",
        refusal: Some((8, 5)),
    },
    Case {
        text: "A(aU)",
        refusal: Some((8, 4)),
    },
    // Cut short.
    Case {
        text: "A(a U b",
        refusal: Some((9, 7)),
    },
    Case {
        text: " ",
        refusal: Some((9, 1)),
    },
    Case {
        text: "   ",
        refusal: Some((9, 3)),
    },
    Case {
        text: "(",
        refusal: Some((9, 1)),
    },
    Case {
        text: "a & ",
        refusal: Some((9, 4)),
    },
    Case {
        text: "AG",
        refusal: Some((9, 2)),
    },
    Case {
        text: "A ",
        refusal: Some((9, 2)),
    },
    Case {
        text: "E(a",
        refusal: Some((9, 3)),
    },
    // No text at all.
    Case {
        text: "",
        refusal: Some((6, 0)),
    },
];

pub static NESTS: [Nest; 17] = [
    // To the last byte that a rule may have.
    Nest {
        open: "(",
        times: 127,
        middle: "a",
        close: ")",
        refusal: None,
    },
    Nest {
        open: "!",
        times: 254,
        middle: "a",
        close: "",
        refusal: None,
    },
    Nest {
        open: "AX",
        times: 127,
        middle: "a",
        close: "",
        refusal: None,
    },
    Nest {
        open: "A(aU",
        times: 50,
        middle: " a   ",
        close: ")",
        refusal: None,
    },
    Nest {
        open: "E(",
        times: 30,
        middle: "",
        close: "aRb)",
        refusal: Some((8, 64)),
    },
    Nest {
        open: "E(",
        times: 50,
        middle: "c",
        close: "Rb)",
        refusal: None,
    },
    Nest {
        open: "a&",
        times: 127,
        middle: "b",
        close: "",
        refusal: None,
    },
    Nest {
        open: "a|",
        times: 127,
        middle: "b",
        close: "",
        refusal: None,
    },
    Nest {
        open: " ",
        times: 127,
        middle: "a",
        close: " ",
        refusal: None,
    },
    // The same text cut short, or one byte too long.
    Nest {
        open: "(",
        times: 255,
        middle: "",
        close: "",
        refusal: Some((9, 255)),
    },
    Nest {
        open: " ",
        times: 255,
        middle: "",
        close: "",
        refusal: Some((9, 255)),
    },
    Nest {
        open: "!",
        times: 255,
        middle: "",
        close: "",
        refusal: Some((9, 255)),
    },
    Nest {
        open: "(",
        times: 127,
        middle: "a)",
        close: ")",
        refusal: Some((6, 0)),
    },
    Nest {
        open: "!",
        times: 255,
        middle: "a",
        close: "",
        refusal: Some((6, 0)),
    },
    Nest {
        open: "(",
        times: 126,
        middle: "a)",
        close: ")",
        refusal: Some((8, 253)),
    },
    // The length is asked first.
    Nest {
        open: "+",
        times: 255,
        middle: "",
        close: "",
        refusal: Some((7, 0)),
    },
    Nest {
        open: "+",
        times: 256,
        middle: "",
        close: "",
        refusal: Some((6, 0)),
    },
];

pub static PLACES: [Place; 16] = [
    // Where a unit is awaited.
    Place {
        beginning: "",
        misplaced: "&|)XFGUR",
    },
    Place {
        beginning: "!",
        misplaced: "&|)XFGUR",
    },
    Place {
        beginning: "(",
        misplaced: "&|)XFGUR",
    },
    Place {
        beginning: "a&",
        misplaced: "&|)XFGUR",
    },
    Place {
        beginning: "a|",
        misplaced: "&|)XFGUR",
    },
    Place {
        beginning: "AX",
        misplaced: "&|)XFGUR",
    },
    Place {
        beginning: "EF",
        misplaced: "&|)XFGUR",
    },
    Place {
        beginning: "A(",
        misplaced: "&|)XFGUR",
    },
    Place {
        beginning: "E(aU",
        misplaced: "&|)XFGUR",
    },
    // Where a path part is awaited.
    Place {
        beginning: "A",
        misplaced: "az01!&|)AEUR",
    },
    Place {
        beginning: "E",
        misplaced: "az01!&|)AEUR",
    },
    // Behind a unit: at the end of a rule, before ), before U or R.
    Place {
        beginning: "a",
        misplaced: "az01!()AEXFGUR",
    },
    Place {
        beginning: "(a)",
        misplaced: "az01!()AEXFGUR",
    },
    Place {
        beginning: "(a",
        misplaced: "az01!(AEXFGUR",
    },
    Place {
        beginning: "A(a",
        misplaced: "az01!()AEXFG",
    },
    Place {
        beginning: "E(aRb",
        misplaced: "az01!(AEXFGUR",
    },
];

pub static ROOTS: [Root; 12] = [
    Root {
        text: "0",
        kept: "0",
        negated: "1",
    },
    Root {
        text: "!0",
        kept: "1",
        negated: "0",
    },
    Root {
        text: "a",
        kept: "letter",
        negated: "no letter",
    },
    Root {
        text: "!a",
        kept: "no letter",
        negated: "letter",
    },
    Root {
        text: "!!a",
        kept: "letter",
        negated: "no letter",
    },
    Root {
        text: "a&b",
        kept: "&",
        negated: "|",
    },
    Root {
        text: "!(a&b)",
        kept: "|",
        negated: "&",
    },
    Root {
        text: "a|b&c",
        kept: "|",
        negated: "&",
    },
    Root {
        text: "AXa",
        kept: "A",
        negated: "E",
    },
    Root {
        text: "!EFa",
        kept: "A",
        negated: "E",
    },
    Root {
        text: "!A(aUb)",
        kept: "E",
        negated: "A",
    },
    Root {
        text: "!(!EGa)",
        kept: "E",
        negated: "A",
    },
];

#[cfg(test)]
mod tests;
