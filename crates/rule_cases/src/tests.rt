// The reader over the tables.
use crate::{CASES, NESTS, Nest, PLACES, ROOTS};
use ctl::{Connective, Quantifier};
use rule::{Rule, RuleFault};
use rule_reader::read_rule;
use std::alloc::{AllocError, Global};
use std::test::Fail;

// The number and place that `text` is refused with, if it is. Want of memory, which has no number, is
// an error of the test.
fn refusal(heap: Global, text: &[u8]) -> Result<Option<(u8, usize)>, RuleFault> {
    match read_rule(heap, text) {
        Ok(_) => Ok(None),
        Err(fault) => Ok(Some((fault.number().ok_or(fault)?, fault.place()))),
    }
}

#[test]
fn each_text_is_answered_as_the_table_says(rt: HostRuntime) -> Result<(), Fail> {
    for case in &CASES {
        assert_eq!(rt;
            refusal(rt.alloc(), case.text.as_bytes())?,
            case.refusal,
            "{}",
            case.text
        );
    }
    Ok(())
}

// The text of a nest.
fn text_of(heap: Global, nest: &Nest) -> Result<String, AllocError> {
    let open = nest.open.repeat(heap, nest.times)?;
    let close = nest.close.repeat(heap, nest.times)?;
    format!(in heap; "{open}{}{close}", nest.middle)
}

#[test]
fn nesting_is_read_to_the_last_byte_of_a_rule(rt: HostRuntime) -> Result<(), Fail> {
    for nest in &NESTS {
        let text = text_of(rt.alloc(), nest)?;
        assert_eq!(rt;
            refusal(rt.alloc(), text.as_bytes())?,
            nest.refusal,
            "{}",
            nest.open
        );
    }
    Ok(())
}

#[test]
fn each_sign_is_refused_where_it_is_misplaced(rt: HostRuntime) -> Result<(), Fail> {
    for place in &PLACES {
        for sign in place.misplaced.bytes() {
            let mut text = place.beginning.as_bytes().to_vec(rt.alloc())?;
            text.push(sign)?;
            assert_eq!(rt;
                refusal(rt.alloc(), &text)?,
                Some((8, place.beginning.len())),
                "{}",
                place.beginning
            );
        }
    }
    Ok(())
}

// What a byte alone is refused with.
fn alone(byte: u8) -> Option<(u8, usize)> {
    match byte {
        b'a'..=b'z' | b'0' | b'1' => None,
        b'!' | b'(' | b'A' | b'E' | b' ' => Some((9, 1)),
        b'&' | b'|' | b')' | b'X' | b'F' | b'G' | b'U' | b'R' => Some((8, 0)),
        _ => Some((7, 0)),
    }
}

#[test]
fn every_byte_alone_is_answered(rt: HostRuntime) -> Result<(), Fail> {
    for byte in 0..=255 {
        assert_eq!(rt; refusal(rt.alloc(), &[byte])?, alone(byte));
    }
    Ok(())
}

// What stands at the root of a tree, in the table's words. No Display: no program prints a root.
fn root(rule: &Rule) -> &'static str {
    match rule {
        Rule::Constant(true) => "1",
        Rule::Constant(false) => "0",
        Rule::Literal(true, _) => "letter",
        Rule::Literal(false, _) => "no letter",
        Rule::Join(Connective::And, _, _) => "&",
        Rule::Join(Connective::Or, _, _) => "|",
        Rule::Path(Quantifier::All, _) => "A",
        Rule::Path(Quantifier::Exists, _) => "E",
    }
}

#[test]
fn a_rule_its_negated_copy_and_itself_negated_have_the_roots_of_the_table(
    rt: HostRuntime,
) -> Result<(), Fail> {
    for case in &ROOTS {
        let mut rule = read_rule(rt.alloc(), case.text.as_bytes())?;
        assert_eq!(rt; root(&rule), case.kept, "{}", case.text);
        assert_eq!(rt;
            root(&rule.negated(rt.alloc())?),
            case.negated,
            "{}",
            case.text
        );
        rule.negate();
        assert_eq!(rt; root(&rule), case.negated, "{}", case.text);
    }
    Ok(())
}
