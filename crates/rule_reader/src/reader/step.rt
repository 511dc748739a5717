// The single steps of a reader: what stands at its place, the way past it, and the fault there.
ghost use Rattle.std.specs.Prelude.{◌≡◌, ◌+◌, ◌<◌, ◌≤◌, length, drop, Some, MatchOption};
ghost use Rattle.rule_reader.specs.Ahead.{bytes, ahead, Onward};
ghost use Rattle.rule.specs.Grammar.{Spaces, Reads};
ghost use Rattle.rule_reader.specs.Halts.{first, Clear, Faulted};
ghost use Rattle.rule.specs.declared.sign.Sign.TheVariants.{Space};

use crate::reader::Reader;
use rule::fault::RuleFault;
use rule::sign::Sign;
use std::alloc::Global;

impl<'a> Reader<'a> {
    // A reader at the first sign of `text`.
    pub(crate) fn new(heap: Global, text: &'a [u8]) -> Self
        ensures same { bytes result ≡ text.now }
        ensures spaces { Spaces text.now (ahead result) }
    {
        Reader {
            heap,
            text,
            at: leading_spaces(text),
        }
    }

    // The sign at the reader's place, or none at the end.
    pub(crate) fn peek(&self) -> Option<Sign>
        ensures sees { result ≡ first (ahead self.now) }
        ensures within { MatchOption result (self.now.at ≡ length (bytes self.now)) (λ _. self.now.at < length (bytes self.now)) }
    {
        self.text.get(self.at).map(|byte| Sign::from(*byte))
    }

    // Goes on past the sign at the reader's place and the spaces behind it.
    pub(crate) fn pass(&mut self)
        requires { self.old.at < length (bytes self.old) }
        ensures onward { Onward self.old self.new }
        ensures past { self.old.at < self.new.at }
        ensures reads { (x : Sign) → first (ahead self.old) ≡ Some x → Reads x (ahead self.old) (ahead self.new) }
    {
        let behind = self.at + 1;
        self.at = behind + leading_spaces(&self.text[behind..]);
    }

    // The fault of a text that cannot go on at the reader's place.
    pub(crate) fn fault(&self) -> RuleFault
        ensures { Faulted (λ p. p ≡ self.now.at) (bytes self.now) result }
    {
        match self.peek() {
            None => RuleFault::Unfinished(self.at),
            Some(Sign::Other) => RuleFault::NoSign(self.at),
            Some(_) => RuleFault::Misplaced(self.at),
        }
    }
}

// How many spaces `text` begins with.
fn leading_spaces(text: &[u8]) -> usize
    ensures within { result ≤ length text.now }
    ensures spaces { Spaces text.now (drop result text.now) }
    ensures solid { Clear Space (drop result text.now) }
{
    text.iter()
        .position(|byte| !matches!(Sign::from(*byte), Sign::Space))
        .unwrap_or(text.len())
}
