// What is done with sets. Each contract speaks of every number: one past the last word is no member.
// That a state is below the limit is asked where one is put in or taken out: a type for such a number
// would ask more of callers than the number does.
ghost use Rattle.std.specs.Prelude.{◌≡◌, ℕ, ◌+◌, ◌-◌, ◌<◌, ◌≤◌, true, false, not, ◌&&◌, ◌||◌, MatchOption, ◌==◌, nat_lt, slice_index};
ghost use Rattle.ctl.specs.States.{size_below};
ghost use Rattle.sets.specs.Sets.{word_count, state_limit, bit, member, LowestFrom};

use crate::lowest::lowest_bit;
use crate::set::{StateSet, WORDS};
use std::array;

// Is some bit in both words?
#[tactic(auto, using(crate::proofs::Bits::bit_of_and, crate::proofs::Words::bit_there))]
fn words_meet(a: u64, b: u64) -> bool
    ensures some { result ≡ true → (t : ℕ) × (t < 64) × ((bit a t && bit b t) ≡ true) }
    ensures none { result ≡ false → (i : ℕ) → i < 64 → (bit a i && bit b i) ≡ false }
{
    lowest_bit(a & b, 0).is_some()
}

impl StateSet {
    pub fn none() -> StateSet
        ensures { (s : ℕ) → member result s ≡ false }
    {
        StateSet { words: [0; WORDS] }
    }

    // The one state s.
    pub fn only(s: usize) -> StateSet
        requires { s < state_limit }
        ensures { (t : ℕ) → member result t ≡ (t == s) }
    {
        let mut one = StateSet::none();
        one.insert(s);
        one
    }

    // The states below `count` for which the test holds.
    pub fn those_below<F: Fn(usize) -> bool>(count: usize, holds: F) -> StateSet
        requires fits { count ≤ state_limit }
        requires callable { (s : ℕ) → s < count → F.pre holds s }
        ensures told { (s : ℕ) → s < count → F.post holds s (member result s) }
        ensures past { (s : ℕ) → count ≤ s → member result s ≡ false }
    {
        let mut out = StateSet::none();
        for s in 0..count {
            if holds(s) {
                out.insert(s);
            }
        }
        out
    }

    // The states below `count`.
    pub fn below(count: usize) -> StateSet
        requires { count ≤ state_limit }
        ensures { (s : ℕ) → member result s ≡ nat_lt s count }
    {
        StateSet::those_below(count, |_| true)
    }

    pub fn contains(&self, s: usize) -> bool
        ensures { result ≡ member self.now s }
    {
        self.words
            .get(s / 64)
            .is_some_and(|word| (word >> (s % 64)) & 1 == 1)
    }

    #[tactic(auto, using(crate::proofs::Words::write_bit))]
    pub fn insert(&mut self, s: usize)
        requires { s < state_limit }
        ensures { (t : ℕ) → member self.new t ≡ (t == s || member self.old t) }
    {
        self.words[s / 64] |= 1u64 << (s % 64);
    }

    #[tactic(auto, using(crate::proofs::Words::drop_bit))]
    pub fn without(self, s: usize) -> StateSet
        requires { s < state_limit }
        ensures { (t : ℕ) → member result t ≡ (member self t && not (t == s)) }
    {
        let mut out = self;
        out.words[s / 64] &= !(1u64 << (s % 64));
        out
    }

    // Each word from the two words at its place.
    fn by_words<F: Fn(u64, u64) -> u64>(self, other: StateSet, op: F) -> StateSet
        requires { F.IsAlwaysCallable op }
        ensures { (i : ℕ) → i < word_count → F.post op (slice_index self.words i) (slice_index other.words i) (slice_index result.words i) }
    {
        StateSet {
            words: array::from_fn(|i| op(self.words[i], other.words[i])),
        }
    }

    #[tactic(auto, using(crate::proofs::Bits::bit_of_or))]
    pub fn union(self, other: StateSet) -> StateSet
        ensures { (s : ℕ) → member result s ≡ (member self s || member other s) }
    {
        self.by_words(
            other,
            |a, b| -> u64
                ensures { (i : ℕ) → i < 64 → bit result i ≡ (bit a i || bit b i) }
            { a | b },
        )
    }

    #[tactic(auto, using(crate::proofs::Bits::bit_of_and))]
    pub fn intersect(self, other: StateSet) -> StateSet
        ensures { (s : ℕ) → member result s ≡ (member self s && member other s) }
    {
        self.by_words(
            other,
            |a, b| -> u64
                ensures { (i : ℕ) → i < 64 → bit result i ≡ (bit a i && bit b i) }
            { a & b },
        )
    }

    #[tactic(auto, using(crate::proofs::Bits::bit_of_and_not))]
    pub fn minus(self, other: StateSet) -> StateSet
        ensures { (s : ℕ) → member result s ≡ (member self s && not (member other s)) }
    {
        self.by_words(
            other,
            |a, b| -> u64
                ensures { (i : ℕ) → i < 64 → bit result i ≡ (bit a i && not (bit b i)) }
            { a & !b },
        )
    }

    // Is some state in both? A loop over the words: this is asked of every state in every round.
    pub fn meets(&self, other: &StateSet) -> bool
        ensures { (result ≡ false → (s : ℕ) → (member self.now s && member other.now s) ≡ false) × (result ≡ true → (s : ℕ) × ((member self.now s && member other.now s) ≡ true)) }
    {
        for i in 0..WORDS {
            if words_meet(self.words[i], other.words[i]) {
                return true;
            }
        }
        false
    }

    // The lowest member at or above `from`. Promised for any `from`, though the crates here ask from 0: a
    // public promise, kept.
    pub fn next(&self, from: usize) -> Option<usize>
        ensures { MatchOption result ((i : ℕ) → from ≤ i → member self.now i ≡ false) (λ t. (t < state_limit) × LowestFrom (member self.now) from t) }
    {
        for (i, word) in self.words.iter().enumerate() {
            if let Some(b) = lowest_bit(*word, from.saturating_sub(i * 64)) {
                return Some(i * 64 + b);
            }
        }
        None
    }

    // How many states below `count` are members?
    pub fn size(&self, count: usize) -> usize
        ensures { result ≡ size_below (member self.now) count }
    {
        (0..count).filter(|s| self.contains(*s)).count()
    }
}
