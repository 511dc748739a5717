// The lowest bit of a word at or above a place.
ghost use Rattle.std.specs.Prelude.{◌≡◌, ℕ, ◌<◌, ◌≤◌, true, false, MatchOption};
ghost use Rattle.sets.specs.Sets.{bit, LowestFrom};

#[tactic(auto, using(crate::proofs::LowestBit::from_on, crate::proofs::LowestBit::from_none))]
pub(crate) fn lowest_bit(word: u64, from: usize) -> Option<usize>
    ensures { MatchOption result ((i : ℕ) → from ≤ i → i < 64 → bit word i ≡ false) (λ t. (t < 64) × LowestFrom (bit word) from t) }
{
    if from >= 64 {
        return None;
    }
    let shifted = word >> from;
    if shifted == 0 {
        return None;
    }
    Some(from + shifted.trailing_zeros() as usize)
}
