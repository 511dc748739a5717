// The members of a set in rising order.
ghost use Rattle.std.specs.Prelude.{◌≡◌};
ghost use Rattle.std.specs.Iterator.{at_most};
ghost use Rattle.ctl.specs.States.{size_below};
ghost use Rattle.sets.specs.Members.{TakesLowest};
ghost use Rattle.sets.specs.Sets.{state_limit, member};

use crate::set::StateSet;

// The members that are still to come.
#[derive(Clone, Debug, Drop)]
pub struct Members {
    left: StateSet,
}

impl Iterator for Members {
    type Item = usize;

    ghost next_gives = { λ s r t. TakesLowest s.left r t.left };

    ghost remaining = { λ s. at_most (size_below (member s.left) state_limit) };

    fn next(&mut self) -> Option<usize> {
        let t = self.left.next(0)?;
        self.left = self.left.without(t);
        Some(t)
    }
}

impl IntoIterator for StateSet {
    type Item = usize;

    type IntoIter = Members;

    ghost into_iter_gives = { λ x it. it.left ≡ x };

    fn into_iter(self) -> Members {
        Members { left: self }
    }
}
