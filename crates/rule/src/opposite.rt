// What negation makes of each operator. A trait, since the operators are types of the logic's crate, and a method
// of their own cannot stand here.
ghost use Rattle.std.specs.Prelude.{◌≡◌, refl};
ghost use Rattle.ctl.specs.Formula.{opposite_quantifier, opposite_connective, opposite_unary, opposite_binary};
ghost use Rattle.ctl.specs.declared.Quantifier.TheVariants.{All, Exists};
ghost use Rattle.ctl.specs.declared.Connective.TheVariants.{And, Or};
ghost use Rattle.ctl.specs.declared.Unary.TheVariants.{Next, Eventually, Always};
ghost use Rattle.ctl.specs.declared.Binary.TheVariants.{Until, Release};

use ctl::{Binary, Connective, Quantifier, Unary};

// An operator with an opposite, whose opposite is the operator itself.
pub trait Opposite {
    ghost opposite_of: { Self → Self };

    fn opposite(self) -> Self
        ensures { result ≡ opposite_of self };

    ghost undoes: { (x : Self) → opposite_of (opposite_of x) ≡ x };
}

// A and E change places.
impl Opposite for Quantifier {
    ghost opposite_of = { opposite_quantifier };

    ghost undoes = { elim [ All ↦ refl | Exists ↦ refl ] };

    fn opposite(self) -> Self {
        match self {
            Quantifier::All => Quantifier::Exists,
            Quantifier::Exists => Quantifier::All,
        }
    }
}

// & and | change places.
impl Opposite for Connective {
    ghost opposite_of = { opposite_connective };

    ghost undoes = { elim [ And ↦ refl | Or ↦ refl ] };

    fn opposite(self) -> Self {
        match self {
            Connective::And => Connective::Or,
            Connective::Or => Connective::And,
        }
    }
}

// F and G change places; X stays.
impl Opposite for Unary {
    ghost opposite_of = { opposite_unary };

    ghost undoes = { elim [ Next ↦ refl | Eventually ↦ refl | Always ↦ refl ] };

    fn opposite(self) -> Self {
        match self {
            Unary::Next => Unary::Next,
            Unary::Eventually => Unary::Always,
            Unary::Always => Unary::Eventually,
        }
    }
}

// U and R change places.
impl Opposite for Binary {
    ghost opposite_of = { opposite_binary };

    ghost undoes = { elim [ Until ↦ refl | Release ↦ refl ] };

    fn opposite(self) -> Self {
        match self {
            Binary::Until => Binary::Release,
            Binary::Release => Binary::Until,
        }
    }
}
