// The model interface: what a channel's control table is asked, and the one law that it keeps.
//
// Four questions are one trait, `Model`; the law is a trait above it, `TotalModel`. Code that only
// reads a table asks for the first, code that relies on paths going on asks for the second.
#![tactic(auto)]

ghost use Rattle.std.specs.Prelude.{◌≡◌};
ghost use Rattle.model.specs.Claims.{AnswersFixTheMeaning, OutsideIsNo};
ghost use Rattle.model.specs.Meaning.{Meaning, Starts, Moves, Carries, Total};

// A Kripke structure by four questions. `meaning` is what the answers say: a question changes
// nothing, refuses nothing, and answers as the meaning has it every time.
pub trait Model {
    ghost meaning: { Self → Meaning };

    // How many states there are; they are numbered from 0.
    fn count(&self) -> u16
        ensures { result ≡ (meaning self.now).count };

    // Is `state` a start?
    fn starts(&self, state: u16) -> bool
        ensures { result ≡ Starts (meaning self.now) state };

    // Does `from` move to `to`?
    fn moves(&self, from: u16, to: u16) -> bool
        ensures { result ≡ Moves (meaning self.now) from to };

    // Does `state` carry `mark`, a letter's byte?
    fn carries(&self, state: u16, mark: u8) -> bool
        ensures { result ≡ Carries (meaning self.now) state mark };
}

// A model in which every state moves to some state.
pub trait TotalModel: Model {
    ghost total: { (m : Self) → Total (Self.Model.meaning m) };
}

// A state not below the count and a byte that is no letter are answered no.
pub fn outside_is_no()
    ensures { OutsideIsNo }
{}

// Two models that answer alike have one guarded meaning.
pub fn answers_fix_the_meaning()
    ensures { AnswersFixTheMeaning }
{}
