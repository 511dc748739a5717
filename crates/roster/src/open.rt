// A roster opens on a model.
ghost use Rattle.std.specs.Prelude.{◌≡◌, None, Some, MatchResult};
ghost use Rattle.std.specs.Borrow.{sem};
ghost use Rattle.ctl.specs.Decision.{any_below};
ghost use Rattle.model.specs.Meaning.{Starts};
ghost use Rattle.table.specs.Kept.{kept};
ghost use Rattle.guarantee.specs.declared.fault.RosterFault.TheVariants.{Blank};
ghost use Rattle.roster.specs.Books.{state_of};
ghost use Rattle.roster.specs.Lending.{LendsBook};
ghost use Rattle.roster.specs.Opens.{Opens};

use crate::book::{Book, Roster};
use crate::laid::Records;
use guarantee::RosterFault;
use model::TotalModel;
use std::alloc::Global;
use table::asked::keep;
use table::kept::Table;

// Is some state a start?
#[tactic(auto, using(crate::proofs::Beginning::start_anywhere))]
fn some_start(table: &Table) -> bool
    ensures { result ≡ any_below (Starts (kept table.now)) table.now.count }
{
    table.starts_in(table.all())
}

impl Roster {
    // A roster that is not open.
    pub(crate) fn new() -> Roster
        ensures { result.book ≡ None }
    {
        Roster { book: None }
    }

    // The book of an open roster.
    pub(crate) fn opened(&self) -> Result<&Book, RosterFault>
        ensures { MatchResult result (λ b. self.now.book ≡ Some b.now) (λ e. (e ≡ Blank) × (self.now.book ≡ None)) }
    {
        self.book.as_ref().ok_or(RosterFault::Blank)
    }

    // The same, to be changed: one function cannot lend both ways. What is lent is followed through a `match`, and
    // not through `ok_or`.
    pub(crate) fn opened_mut(&mut self) -> Result<&mut Book, RosterFault>
        ensures* writes_back { sem 𝓛 (LendsBook self.entry result) }
        ensures value { MatchResult result (λ b. self.old.book ≡ Some b.now) (λ e. (e ≡ Blank) × (self.old.book ≡ None)) }
    {
        match &mut self.book {
            Some(book) => Ok(book),
            None => Err(RosterFault::Blank),
        }
    }

    // Asks the model about every state and keeps the answers. No memory is wanted yet.
    #[tactic(auto, using(crate::proofs::Beginning::open_sized, crate::proofs::Beginning::open_startless, crate::proofs::Beginning::open_begins))]
    pub(crate) fn open<M: TotalModel>(&mut self, heap: Global, model: &M) -> Result<(), RosterFault>
        ensures { Opens (state_of self.old) (M.Model.meaning model.now) result (state_of self.new) }
    {
        if self.book.is_some() {
            return Err(RosterFault::Opened);
        }
        let table = keep(model).ok_or(RosterFault::Size)?;
        if !some_start(&table) {
            return Err(RosterFault::NoStart);
        }
        self.book = Some(Book {
            table,
            records: Records::new(heap),
        });
        Ok(())
    }
}
