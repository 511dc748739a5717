// A path that shows the verdict recorded of a rule, or why none is written.
ghost use Rattle.std.specs.Prelude.{◌≡◌, ◌<◌, ◌≤◌, length, Some, IfOk, OnErr};
ghost use Rattle.std.specs.List.{slice_get};
ghost use Rattle.std.specs.Result.{result_err};
ghost use Rattle.ctl.specs.Cost.{parts_cost};
ghost use Rattle.ctl.specs.States.{states_that_count};
ghost use Rattle.model.specs.Meaning.{Starts};
ghost use Rattle.table.specs.Kept.{kept};
ghost use Rattle.rule.specs.Tree.{formula, part_formula};
ghost use Rattle.guarantee.specs.Looks.{looks_at};
ghost use Rattle.guarantee.specs.States.{quantifier_shows, root_shows, opened, entry_path_fault, path_fault, Writes};
ghost use Rattle.roster.specs.Entries.{entry_of};
ghost use Rattle.roster.specs.Showing.{ShownAt, NoneShown, RootShown, NoRootShown, showing};
ghost use Rattle.roster.specs.Books.{model_in, laid_in, state_of};

use crate::attempt::HIGHEST;
use crate::book::{Book, Roster};
use crate::laid::{Laid, Trees};
use ctl::{Quantifier, Verdict};
use evaluate::evaluation::Evaluation;
use guarantee::RosterFault;
use rule::tree::{PathPart, Rule};
use table::kept::Table;
use witness::root::witness;

// E can show that a rule holds, A that it fails.
fn quantifier_shows(quantifier: Quantifier, verdict: Verdict) -> bool
    ensures { result ≡ quantifier_shows quantifier verdict }
{
    matches!(
        (quantifier, verdict),
        (Quantifier::Exists, Verdict::Holds) | (Quantifier::All, Verdict::Fails)
    )
}

// Is the root of the rule E for holds, A for fails?
fn root_shows(rule: &Rule, verdict: Verdict) -> bool
    ensures { result ≡ root_shows (formula rule.now) verdict }
{
    match rule {
        Rule::Path(quantifier, _) => quantifier_shows(*quantifier, verdict),
        _ => false,
    }
}

// Table, bound, limit and buffer stay parameters: the table is the book's, the others are the call's own.
impl Laid {
    // Refuses a path of the rule into a buffer of `room` bytes, for the first reason that there is.
    fn check_path(
        &self,
        table: &Table,
        bound: u16,
        limit: u32,
        room: usize,
    ) -> Result<(), RosterFault>
        ensures { result_err result ≡ entry_path_fault (kept table.now) (Some (entry_of self.now)) bound limit room }
    {
        if bound > HIGHEST {
            return Err(RosterFault::Bound);
        }
        let verdict = self.said.found_by(bound).ok_or(RosterFault::NoVerdict)?;
        if !root_shows(&self.trees.rule, verdict) {
            return Err(RosterFault::Root);
        }
        if room <= usize::from(bound) {
            return Err(RosterFault::Room);
        }
        self.evaluate(table, bound, limit)?;
        Ok(())
    }
}

impl Book {
    // Refuses a path of rule i into a buffer of `room` bytes, for the first reason that there is.
    pub(crate) fn check_path(
        &self,
        i: usize,
        bound: u16,
        limit: u32,
        room: usize,
    ) -> Result<(), RosterFault>
        ensures { result_err result ≡ entry_path_fault (model_in self.now) (slice_get (laid_in self.now) i) bound limit room }
    {
        self.records
            .get(i)?
            .check_path(&self.table, bound, limit, room)
    }
}

impl Roster {
    // Refuses a path call, for the first reason that there is.
    pub(crate) fn check_path(
        &self,
        i: usize,
        bound: u16,
        limit: u32,
        room: usize,
    ) -> Result<(), RosterFault>
        ensures { result_err result ≡ path_fault (state_of self.now) i bound limit room }
    {
        self.opened()?.check_path(i, bound, limit, room)
    }
}

// No start has a path to show.
#[derive(Clone, Copy, Debug)]
struct NoPath;

// Writes a witness for the part from the lowest start that has one; if none has, it touches nothing.
#[tactic(auto, using(crate::proofs::Showings::no_path_anywhere))]
fn show(table: &Table, part: &PathPart, k: u16, limit: u32, out: &mut [u8]) -> Result<(), NoPath>
    requires room { k < length out.old }
    requires cheap { parts_cost (kept table.now) (states_that_count (kept table.now)) (part_formula part.now) k ≤ limit }
    ensures shown { IfOk result (λ _. ShownAt (kept table.now) (part_formula part.now) k out.old out.new) }
    ensures untouched { OnErr result (out.new ≡ out.old) }
    ensures none { OnErr result (NoneShown (kept table.now) (part_formula part.now) k) }
{
    let evaluation = Evaluation::new(table, k);
    // A loop, since nothing is known of a lent buffer that a closure writes into.
    for s in table.starts() {
        if witness(&evaluation, part, limit, s, out).is_ok() {
            return Ok(());
        }
    }
    Err(NoPath)
}

impl Trees {
    // The tree that has a path to show: under A it is the negation's, and else the rule's own.
    #[tactic(auto, using(crate::proofs::Negating::negates))]
    fn showing(&self) -> &Rule
        ensures { formula result.now ≡ showing (formula self.now.rule) }
    {
        match &self.rule {
            Rule::Path(Quantifier::All, _) => &self.negation,
            _ => &self.rule,
        }
    }
}

impl Laid {
    // Writes a path that shows the verdict on the rule; if there is none, it touches nothing.
    fn write_path(
        &self,
        table: &Table,
        bound: u16,
        limit: u32,
        buffer: &mut [u8],
    ) -> Result<(), NoPath>
        requires room { bound < length buffer.old }
        requires cheap { looks_at (kept table.now) (formula self.now.trees.rule) bound ≤ limit }
        ensures shown { IfOk result (λ _. RootShown (kept table.now) (showing (formula self.now.trees.rule)) bound buffer.old buffer.new) }
        ensures untouched { OnErr result (buffer.new ≡ buffer.old) }
        ensures none { OnErr result (NoRootShown (kept table.now) (showing (formula self.now.trees.rule)) bound) }
    {
        let Rule::Path(Quantifier::Exists, part) = self.trees.showing() else {
            return Err(NoPath);
        };
        show(table, part, bound, limit, buffer)
    }
}

impl Book {
    // Writes a path that shows the verdict on rule i, and answers how many states it has.
    #[tactic(auto, using(crate::proofs::Witnessing::one_is_found, crate::proofs::Witnessing::path_written))]
    pub(crate) fn path(
        &self,
        i: usize,
        bound: u16,
        limit: u32,
        buffer: &mut [u8],
    ) -> Result<usize, RosterFault>
        ensures { Writes (opened (model_in self.now) (laid_in self.now)) i bound limit buffer.old result buffer.new }
    {
        let laid = self.records.get(i)?;
        laid.check_path(&self.table, bound, limit, buffer.len())?;
        // Where no path is refused there is one.
        laid.write_path(&self.table, bound, limit, buffer).unwrap();
        Ok(usize::from(bound) + 1)
    }
}

impl Roster {
    // Writes a path that shows the verdict on rule i at the front of the buffer.
    pub(crate) fn path(
        &self,
        i: usize,
        bound: u16,
        limit: u32,
        buffer: &mut [u8],
    ) -> Result<usize, RosterFault>
        ensures { Writes (state_of self.now) i bound limit buffer.old result buffer.new }
    {
        self.opened()?.path(i, bound, limit, buffer)
    }
}
