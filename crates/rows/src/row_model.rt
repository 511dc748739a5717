// The row model: rows of which each moves somewhere.
ghost use Rattle.std.specs.Prelude.{◌≡◌, ◌≤◌, ◌⊎◌, [], ◌∷◌, IfOk, IfErr, vec_len, MatchResult};
ghost use Rattle.rows.specs.Rows.{resting, some_start, GoesOn, RefusedText};
ghost use Rattle.rowtext.specs.Format.{Describes, lines_of, most_rows};
ghost use Rattle.rowtext.specs.declared.fault.RowFault.TheVariants.{Memory};

use crate::checked::lawful_rows;
use rowtext::fault::RowFault;
use rowtext::row::Row;
use std::alloc::{AllocError, Global};

// Few rows, each with a target below the count: so every state has a move, without a test.
// It is not seen as a list of lines by the language's own `Model`: the law of `TotalModel` is to hold
// of every value that a clause can name, and a list of lines need not go on.
#[derive(Drop)]
pub struct RowModel {
    pub(crate) rows: Vec<Row>,
    ghost few: { vec_len rows ≤ most_rows },
    ghost goes_on: { GoesOn rows.items },
}

impl RowModel {
    // One unmarked start state that moves to itself.
    pub fn new(heap: Global) -> Result<RowModel, AllocError>
        ensures { IfOk result (λ m. lines_of m.rows.items ≡ resting ∷ []) }
    {
        let resting = Row {
            start: true,
            marks: Vec::new(heap),
            targets: vec![in heap; 0]?,
        };
        let rows = vec![in heap; resting]?;
        Ok(RowModel { rows })
    }

    // Replaces all rows by those that the text describes. A refusal changes nothing and names want
    // of memory or the first fault of a text that describes no rows: so a text is taken exactly
    // when the format has it.
    pub fn fill(&mut self, heap: Global, text: &[u8]) -> Result<(), RowFault>
        ensures model { MatchResult result (λ _. Describes text.now (lines_of self.new.rows.items)) (λ _. self.new ≡ self.old) }
        ensures fault { IfErr result (λ e. (e ≡ Memory) ⊎ RefusedText text.now e) }
    {
        self.rows = lawful_rows(heap, text)?;
        Ok(())
    }

    // Is some state a start?
    pub fn has_start(&self) -> bool
        ensures { result ≡ some_start (lines_of self.now.rows.items) }
    {
        self.rows.iter().any(|row| row.start)
    }
}
