// The rows of a lawful text, with what the model's invariant asks of them.
ghost use Rattle.std.specs.Prelude.{◌≡◌, ◌≤◌, ◌⊎◌, vec_len, MatchResult};
ghost use Rattle.rows.specs.Rows.{GoesOn, RefusedText};
ghost use Rattle.rowtext.specs.Format.{Describes, lines_of, most_rows};
ghost use Rattle.rowtext.specs.declared.fault.RowFault.TheVariants.{Memory};

use rowtext::fault::RowFault;
use rowtext::lines::read_rows;
use rowtext::row::Row;
use std::alloc::Global;

// A call of its own: what the invariant asks is proved here, away from the struct.
pub(crate) fn lawful_rows(heap: Global, text: &[u8]) -> Result<Vec<Row>, RowFault>
    ensures { MatchResult result
        (λ rows. Describes text.now (lines_of rows.items) × (vec_len rows ≤ most_rows) × GoesOn rows.items)
        (λ e. (e ≡ Memory) ⊎ RefusedText text.now e) }
{
    read_rows(heap, text)
}
