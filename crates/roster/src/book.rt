// A roster, and what it keeps once it is open.
ghost use Rattle.std.specs.Prelude.{◌≡◌, ◌≤◌, true, length};
ghost use Rattle.ctl.specs.Decision.{any_below};
ghost use Rattle.model.specs.Meaning.{Starts};
ghost use Rattle.table.specs.Kept.{kept};
ghost use Rattle.guarantee.specs.Limits.{most_rules};
ghost use Rattle.guarantee.specs.Rights.{AllRight};
ghost use Rattle.roster.specs.Entries.{entries_of};

use crate::laid::Records;
use table::kept::Table;

// The kept table and the rules laid on it. Some state is a start, no more rules are laid than a roster
// takes, and what their records say is so.
#[derive(Drop)]
pub struct Book {
    pub(crate) table: Table,
    pub(crate) records: Records,
    ghost started: { any_below (Starts (kept table)) table.count ≡ true },
    ghost few: { length records.items.items ≤ most_rules },
    ghost right: { ∥ AllRight (kept table) (entries_of records.items.items) ∥₁ },
}

// A roster of rules: blank, or open.
#[derive(Drop)]
pub struct Roster {
    pub(crate) book: Option<Book>,
}
