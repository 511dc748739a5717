// A row model answers the four questions, and its invariant is the law.
ghost use Rattle.rows.specs.Rows.{rows_meaning};
ghost use Rattle.rows.specs.GoingOn;

use crate::row_model::RowModel;
use model::{Model as ChannelModel, TotalModel};

impl ChannelModel for RowModel {
    ghost meaning = { λ m. rows_meaning m.rows.items };

    fn count(&self) -> u16 {
        self.rows.len() as u16
    }

    fn starts(&self, state: u16) -> bool {
        self.rows
            .get(usize::from(state))
            .is_some_and(|row| row.start)
    }

    fn moves(&self, from: u16, to: u16) -> bool {
        usize::from(to) < self.rows.len()
            && self
                .rows
                .get(usize::from(from))
                .is_some_and(|row| row.targets.contains(&to))
    }

    fn carries(&self, state: u16, mark: u8) -> bool {
        mark.is_ascii_lowercase()
            && self
                .rows
                .get(usize::from(state))
                .is_some_and(|row| row.marks.contains(&mark))
    }
}

impl TotalModel for RowModel {
    ghost total = { λ m. GoingOn.total m.rows.items m.goes_on };
}
