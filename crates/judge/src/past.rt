//! The rows made so far. Only proofs read them: no bytes are kept.
ghost use Rattle.std.specs.Prelude.{◌≡◌, [], ◌∷◌};

use arena::Row;
use std::marker::Model;
use std::mem::replace;
use std::snapshot::Snapshot;

/// Rows, the newest first.
#[derive(Drop)]
pub(crate) struct Past {
    rows: Snapshot<RowList>,
}

/// The rows of a past. One value is made where one more row is, and none is kept.
#[derive(Drop)]
enum RowList {
    Nothing,
    Newer(Row, Snapshot<RowList>),
}

impl Model for Past {
    ghost use Rattle.std.specs.Prelude.{List};
    ghost use Rattle.arena.specs.declared.step.Row.{Row};

    ghost Value = { List Row };

    ghost use Rattle.judge.specs.Pasts.{rows_in};

    ghost view = { λ p. rows_in p.rows.value };
}

impl Past {
    /// No row yet.
    pub(crate) fn new() -> Past
        ensures { result ≡ [] }
    {
        Past {
            rows: Snapshot::of(&RowList::Nothing),
        }
    }

    /// This row is made too.
    pub(crate) fn push(&mut self, row: Row)
        ensures { self.new ≡ row ∷ self.old }
    {
        let Past { rows } = replace(self, Past::new());
        self.rows = Snapshot::of(&RowList::Newer(row, rows));
    }
}
