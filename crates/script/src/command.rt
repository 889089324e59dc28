//! Commands of a script.
ghost use Rattle.std.specs.Prelude.{◌≡◌, ◌≢◌, ◌≤◌, ◌↔◌, IsTrue, IsSome, IfSome, AllPairs, Contains, length};
ghost use Rattle.script.specs.Part.{is_subsequence};
ghost use Rattle.script.specs.Cells.{cells_of, maybe_cells_of};

use crate::cells::{Cell, CellList};
use arena::Side;
use ordered_map::Request;

/// What a call does.
#[derive(Clone, Copy, Debug, PartialEq, Eq)]
pub enum Command {
    /// Takes a snapshot of a cell.
    Llx { cell: Cell },
    /// Puts a fresh cell into a field of one of some cells, and finalizes some of them.
    Scx(CellUpdate),
    /// Looks whether these cells are as their snapshots say.
    Vlx { cells: CellList },
    /// LLX of a cell, then SCX of it alone.
    Set { field: (Cell, Side), value: u64 },
    /// A call of the map, in tree mode.
    Map(Request<u64, u128>),
}

/// What an SCX changes: a field of one of its cells gets a fresh cell with this value, and some of
/// the cells are finalized.
#[derive(Clone, Copy, Debug, PartialEq, Eq)]
pub struct CellUpdate {
    cells: CellList,
    finalize: Option<CellList>,
    field: (Cell, Side),
    value: u64,
    ghost part: { IsTrue (is_subsequence (maybe_cells_of finalize) (cells_of cells)) },
    ghost inside: { ∥ Contains (cells_of cells) field.0 ∥₁ },
}

impl CellUpdate {
    ghost use Rattle.script.specs.Update.{update_cells, update_finalize, update_field, update_value};

    /// An update, if what is to be finalized is a part of the cells in their order, and the field
    /// belongs to one of them.
    pub fn new(
        cells: CellList,
        finalize: Option<CellList>,
        field: (Cell, Side),
        value: u64,
    ) -> Option<CellUpdate>
        ensures valid { IsSome result ↔
            (IsTrue (is_subsequence (maybe_cells_of finalize) (cells_of cells)) × Contains (cells_of cells) field.0) }
        ensures cells { IfSome result (λ u. update_cells u ≡ cells_of cells) }
        ensures finalize { IfSome result (λ u. update_finalize u ≡ maybe_cells_of finalize) }
        ensures field { IfSome result (λ u. update_field u ≡ field) }
        ensures value { IfSome result (λ u. update_value u ≡ value) }
    {
        let is_subsequence = match &finalize {
            Some(some) => is_subsequence(some.as_slice(), cells.as_slice()),
            None => true,
        };
        if !is_subsequence || !cells.as_slice().contains(&field.0) {
            return None;
        }
        Some(CellUpdate {
            cells,
            finalize,
            field,
            value,
        })
    }

    /// The cells that must be as their snapshots say.
    pub fn cells(&self) -> &[Cell]
        ensures cells { result.now ≡ update_cells self.now }
        ensures some { 1 ≤ length result.now }
        ensures few { length result.now ≤ 4 }
        ensures differ { AllPairs (λ a b. a ≢ b) result.now }
    {
        self.cells.as_slice()
    }

    /// Those of the cells that are finalized, in their order.
    pub fn finalize(&self) -> &[Cell]
        ensures cells { result.now ≡ update_finalize self.now }
        ensures part { IsTrue (is_subsequence result.now (update_cells self.now)) }
    {
        match &self.finalize {
            Some(cells) => cells.as_slice(),
            None => &[],
        }
    }

    /// The field that gets the fresh cell.
    pub fn field(&self) -> (Cell, Side)
        ensures field { result ≡ update_field self.now }
        ensures inside { ∥ Contains (update_cells self.now) result.0 ∥₁ }
    {
        self.field
    }

    /// The value of the fresh cell.
    pub fn value(&self) -> u64
        ensures { result ≡ update_value self.now }
    {
        self.value
    }
}

/// Whether `whole` gives `part`, where some of its cells are left out.
fn is_subsequence(part: &[Cell], whole: &[Cell]) -> bool
    ensures { result ≡ is_subsequence part.now whole.now }
{
    let mut found = 0;
    for cell in whole {
        if found < part.len() && part[found] == *cell {
            found += 1;
        }
    }
    found == part.len()
}
