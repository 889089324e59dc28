//! The cells that scripts name.
ghost use Rattle.std.specs.Prelude.{◌≡◌, ◌≢◌, ℕ, ◌<◌, ◌≤◌, ◌↔◌, [], ◌∷◌, ◌++◌, length, take, IsSome, IfSome, AllPairs, Contains};

use arena::NodeNo;
use std::marker::Model;

/// A cell that scripts name: one of the nodes 1 to 8.
#[derive(Clone, Copy, Debug, PartialEq, Eq)]
pub struct Cell {
    number: u8,
}

impl Model for Cell {
    ghost Value = { ℕ };

    ghost view = { λ c. c.number };

    ghost invariant = { λ c. (1 ≤ c.number) × (c.number ≤ 8) };

    ghost inverse = { λ n. record { number = n } };
}

impl Cell {
    const FIRST: Cell = Cell { number: 1 };

    /// The cell of this number, if it is 1 to 8.
    pub fn new(number: u64) -> Option<Cell>
        ensures valid { IsSome result ↔ ((1 ≤ number) × (number ≤ 8)) }
        ensures value { IfSome result (λ c. c ≡ number) }
    {
        if 1 <= number && number <= 8 {
            Some(Cell {
                number: number as u8,
            })
        } else {
            None
        }
    }

    /// The node that the cell is.
    pub fn node(self) -> NodeNo
        ensures node { result.0 ≡ self }
        ensures from_one { 1 ≤ result.0 }
        ensures to_eight { result.0 ≤ 8 }
    {
        NodeNo(u64::from(self.number))
    }
}

/// One to four cells that differ, in the order in which a script names them.
#[derive(Clone, Copy, Debug, PartialEq, Eq)]
pub struct CellList {
    list: [Cell; 4],
    count: u8,
    ghost some: { 1 ≤ count },
    ghost few: { count ≤ 4 },
    ghost differ: { AllPairs (λ a b. a ≢ b) (take count list) },
}

impl CellList {
    ghost use Rattle.script.specs.Cells.{cells_of};

    /// This cell alone.
    pub fn one(cell: Cell) -> CellList
        ensures { cells_of result ≡ cell ∷ [] }
    {
        let mut list = [Cell::FIRST; 4];
        list[0] = cell;
        CellList { list, count: 1 }
    }

    /// These and one more cell, if there are fewer than four and it is none of them.
    pub fn with(self, cell: Cell) -> Option<CellList>
        ensures fits { IsSome result ↔ ((length (cells_of self) < 4) ×
            ¬ (Contains (cells_of self) cell)) }
        ensures cells { IfSome result (λ cells. cells_of cells ≡ cells_of self ++ cell ∷ []) }
    {
        if self.count == 4 || self.as_slice().contains(&cell) {
            return None;
        }
        let mut list = self.list;
        list[self.count as usize] = cell;
        Some(CellList {
            list,
            count: self.count + 1,
        })
    }

    /// The cells in their order.
    pub fn as_slice(&self) -> &[Cell]
        ensures cells { result.now ≡ cells_of self.now }
        ensures some { 1 ≤ length result.now }
        ensures few { length result.now ≤ 4 }
        ensures differ { AllPairs (λ a b. a ≢ b) result.now }
    {
        &self.list[..self.count as usize]
    }
}
