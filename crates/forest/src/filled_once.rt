//! Tables that are filled once: their records do not come back.
ghost use Rattle.std.specs.Prelude.{◌≡◌, false};

use dict::{Dict, WordKey, WordValue};
use prims::Cells;
use tables::table_shape::{Keeping, TableShape};
use template::{ByBits, ByOrder};

/// A shape of tables that are filled once.
pub trait TableOnce: TableShape {
    /// No record comes back.
    ghost once: { Self.lasts ≡ false };
}

/// A balance of dictionaries that are filled once.
pub trait FilledOnce: Keeping {
    /// No record comes back.
    ghost once: { Self.lasts ≡ false };
}

impl FilledOnce for ByOrder {
    ghost use Rattle.std.specs.Prelude.{refl};

    ghost once = { refl };
}

impl FilledOnce for ByBits {
    ghost use Rattle.std.specs.Prelude.{refl};

    ghost once = { refl };
}

impl TableOnce for Cells {
    ghost use Rattle.std.specs.Prelude.{refl};

    ghost once = { refl };
}

impl<K: WordKey, V: WordValue, B: FilledOnce> TableOnce for Dict<K, V, B> {
    ghost once = { B.once };
}
