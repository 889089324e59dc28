//! A whole run, judged row by row.
ghost use Rattle.std.specs.Prelude.{ℕ, ◌<◌, ◌+◌, IfOk, IfNone, IfSome, length, take};
ghost use Rattle.arena.specs.History.{Start, rows_after};
ghost use Rattle.arena.specs.Lawful.{Lawful};

use crate::judge::Judge;
use arena::{Layout, NoMemory, Row};
use std::alloc::Global;

/// The first row that is not lawful after those before it, counted from 0; none where the run is
/// lawful. The only error is want of memory.
pub fn first_unlawful(
    alloc: Global,
    layout: &Layout,
    rows: &[Row],
) -> Result<Option<usize>, NoMemory>
    ensures lawful { IfOk result (λ o. IfNone o (Lawful layout.now (rows_after (Start layout.now.mode) rows.now))) }
    ensures before { IfOk result (λ o. IfSome o (λ i. (i < length rows.now) ×
        Lawful layout.now (rows_after (Start layout.now.mode) (take i rows.now)))) }
    ensures named { IfOk result (λ o. IfSome o (λ i.
        Lawful layout.now (rows_after (Start layout.now.mode) (take (i + 1) rows.now)) → ⊥)) }
    ensures unlawful { IfOk result (λ o. IfSome o (λ i.
        Lawful layout.now (rows_after (Start layout.now.mode) rows.now) → ⊥)) }
{
    let mut judge = Judge::new(alloc, layout)?;
    for place in 0..rows.len() {
        let row = &rows[place];
        if !judge.is_lawful(row) {
            return Ok(Some(place));
        }
        judge.make(row)?;
    }
    Ok(None)
}
