//! The end of a dictionary by its last client.
ghost use Rattle.capi.specs.Left.{IsClosingOf};

use crate::held::Held;
use regnubas::{FilledOnce, Lasts, NoMemory};
use std::alloc::Global;
use std::sync::Arc;
use template::FixedBalance;

/// Ends the forest of a pass, if this is its last client.
pub(crate) fn close<B: FilledOnce>(
    held: Held<B>,
    alloc: Global,
) -> Result<Option<Vec<(u64, u128)>>, Held<B>>
    ensures { IsClosingOf held result }
{
    if Arc::strong_count(&held.forest) != 1 {
        return Err(held);
    }
    let Held {
        forest,
        pass,
        all: _,
    } = held;
    match Arc::try_unwrap(forest) {
        Ok(forest) => match forest.end(pass).pairs(alloc) {
            Ok(pairs) => Ok(Some(pairs)),
            Err(NoMemory) => Ok(None),
        },
        // Never: this was the only owner.
        Err(_) => Ok(None),
    }
}

/// The same of a dictionary that lasts.
pub(crate) fn close_lasting<B: FixedBalance>(
    held: Held<Lasts<B>>,
    alloc: Global,
) -> Result<Option<Vec<(u64, u128)>>, Held<Lasts<B>>>
    ensures { IsClosingOf held result }
{
    if Arc::strong_count(&held.forest) != 1 {
        return Err(held);
    }
    let Held {
        forest,
        pass,
        all: _,
    } = held;
    match Arc::try_unwrap(forest) {
        Ok(forest) => match forest.end(pass).pairs(alloc) {
            Ok(pairs) => Ok(Some(pairs)),
            Err(NoMemory) => Ok(None),
        },
        // Never: this was the only owner.
        Err(_) => Ok(None),
    }
}
