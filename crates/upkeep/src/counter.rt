//! What a pass of a table that lasts does between two calls: it rests, or goes away, and sees which
//! others have rested.
ghost use Rattle.std.specs.Prelude.{◌≡◌, ◌+◌, ◌<◌, ◌≤◌, ℕ, [], ◌∷◌};
ghost use Rattle.prims.specs.Moments.{AreFinished};
ghost use Rattle.slots.specs.Counts.{rests_place};
ghost use Rattle.tables.specs.Seats.{IsSameSeat};
ghost use Rattle.tables.specs.TableRule.{past_of};
ghost use Rattle.tables.specs.declared.view.SeatedPass.{SeatedPass};
ghost use Rattle.upkeep.specs.UpkeepSteps.{IsLastingSeat, RemembersLeaving, RemembersRest, RestsOn};

use arena::{Layout, PassNo, Shape};
use atomic_table::Seat;
use std::marker::Brand;
use tables::lasting_laws::rests_last;
use tables::view::SeatView;
use tables::words::Words;

/// How often a pass rests at most, so that twice as much fits a word: many more times than any
/// program has time for.
pub const MOST_RESTS: u64 = 4_611_686_018_427_387_904;

/// Where a pass counts its rests: behind the words of all records each pass has a line of the cache
/// for itself.
pub fn rests_place(layout: &Layout, pass: PassNo) -> usize
    ensures { result ≡ rests_place layout.now pass.0 }
{
    layout.size() + 8 * pass.0 as usize
}

/// A pass rests, or is back from where it was: one store, between two calls. It has rested `often`
/// times before, and answers how often it has now.
pub fn rest<S: Shape>(
    words: &Words<S>,
    layout: &Layout,
    seat: &mut Seat<u8, SeatView>,
    number: PassNo,
    often: u64,
) -> u64
    requires table { IsLastingSeat words.now layout.now seat.old }
    requires between { (p : SeatedPass) × (seat.old.me.0.passes ≡ p ∷ [])
        × (p.number ≡ number) × (p.memory.often ≡ often)
        × AreFinished p.layout p.number.0 0 (past_of p []) }
    requires inside { number.0 < layout.now.passes }
    requires few { often < MOST_RESTS }
    ensures table { IsSameSeat seat.old seat.new }
    ensures often { result ≡ often + 1 }
    ensures rests { RestsOn S.allows RemembersRest seat.old.me.0 seat.new.me.0 }
{
    rests_last::<S>();
    let at = rests_place(layout, number);
    words.store_with::<Brand, ()>(seat, at, 2 * (often + 1), ());
    often + 1
}

/// A pass goes away, until it rests again: one store, between two calls. It has rested `often`
/// times.
pub fn leave<S: Shape>(
    words: &Words<S>,
    layout: &Layout,
    seat: &mut Seat<u8, SeatView>,
    number: PassNo,
    often: u64,
)
    requires table { IsLastingSeat words.now layout.now seat.old }
    requires between { (p : SeatedPass) × (seat.old.me.0.passes ≡ p ∷ [])
        × (p.number ≡ number) × (p.memory.often ≡ often)
        × AreFinished p.layout p.number.0 0 (past_of p []) }
    requires inside { number.0 < layout.now.passes }
    requires few { often ≤ MOST_RESTS }
    ensures table { IsSameSeat seat.old seat.new }
    ensures leaves { RestsOn S.allows RemembersLeaving seat.old.me.0 seat.new.me.0 }
{
    rests_last::<S>();
    let at = rests_place(layout, number);
    words.store_with::<Brand, ()>(seat, at, 2 * often + 1, ());
}
