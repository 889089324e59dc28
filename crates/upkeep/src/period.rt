//! Periods of a pass: which others have rested since it began to wait for them.
ghost use Rattle.std.specs.Prelude.{◌≡◌, ◌+◌, ◌<◌, ◌*◌, ◌==◌, if◌then◌else◌, ℕ, false, List, [], ◌∷◌, Option, Some, None, IsTrue, MatchOption};
ghost use Rattle.arena.specs.declared.step.Row.{Row};
ghost use Rattle.arena.specs.History.{Extends};
ghost use Rattle.tables.specs.LastingNotes.{HasSeenAllRest, waits_of};
ghost use Rattle.tables.specs.Seats.{IsSameSeat};
ghost use Rattle.tables.specs.Slotted.{names_of_table};
ghost use Rattle.tables.specs.TableRule.{history_of};
ghost use Rattle.tables.specs.declared.view.SeatedPass.{SeatedPass};
ghost use Rattle.upkeep.specs.UpkeepSteps.{IsLastingSeat, RestsOn};
ghost use Rattle.upkeep.specs.UpkeepPeriod.{BeginsPeriod, HasLookedAgain, HasLookedFirst, IsFirstWaited, WaitsForNobody, HasPeriod, PollsOn, last_poll, poll_of};

use crate::counter::rests_place;
use arena::{Layout, PassNo, Shape};
use atomic_table::Seat;
use std::marker::Brand;
use tables::lasting_laws::looks_last;
use tables::view::SeatView;
use tables::words::Words;

/// How often a pass has rested, by its word: nothing if it is away, since it then rests all the
/// time.
fn rests_of(word: u64) -> Option<u64>
    ensures { result ≡ waits_of word }
{
    (word % 2 == 0).then_some(word / 2)
}

/// So often, if a pass's word tells that it has still rested no more than that, and is there.
fn still_waits(word: u64, seen: u64) -> Option<u64>
    ensures { result ≡ (if word == 2 * seen then Some seen else None) }
{
    (word % 2 == 0 && word / 2 == seen).then_some(seen)
}

/// Looks for the first time at how often another pass has rested: nothing if it is not to be waited
/// for, since it is away.
fn look<S: Shape>(
    words: &Words<S>,
    layout: &Layout,
    seat: &mut Seat<u8, SeatView>,
    other: PassNo,
) -> Option<u64>
    requires table { IsLastingSeat words.now layout.now seat.old }
    requires one { (p : SeatedPass) × (seat.old.me.0.passes ≡ p ∷ []) }
    requires inside { other.0 < layout.now.passes }
    ensures table { IsSameSeat seat.old seat.new }
    ensures looked { RestsOn S.allows (HasLookedFirst other.0 result)
        seat.old.me.0 seat.new.me.0 }
{
    looks_last::<S>();
    let at = rests_place(layout, other);
    rests_of(words.load_with::<Brand, PassNo>(seat, at, other))
}

/// Looks again at another pass that had rested so often: nothing if it has rested since, or is away.
fn look_again<S: Shape>(
    words: &Words<S>,
    layout: &Layout,
    seat: &mut Seat<u8, SeatView>,
    other: PassNo,
    seen: u64,
) -> Option<u64>
    requires table { IsLastingSeat words.now layout.now seat.old }
    requires one { (p : SeatedPass) × (seat.old.me.0.passes ≡ p ∷ [])
        × (moment : List Row) × (last_poll other.0 p.memory.polls
        ≡ Some (poll_of other.0 moment (Some seen))) }
    requires inside { other.0 < layout.now.passes }
    ensures table { IsSameSeat seat.old seat.new }
    ensures looked { RestsOn S.allows (HasLookedAgain other.0 seen result)
        seat.old.me.0 seat.new.me.0 }
{
    looks_last::<S>();
    let at = rests_place(layout, other);
    let about = (other, seen);
    still_waits(
        words.load_with::<Brand, (PassNo, u64)>(seat, at, about),
        seen,
    )
}

/// Which other passes a pass waits for, from a moment on.
#[derive(Clone, Copy)]
pub struct Period {
    /// By its number, how often each had rested that it waits for.
    waits: [Option<u64>; 32],
}

impl Period {
    /// A period that begins now, by a look at each other pass: so many steps as there are others.
    pub fn begin<S: Shape>(
        words: &Words<S>,
        layout: &Layout,
        seat: &mut Seat<u8, SeatView>,
        number: PassNo,
    ) -> Period
        requires table { IsLastingSeat words.now layout.now seat.old }
        requires one { (p : SeatedPass) × (seat.old.me.0.passes ≡ p ∷ []) × (p.number ≡ number) }
        ensures table { IsSameSeat seat.old seat.new }
        ensures begins { RestsOn S.allows (BeginsPeriod layout.now.passes result)
            seat.old.me.0 seat.new.me.0 }
    {
        let mut period = Period { waits: [None; 32] };
        for other in 0..layout.passes {
            period.take_in(words, layout, seat, number, PassNo(other));
        }
        period
    }

    /// Takes in the next pass, if it is another one.
    fn take_in<S: Shape>(
        &mut self,
        words: &Words<S>,
        layout: &Layout,
        seat: &mut Seat<u8, SeatView>,
        number: PassNo,
        next: PassNo,
    )
        requires table { IsLastingSeat words.now layout.now seat.old }
        requires one { (p : SeatedPass) × (seat.old.me.0.passes ≡ p ∷ []) × (p.number ≡ number) }
        requires inside { next.0 < layout.now.passes }
        ensures table { IsSameSeat seat.old seat.new }
        ensures polls { RestsOn S.allows (PollsOn next.0 (next.0 + 1) self.old self.new)
            seat.old.me.0 seat.new.me.0 }
    {
        if next.0 == number.0 {
            return;
        }
        self.waits[next.0 as usize] = look(words, layout, seat, next);
    }

    /// Looks again at each pass that is still waited for, a step for each, and says whether all
    /// have rested since the period began.
    pub fn poll<S: Shape>(
        &mut self,
        words: &Words<S>,
        layout: &Layout,
        seat: &mut Seat<u8, SeatView>,
    ) -> bool
        requires table { IsLastingSeat words.now layout.now seat.old }
        requires period { (p : SeatedPass) × (seat.old.me.0.passes ≡ p ∷ [])
            × (rows : List Row) × HasPeriod layout.now.passes p rows self.old }
        ensures table { IsSameSeat seat.old seat.new }
        ensures polls { RestsOn S.allows
            (PollsOn layout.now.passes layout.now.passes self.old self.new)
            seat.old.me.0 seat.new.me.0 }
        ensures over { IsTrue result → (q : SeatedPass) (rows : List Row)
            → HasPeriod layout.now.passes q rows self.new → q.memory.away ≡ false
            → Extends (history_of q.planting q.memory.rested) (history_of q.planting rows)
            → HasSeenAllRest (names_of_table words.now.table.shared.key) q rows }
    {
        for other in 0..layout.passes {
            self.ask(words, layout, seat, PassNo(other));
        }
        self.waits_for().is_none()
    }

    /// Looks again at a pass, if it is waited for.
    fn ask<S: Shape>(
        &mut self,
        words: &Words<S>,
        layout: &Layout,
        seat: &mut Seat<u8, SeatView>,
        other: PassNo,
    )
        requires table { IsLastingSeat words.now layout.now seat.old }
        requires period { (p : SeatedPass) × (seat.old.me.0.passes ≡ p ∷ [])
            × (rows : List Row) × HasPeriod layout.now.passes p rows self.old }
        requires inside { other.0 < layout.now.passes }
        ensures table { IsSameSeat seat.old seat.new }
        ensures polls { RestsOn S.allows
            (PollsOn layout.now.passes layout.now.passes self.old self.new)
            seat.old.me.0 seat.new.me.0 }
    {
        if let Some(seen) = self.waits[other.0 as usize] {
            self.waits[other.0 as usize] = look_again(words, layout, seat, other, seen);
        }
    }

    /// The first pass that is waited for: until it rests or goes away, nothing comes back that was
    /// found before the period began.
    pub fn waits_for(&self) -> Option<PassNo>
        ensures { MatchOption result (WaitsForNobody self.now) (λ other. IsFirstWaited self.now other.0) }
    {
        for other in 0..32 {
            if self.waits[other].is_some() {
                return Some(PassNo(other as u32));
            }
        }
        None
    }
}
