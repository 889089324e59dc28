//! When what is dead comes back: passes that rest, and periods in which each has rested.
#![tactic(auto)]

mod laws;

pub use laws::{
    dead_comes_back, lookups_tell, notes_hold, reach_holds, rests_hold, unborn_stays_out,
};
