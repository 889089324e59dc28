//! Which words a call touches, and that it comes to no other.
#![tactic(auto)]

mod laws;
mod untouched;

pub use laws::{
    calls_touch, dictionaries_step, dictionaries_touch, machines_touch, parts_touch, steps_touch,
    walks_touch,
};
pub use untouched::{dead_is_out_of_reach, dead_is_untouched, freshness_holds, left_stays_out};
