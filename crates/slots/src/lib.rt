//! A table whose places are taken again and again: which words of it a run over ever new names has
//! left there.
#![tactic(auto)]

mod laws;

pub use laws::{counts_hold, names_hold, names_pass, polls_hold, slots_hold, window_holds};
