//! Whole calls as straight code. Each step is the one for which the call's machine waits at that
//! place, so the machine's conditions say what is known there; the machine itself does not run, but
//! if something is in the way, or has happened between: it continues from that place. The machine
//! of an ordered read also gets what the last load of its VLX found, and then answers.
#![tactic(auto)]

pub mod balance;
pub mod call_machine;
pub mod calls;
pub mod fresh_nodes;
pub mod guard;
pub mod hand;
pub mod helps;
pub mod last_walk;
pub mod llx;
pub mod node;
pub mod ordered_read;
pub mod put;
pub mod reads;
pub mod resume;
pub mod room;
pub mod scx;
pub mod step;
pub mod steps;
pub mod update;
pub mod vlx;
pub mod walk;
