//! The rules of the journals: which record of what a store has, or of a batch that is to be put into it, breaks one
//! first.
#![tactic(auto)]

mod journaled;
mod prices;
mod rules;
mod targets;

pub use batch_store::{RecordPlace, Store};
pub use rules::{first_bad, first_bad_alone, first_broken, first_broken_alone, first_broken_up_to};
