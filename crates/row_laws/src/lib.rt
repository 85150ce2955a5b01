//! The reconciliation: what the files of all periods say together. Laws over the definitions alone.
#![tactic(auto)]

pub mod laws;
