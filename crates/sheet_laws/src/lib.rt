//! What a run under one sheet and the same run under a longer one have in common, said of the model alone.
#![tactic(auto)]

pub mod laws;
