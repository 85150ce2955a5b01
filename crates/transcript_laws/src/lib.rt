//! The headline of what a transcript's bytes show, said of the model alone. Each law is a function with an empty body.
#![tactic(auto)]

pub mod laws;
