//! What every run of a group keeps, said of the model alone. Each law is a function with an empty body.
#![tactic(auto)]

pub mod laws;
