//! What holds of a group whose price sheet becomes longer while it runs, one process after the other, said of the model
//! alone. Each law is a function with an empty body.
#![tactic(auto)]

pub mod laws;
