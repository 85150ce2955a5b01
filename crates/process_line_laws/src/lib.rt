//! What holds of the lines that the processes of a group are asked and answer, and of their logs. Each law is a function with
//! an empty body.
#![tactic(auto)]

pub mod laws;
