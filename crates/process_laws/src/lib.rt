//! What holds of a group whose nodes and agents are processes of their own, said of the model alone. Each law is a function
//! with an empty body.
#![tactic(auto)]

pub mod laws;
