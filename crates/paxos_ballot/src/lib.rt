//! One decree of Paxos: what the nodes of a group promise, accept and choose in one billing period.
//!
//! Each call is one case of the model, without a network and without nodes.
#![tactic(auto)]

mod acceptor;
mod attempt;
mod ballots;
pub mod laws;
mod node_set;
mod votes;

pub use acceptor::{Acceptor, PrepareStep};
pub use attempt::{Attempt, PromiseStep};
pub use ballots::{Ballot, Vote, majority};
pub use votes::Tally;
