//! A group that runs in threads: one for each node and each agent, around one book.
#![tactic(auto)]

mod agents;
mod boards;
mod desks;
mod gates;
mod groups;
mod nodes;
mod runs;
mod threads;

pub use gates::Gate;
pub use groups::run_group;
pub use node_book::{Book, Done, Log, Plan, Receipt};
pub use runs::{Run, RunFault};
