//! Nodes and agents of a group as processes of their own: what each does by itself with what it is handed.
#![tactic(auto)]

mod added;
mod agents;
mod beginning;
mod exporting;
mod foreign;
mod groups;
mod nodes;
mod refusals;
mod taking;

pub use added::Added;
pub use agents::{AgentProcess, Journaled};
pub use beginning::Begun;
pub use groups::Group;
pub use nodes::NodeProcess;
pub use refusals::ProcessRefusal;
pub use taking::Taken;
