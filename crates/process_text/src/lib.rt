//! What a process of a group is asked, read from lines of text, and what it answers, written as such.
#![tactic(auto)]

mod agents;
mod answer_texts;
mod answers;
mod nodes;
mod processes;
mod requests;

pub use answer_texts::AnswerText;
pub use processes::Process;
