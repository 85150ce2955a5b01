//! What is wrong with an input, said line by line: what the reader of a section found, where a batch is refused, which events of
//! a schedule are.
#![tactic(auto)]

mod checks;
mod events;
mod kinds;
pub mod laws;
mod ratings;
mod warnings;

pub use batch_player::rate_text;
pub use checks::{check_text, check_text_as};
pub use kinds::InputKind;
pub use schedule_player::play_text;
