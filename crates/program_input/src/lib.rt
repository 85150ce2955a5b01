//! What a program reads: all of its input, up to a limit; and why nothing comes of one.
#![tactic(auto)]

mod faults;
mod inputs;

pub use faults::PlayFault;
pub use input_sections::{ScheduleCode, ScheduleFault};
pub use inputs::read_input;
