//! What `focusd play` does: the transcript of a schedule, from a source to a sink.
#![tactic(auto)]

mod events;
mod play;
mod playing;
mod rendered_once;
mod reply_lines;
mod reply_texts;

pub use events::{event_of, event_within};
pub use group_core::World;
pub use group_events::Reply;
pub use play::{opening_world, play_text};
pub use program_input::{PlayFault, read_input};
