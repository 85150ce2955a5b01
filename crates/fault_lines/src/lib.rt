//! How a fault of an input is told: by the line of the whole input on which it stands, its code, and what is known of it.
#![tactic(auto)]

mod ahead;
mod batches;
mod checks;
mod fields;
mod key_lines;
pub mod laws;
mod sections;
mod text_kinds;
mod toml_stops;
mod unknown_keys;

pub use ahead::LatestDays;
pub use batches::{put_at, put_refused_text};
pub use checks::{Check, check_input};
pub use fields::RecordField;
pub use sections::put_fault;
pub use unknown_keys::{put_unknown_keys, put_unknown_on};
