//! One usage record, read where its line lies: its texts are lent, and not copied.
#![tactic(auto)]

pub use byte_text::{find_byte, lines_length, read_whole, split_at_bar};
pub use fields::{Field, Span};
pub use fx_money::Value;
pub use kept::{Numbers, kept_reading};
pub use metering_model::{BatchCode, Kind, Version};
pub use records::{Reading, Record, read_exact, read_plain, read_record};
pub use spans::field_spans;
pub use stamps::StampReader;
pub use tags::Tags;
pub use utc_calendar::Stamp;

mod exact;
mod field_rules;
mod fields;
mod kept;
pub mod laws;
mod plain;
mod plain_records;
mod records;
mod regions;
mod spans;
mod stamps;
mod tags;
mod texts;
