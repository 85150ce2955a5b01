//! Sinks and sources of bytes that count the calls that failed, so that callers can show that a fault which they report
//! is one of the device, during that very call.
#![tactic(auto)]

mod counting;
mod devices;
pub mod laws;
mod reading;
mod writing;

pub use counting::Counted;
pub use devices::{FakeReader, FakeWriter};
pub use reading::{Input, ReadFault, Source, read_to_limit};
pub use writing::{Failed, Sink, write_all};
