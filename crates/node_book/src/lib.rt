//! The book of a group that many workers act on: each act is one step, and what was done stands in one history.
#![tactic(auto)]

mod agreeing;
mod books;
mod done;
mod entries;
mod logs;
mod plans;

pub use batch_view::Offer;
pub use books::Book;
pub use done::Done;
pub use entries::{Entry, Receipt};
pub use group_events::{Event, Reply};
pub use logs::Log;
pub use metering_model::Worker;
pub use plans::Plan;
