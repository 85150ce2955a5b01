//! Texts as bytes: finding and counting bytes, whole numbers read and appended, and the words of a refusal.
#![tactic(auto)]

mod alike;
mod finding;
mod lines;
mod numbers;
mod wholes;

pub use alike::is_same;
pub use finding::{find_byte, first_line, line_count, lines_length, lowest_set, split_at_bar};
pub use lines::Line;
pub use numbers::{put_if_any, put_number, put_numbered, put_two_digits};
pub use wholes::{is_whole_part, read_whole, whole_up_to};
