//! Lines that say how many lines stand below them.

ghost use Rattle.std.specs.Prelude.{◌≡◌};
ghost use Rattle.metering_model.specs.BatchReading.{whole_in};
ghost use Rattle.log_text.specs.LogText.{section_in};

use byte_text::{is_same, whole_up_to};

/// A number from 1 on.
fn read_count(text: &[u8], most: u32) -> Option<u32>
    ensures { result ≡ whole_in 1 most text.now }
{
    let Some(number) = whole_up_to(text, u64::from(most)) else {
        return None;
    };
    if number < 1 {
        None
    } else {
        Some(number as u32)
    }
}

/// How many lines a line says to be below, from 1 on, if it has that word.
pub(crate) fn read_section(line: &[u8], word: &[u8], most: u32) -> Option<u32>
    ensures { result ≡ section_in word.now most line.now }
{
    if line.len() < word.len() {
        return None;
    }
    let (front, behind) = line.split_at(word.len());
    if !is_same(front, word) {
        return None;
    }
    read_count(behind, most)
}
