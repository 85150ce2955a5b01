//! What is left of a text.

ghost use Rattle.std.specs.Prelude.{◌≡◌, ◌≢◌, ◌+◌, ◌<◌, ◌≤◌, length, drop, true, false, IfOk, IfErr, MatchOption, MatchResult};
ghost use Rattle.input_sections.specs.Sections.{IsCounted, begins_with, code_of_end, first_line, left, lines_left, section_of, whole_of};

use crate::faults::{ScheduleCode, ScheduleFault};
use byte_text::{find_byte, is_same, lines_length};
use std::marker::Model;

/// The most bytes that a text may have.
const MOST_BYTES: usize = 16_777_216;

/// A text of at most 16,777,216 bytes, of which a prefix was read. Lines are counted from 1.
#[derive(Drop)]
pub struct Unread<'a> {
    text: &'a [u8],
    /// The first byte that is left.
    from: usize,
    /// The line that begins there.
    line: u32,
}

impl<'a> Model for Unread<'a> {
    ghost use Rattle.std.specs.Prelude.{◌≡◌, ◌+◌, ◌≤◌, length, take};
    ghost use Rattle.metering_model.specs.Limits.{most_input_bytes};
    ghost use Rattle.metering_model.specs.Transcript.{line_count};
    ghost use Rattle.input_sections.specs.Sections as model;

    ghost Value = { model.Unread };

    ghost view = { λ u. record {
      text = u.text.now;
      from = u.from;
      line = u.line;
    } };

    ghost invariant = { λ u. (length u.text.now ≤ most_input_bytes) × (u.from ≤ length u.text.now)
        × (u.line ≤ u.from + 1)
        × (u.line ≡ 1 + line_count (take u.from u.text.now)) };
}

impl<'a> Unread<'a> {
    /// All of a text. One of more than 16,777,216 bytes is refused with L8 at line 1. Never OutOfMemory.
    pub fn whole(text: &'a [u8]) -> Result<Unread<'a>, ScheduleFault>
        ensures whole { MatchResult result (λ u. whole_of text.now ≡ Ok u)
            (λ fault. whole_of text.now ≡ Err fault) }
        ensures want { IfErr result (λ fault. fault ≢ ScheduleFault.OutOfMemory) }
    {
        if text.len() > MOST_BYTES {
            return Err(ScheduleFault::Refused {
                code: ScheduleCode::TooLong,
                line: 1,
            });
        }
        Ok(Unread {
            text,
            from: 0,
            line: 1,
        })
    }

    /// The bytes that are left.
    pub fn left(&self) -> &'a [u8]
        ensures { result.now ≡ left self.now }
    {
        &self.text[self.from..]
    }

    /// How many bytes of the text were read: the index of the first that is left.
    pub fn from(&self) -> usize
        ensures value { result ≡ self.now.from }
        ensures within { result ≤ length self.now.text }
    {
        self.from
    }

    /// The number of the line that comes next: one more than the line feeds before what is left.
    pub fn line(&self) -> u32
        ensures value { result ≡ self.now.line }
        ensures counted { IsCounted self.now }
    {
        self.line
    }

    /// Whether what is left begins with the word.
    pub fn begins_with(&self, word: &[u8]) -> bool
        ensures { result ≡ begins_with word.now (left self.now) }
    {
        behind_word(self.left(), word).is_some()
    }

    /// The next line, without its line feed, and what is left after it.
    ///
    /// Refused at that line: with `code` where nothing is left, and with L7 where it has no line feed. Never
    /// OutOfMemory.
    pub fn first_line(&self, code: ScheduleCode) -> Result<(&'a [u8], Unread<'a>), ScheduleFault>
        ensures line { MatchResult result
            (λ parts. first_line code self.now ≡ Ok (parts.0.now, parts.1))
            (λ fault. first_line code self.now ≡ Err fault) }
        ensures text { IfOk result (λ parts. parts.1.text ≡ self.now.text) }
        ensures want { IfErr result (λ fault. fault ≢ ScheduleFault.OutOfMemory) }
    {
        let left = self.left();
        let Some(length) = find_byte(left, b'\n') else {
            return Err(ScheduleFault::Refused {
                code: code_of_end(code, left),
                line: self.line,
            });
        };
        let rest = Unread {
            text: self.text,
            from: self.from + length + 1,
            line: self.line + 1,
        };
        Ok((&left[..length], rest))
    }

    /// What is left after so many lines; None where fewer are left.
    pub fn behind_lines(&self, count: u32) -> Option<Unread<'a>>
        ensures { MatchOption result (length (lines_left self.now) < count)
            (λ rest. (count ≤ length (lines_left self.now))
            × (rest ≡ (section_of count self.now).rest)) }
    {
        let length = lines_length(self.left(), count)?;
        Some(Unread {
            text: self.text,
            from: self.from + length,
            line: self.line + count,
        })
    }
}

/// What stands after the word, where the text begins with it; else None.
pub fn behind_word<'a>(text: &'a [u8], word: &[u8]) -> Option<&'a [u8]>
    ensures { MatchOption result (begins_with word.now text.now ≡ false)
        (λ rest. (begins_with word.now text.now ≡ true)
        × (rest.now ≡ drop (length word.now) text.now)) }
{
    if text.len() < word.len() {
        return None;
    }
    let (front, rest) = text.split_at(word.len());
    if is_same(front, word) {
        Some(rest)
    } else {
        None
    }
}

/// The code of the line that is wanted, where what is left holds no whole line.
fn code_of_end(code: ScheduleCode, left: &[u8]) -> ScheduleCode
    ensures { result ≡ code_of_end code left.now }
{
    match left {
        [] => code,
        _ => ScheduleCode::Lines,
    }
}
