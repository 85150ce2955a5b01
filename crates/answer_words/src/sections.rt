//! The words of a fault of a section.

ghost use Rattle.std.specs.Prelude.{◌≡◌, ◌+◌, ◌≤◌, ◌++◌, length};
ghost use Rattle.answer_words.specs.Words.{section_code_text, section_text};

use byte_text::Line;
use input_sections::ScheduleCode;

/// The text of a section's code, as `L4`.
pub fn section_code_word(code: ScheduleCode) -> &'static [u8]
    ensures word { result.now ≡ section_code_text code }
    ensures length { length result.now ≡ 2 }
{
    match code {
        ScheduleCode::Head => b"L1",
        ScheduleCode::Nodes => b"L2",
        ScheduleCode::Agents => b"L3",
        ScheduleCode::Sheet => b"L4",
        ScheduleCode::Issuer => b"L5",
        ScheduleCode::Event => b"L6",
        ScheduleCode::Lines => b"L7",
        ScheduleCode::TooLong => b"L8",
    }
}

/// Appends the code and the line of a text's first fault, as `L4 line 1`: at most 18 bytes, which have to be free.
pub fn put_section(line: &mut Line, code: ScheduleCode, at: u32)
    requires room { length line.old + 18 ≤ 64 }
    ensures put { line.new ≡ line.old ++ section_text code at }
    ensures room { length line.new ≤ length line.old + 18 }
{
    line.put(section_code_word(code));
    line.put(b" line ");
    line.put_number(at);
}
