//! The words of a refusal.

ghost use Rattle.std.specs.Prelude.{◌≡◌, ◌+◌, ◌≤◌, ◌++◌, length};
ghost use Rattle.metering_model.specs.Transcript.{code_text, kept_code_text, refusal_text, with_number};

use byte_text::Line;
use metering_model::{BatchCode, BatchFault, KeptCode, KeptTextFault, Refusal};

/// The text of a batch's code, as `V5`.
pub fn code_word(code: BatchCode) -> &'static [u8]
    ensures word { result.now ≡ code_text code }
    ensures length { length result.now ≡ 2 }
{
    match code {
        BatchCode::Head => b"V1",
        BatchCode::Count => b"V2",
        BatchCode::Fields => b"V3",
        BatchCode::Time => b"V4",
        BatchCode::Number => b"V5",
        BatchCode::Text => b"V6",
        BatchCode::Tags => b"V7",
        BatchCode::TooLong => b"V8",
    }
}

/// The text of the code of a kept text, as `H3`.
pub fn kept_code_word(code: KeptCode) -> &'static [u8]
    ensures word { result.now ≡ kept_code_text code }
    ensures length { length result.now ≡ 2 }
{
    match code {
        KeptCode::Head => b"H1",
        KeptCode::Cut => b"H2",
        KeptCode::Batch => b"H3",
        KeptCode::Order => b"H4",
        KeptCode::Extra => b"H5",
    }
}

/// Appends a word of at most 12 bytes, and a number after it.
fn put_numbered(line: &mut Line, word: &[u8], number: u32)
    requires short { length word.now ≤ 12 }
    requires room { length line.old + 22 ≤ 64 }
    ensures put { line.new ≡ line.old ++ with_number word.now number }
    ensures room { length line.new ≤ length line.old + 22 }
{
    line.put(word);
    line.put_number(number);
}

/// Appends what is told of bytes that are no batch: the batch's own fault, at a line of the batch.
fn put_bad_batch(line: &mut Line, fault: BatchFault)
    requires room { length line.old + 40 ≤ 64 }
    ensures put { line.new ≡ line.old ++ refusal_text (Refusal.BadBatch fault) }
    ensures room { length line.new ≤ length line.old + 40 }
{
    line.put(b"G1 ");
    line.put(code_word(fault.code));
    put_numbered(line, b" line ", fault.line);
}

/// Appends what is told of lines that are of nothing a node keeps: their first fault, at a line of their own.
fn put_bad_kept(line: &mut Line, fault: KeptTextFault)
    requires room { length line.old + 40 ≤ 64 }
    ensures put { line.new ≡ line.old ++ refusal_text (Refusal.BadKept fault) }
    ensures room { length line.new ≤ length line.old + 40 }
{
    line.put(b"G14 ");
    line.put(kept_code_word(fault.code));
    line.put(b" line ");
    line.put_long_number(fault.line);
}

/// Appends which batch a node lacks.
fn put_missing(line: &mut Line, agent: u8, seq: u32)
    requires room { length line.old + 44 ≤ 64 }
    ensures put { line.new ≡ line.old ++ refusal_text (Refusal.Missing agent seq) }
    ensures room { length line.new ≤ length line.old + 44 }
{
    put_numbered(line, b"G8 agent ", u32::from(agent));
    put_numbered(line, b" seq ", seq);
}

/// Appends the code of the refusal and what it tells.
fn put_refusal(line: &mut Line, refusal: Refusal)
    requires room { length line.old + 44 ≤ 64 }
    ensures put { line.new ≡ line.old ++ refusal_text refusal }
    ensures room { length line.new ≤ length line.old + 44 }
{
    match refusal {
        Refusal::BadBatch(fault) => put_bad_batch(line, fault),
        Refusal::WrongSeq { wanted } => put_numbered(line, b"G2 wanted ", wanted),
        Refusal::BadTarget => line.put(b"G3"),
        Refusal::Unpriced => line.put(b"G4"),
        Refusal::NoPacket => line.put(b"G5"),
        Refusal::NoNode => line.put(b"G6"),
        Refusal::NotClosed { learned } => put_numbered(line, b"G7 learned ", u32::from(learned)),
        Refusal::Missing { agent, seq } => put_missing(line, agent, seq),
        Refusal::AllClosed => line.put(b"G9"),
        Refusal::NoBallot => line.put(b"G10"),
        Refusal::WorldFull => line.put(b"G11"),
        Refusal::NoAgent => line.put(b"G12"),
        Refusal::Observer => line.put(b"G13"),
        Refusal::BadKept(fault) => put_bad_kept(line, fault),
        Refusal::NotKept => line.put(b"G15"),
    }
}

/// The code of the refusal and its numbers, as `G1 V2 line 4`; at most 44 bytes.
pub fn refusal_line(refusal: Refusal) -> Line
    ensures text { result ≡ refusal_text refusal }
    ensures short { length result ≤ 44 }
{
    let mut line = Line::new();
    put_refusal(&mut line, refusal);
    line
}
