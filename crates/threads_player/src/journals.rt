//! What the agents of a group journal.

ghost use Rattle.std.specs.Prelude.{◌≡◌, ◌≤◌, ◌++◌, map, vec_len, IfOk, OnOk};
ghost use Rattle.std.specs.List.{range_with_len};
ghost use Rattle.threads_player.specs.Groups.{batch_text, hour_text, journals_of, month_of, reading_text};

use crate::Size;
use byte_text::{put_numbered, put_two_digits};
use std::alloc::{AllocError, Global};

/// The month of 2025, counted from 1, in which an agent's batch of that sequence falls due.
fn month_of(size: Size, seq: u8) -> u16
    requires from { 1 ≤ seq }
    requires to { seq ≤ size.batches }
    ensures { result ≡ month_of size seq }
{
    1 + u16::from(seq - 1) * u16::from(size.periods) / u16::from(size.batches)
}

/// Appends an hour of the first day of a month of 2025.
fn put_hour(text: &mut Vec<u8>, month: u16, hour: u16) -> Result<(), AllocError>
    ensures { OnOk result (text.new.items ≡ text.old.items ++ hour_text month hour) }
{
    text.extend_from_slice(b"2025-")?;
    put_two_digits(text, month)?;
    text.extend_from_slice(b"-01T")?;
    put_two_digits(text, hour)?;
    text.extend_from_slice(b":00:00Z")
}

/// Appends the one reading of a batch.
fn put_reading(text: &mut Vec<u8>, agent: u8, seq: u8, month: u16) -> Result<(), AllocError>
    ensures { OnOk result (text.new.items ≡ text.old.items ++ reading_text agent seq month) }
{
    text.extend_from_slice(b"U|")?;
    put_hour(text, month, 0)?;
    text.extend_from_slice(b"|")?;
    put_hour(text, month, 1)?;
    put_numbered(text, b"|acc-", u128::from(agent))?;
    put_numbered(text, b"|vm-", u128::from(agent))?;
    put_numbered(text, b"|cpu|", 3600 * u128::from(seq))?;
    text.extend_from_slice(b"||")
}

/// The text of an agent's batch of that sequence.
fn batch(alloc: Global, size: Size, agent: u8, seq: u8) -> Result<Vec<u8>, AllocError>
    requires from { 1 ≤ seq }
    requires to { seq ≤ size.batches }
    ensures { IfOk result (λ text. text.items ≡ batch_text size agent seq) }
{
    let mut text = Vec::new(alloc);
    put_numbered(&mut text, b"B1|", u128::from(agent))?;
    put_numbered(&mut text, b"|", u128::from(seq))?;
    text.extend_from_slice(b"|1\n")?;
    put_reading(&mut text, agent, seq, month_of(size, seq))?;
    text.push(b'\n')?;
    Ok(text)
}

/// The texts of an agent's batches, in order.
fn journal(alloc: Global, size: Size, agent: u8) -> Result<Vec<Vec<u8>>, AllocError>
    ensures { IfOk result (λ texts. map (λ text. text.items) texts.items
        ≡ map (batch_text size agent) (range_with_len 1 size.batches)) }
{
    let mut texts = Vec::with_capacity(alloc, usize::from(size.batches))?;
    for place in 0..size.batches {
        texts.push(batch(alloc, size, agent, place + 1)?)?;
    }
    Ok(texts)
}

/// The texts of each agent's batches.
pub(crate) fn journals(alloc: Global, size: Size) -> Result<Vec<Vec<Vec<u8>>>, AllocError>
    ensures texts { IfOk result
        (λ journals. map (λ texts. map (λ text. text.items) texts.items) journals.items
        ≡ journals_of size) }
    ensures count { IfOk result (λ journals. vec_len journals ≡ size.agents) }
{
    let mut journals = Vec::with_capacity(alloc, usize::from(size.agents))?;
    for place in 0..size.agents {
        journals.push(journal(alloc, size, place + 1)?)?;
    }
    Ok(journals)
}
