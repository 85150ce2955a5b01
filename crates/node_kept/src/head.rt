//! The head line of a kept text.

ghost use Rattle.std.specs.Prelude.{◌≡◌, ◌≤◌, ◌∷◌, [], Ok, Err, MatchOption, length};
ghost use Rattle.metering_model.specs.BatchReading.{fields_in, whole_in};
ghost use Rattle.metering_model.specs.KeptText.{kept_head_in};
ghost use Rattle.metering_model.specs.Limits.{most_batches};
ghost use Rattle.node_kept.specs.Inner.Head.{head_of};

use byte_text::{is_same, read_whole, split_at_bar, whole_up_to};
use metering_model::KeptCode;

/// The numbers of a head line: how many agents there are, the round, how many cuts were learned, the ballots promised
/// and voted for, 0 for none, and how many batches there are.
#[derive(Clone, Copy)]
pub(crate) struct Head {
    pub(crate) agents: u8,
    pub(crate) round: u16,
    pub(crate) learned: u16,
    pub(crate) promised: u32,
    pub(crate) ballot: u32,
    pub(crate) batches: u32,
}

/// The seven fields of a head line.
#[derive(Clone, Copy)]
struct HeadFields<'a> {
    version: &'a [u8],
    agents: &'a [u8],
    round: &'a [u8],
    learned: &'a [u8],
    promised: &'a [u8],
    ballot: &'a [u8],
    batches: &'a [u8],
}

/// The first three fields, and the text of those behind them, if there are more than three.
fn three_fields(text: &[u8]) -> Option<(&[u8], &[u8], &[u8], &[u8])>
    ensures { MatchOption result (length (fields_in text.now) ≤ 3)
        (λ f. fields_in text.now ≡ f.0.now ∷ f.1.now ∷ f.2.now ∷ fields_in f.3.now) }
{
    let (one, rest) = split_at_bar(text)?;
    let (two, rest) = split_at_bar(rest)?;
    let (three, rest) = split_at_bar(rest)?;
    Some((one, two, three, rest))
}

/// The fields, if there are just seven.
fn head_fields(line: &[u8]) -> Option<HeadFields<'_>>
    ensures { MatchOption result
        (kept_head_in (fields_in line.now) ≡ Err KeptCode.Head)
        (λ f. fields_in line.now
        ≡ f.version.now ∷ f.agents.now ∷ f.round.now ∷ f.learned.now ∷ f.promised.now ∷ f.ballot.now
        ∷ f.batches.now ∷ []) }
{
    let (version, agents, round, rest) = three_fields(line)?;
    let (learned, promised, ballot, batches) = three_fields(rest)?;
    if split_at_bar(batches).is_some() {
        return None;
    }
    Some(HeadFields {
        version,
        agents,
        round,
        learned,
        promised,
        ballot,
        batches,
    })
}

/// How many batches a text says, at most 64,000,000.
fn batch_count(text: &[u8]) -> Option<u32>
    ensures { result ≡ whole_in 0 most_batches text.now }
{
    let number = whole_up_to(text, 64_000_000)?;
    Some(number as u32)
}

/// The head that a line is, if it is one within the limits.
pub(crate) fn head_of_line(line: &[u8]) -> Option<Head>
    ensures { MatchOption result
        (kept_head_in (fields_in line.now) ≡ Err KeptCode.Head)
        (λ h. kept_head_in (fields_in line.now) ≡ Ok (head_of h)) }
{
    let fields = head_fields(line)?;
    if !is_same(fields.version, b"K1") {
        return None;
    }
    Some(Head {
        agents: read_whole(fields.agents, 1, 64)? as u8,
        round: read_whole(fields.round, 0, 10_000)? as u16,
        learned: read_whole(fields.learned, 0, 1_200)? as u16,
        promised: read_whole(fields.promised, 0, 990_098)?,
        ballot: read_whole(fields.ballot, 0, 990_098)?,
        batches: batch_count(fields.batches)?,
    })
}
