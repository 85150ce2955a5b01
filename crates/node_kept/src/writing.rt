//! What a node keeps, written as text.

ghost use Rattle.std.specs.Prelude.{◌≡◌, ◌≤◌, ◌++◌, ◌∷◌, codes, decimal, length, map, IfOk};
ghost use Rattle.std.specs.Arc.{arc_value};
ghost use Rattle.std.specs.List.{flat_map};
ghost use Rattle.std.specs.Option.{option_copied};
ghost use Rattle.metering_model.specs.Batch.{batch_text, line_of_fields};
ghost use Rattle.metering_model.specs.KeptText.{cut_text, kept_head_fields, kept_text, promised_number, vote_cuts, vote_number};
ghost use Rattle.metering_model.specs.Limits.{most_batches};

use crate::kept::{Kept, Parts};
use batch_store::{Batches, Cut};
use byte_text::put_numbered;
use paxos_ballot::{Ballot, Vote};
use std::alloc::{AllocError, Global};
use std::sync::Arc;

/// The ballot's number, 0 for none.
pub fn promised_number(ballot: Option<Ballot>) -> u32
    ensures { result ≡ promised_number ballot }
{
    match ballot {
        Some(ballot) => ballot.number(),
        None => 0,
    }
}

/// The number of the vote's ballot, 0 for none.
fn vote_number(vote: Option<&Vote>) -> u32
    ensures { result ≡ vote_number (option_copied vote.entry) }
{
    match vote {
        Some(vote) => vote.ballot.number(),
        None => 0,
    }
}

/// Appends a head line of these numbers.
fn put_head(text: &mut Vec<u8>, numbers: &[u64]) -> Result<(), AllocError>
    ensures { IfOk result (λ _. text.new.items ≡ text.old.items
        ++ line_of_fields (codes "K1" ∷ map decimal numbers.now)) }
{
    text.extend_from_slice(b"K1")?;
    for number in numbers {
        put_numbered(text, b"|", u128::from(*number))?;
    }
    text.push(b'\n')?;
    Ok(())
}

/// Appends a cut's line.
fn put_cut(text: &mut Vec<u8>, cut: &Cut) -> Result<(), AllocError>
    ensures { IfOk result (λ _. text.new.items ≡ text.old.items ++ cut_text cut.now) }
{
    cut.put(text)?;
    text.push(b'\n')?;
    Ok(())
}

/// Appends the lines of cuts.
fn put_cuts(text: &mut Vec<u8>, cuts: &[Arc<Cut>]) -> Result<(), AllocError>
    ensures { IfOk result (λ _. text.new.items
        ≡ text.old.items ++ flat_map cut_text (map arc_value cuts.now)) }
{
    for cut in cuts {
        put_cut(text, cut)?;
    }
    Ok(())
}

/// Appends the line of the vote's cut, if there is a vote.
fn put_vote(text: &mut Vec<u8>, vote: Option<&Vote>) -> Result<(), AllocError>
    ensures { IfOk result (λ _. text.new.items ≡ text.old.items
        ++ flat_map cut_text (vote_cuts (option_copied vote.entry))) }
{
    match vote {
        Some(vote) => put_cut(text, &vote.cut),
        None => Ok(()),
    }
}

/// How many batches there are, and how many bytes they have together.
fn size_of(mut batches: Batches<'_>) -> (u32, usize)
    requires { length batches ≤ most_batches }
    ensures { result.0 ≡ length batches.entry }
{
    let mut count = 0;
    let mut length = 0;
    while let Some(batch) = batches.next() {
        count += 1;
        length += batch.bytes().len();
    }
    (count, length)
}

/// Appends the lines of batches.
fn put_batches(text: &mut Vec<u8>, mut batches: Batches<'_>) -> Result<(), AllocError>
    ensures { IfOk result (λ _. text.new.items
        ≡ text.old.items ++ flat_map batch_text batches.entry) }
{
    while let Some(batch) = batches.next() {
        text.extend_from_slice(batch.bytes())?;
    }
    Ok(())
}

/// Appends the head line of what is kept, of so many agents and batches.
fn put_head_of(
    text: &mut Vec<u8>,
    parts: &Parts,
    agents: u8,
    batches: u32,
) -> Result<(), AllocError>
    requires agents { agents ≡ parts.now.agents }
    requires batches { batches ≡ length parts.now.kept.holding }
    ensures { IfOk result (λ _. text.new.items
        ≡ text.old.items ++ line_of_fields (kept_head_fields parts.now)) }
{
    let numbers = [
        u64::from(agents),
        u64::from(parts.round),
        parts.learned.len() as u64,
        u64::from(promised_number(parts.acceptor.promised())),
        u64::from(vote_number(parts.acceptor.vote())),
        u64::from(batches),
    ];
    put_head(text, &numbers)
}

impl Parts {
    /// The text of what is kept: a line of numbers, one for each cut, and the batches as they are. An error is an
    /// allocation failure.
    pub fn write(&self, alloc: Global) -> Result<Vec<u8>, AllocError>
        ensures { IfOk result (λ text. text.items ≡ kept_text self.now) }
    {
        let agents = self.store.agents();
        let (count, length) = size_of(self.store.batches());
        let mut text = Vec::new(alloc);
        put_head_of(&mut text, self, agents, count)?;
        put_cuts(&mut text, &self.learned)?;
        put_vote(&mut text, self.acceptor.vote())?;
        text.reserve(length)?;
        put_batches(&mut text, self.store.batches())?;
        Ok(text)
    }
}

impl Kept {
    /// Its text, which `Kept::read` takes. An error is an allocation failure.
    pub fn write(&self, alloc: Global) -> Result<Vec<u8>, AllocError>
        ensures { IfOk result (λ text. text.items ≡ kept_text self.now) }
    {
        self.parts().write(alloc)
    }
}
