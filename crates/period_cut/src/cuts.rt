//! Cuts: how far each agent's batches are charged.
ghost use Rattle.std.specs.Prelude.{◌≡◌, ◌-◌, ◌≤◌, ◌↔◌, ◌++◌, decimal, length, map, IfOk, IsTrue, OnOk, OnErr, slice_set};
ghost use Rattle.std.specs.Arc.{arc_value};
ghost use Rattle.std.specs.List.{join_with_byte};
ghost use Rattle.std.specs.Option.{option_map};
ghost use Rattle.metering_model.specs.BatchReading.{fields_in};
ghost use Rattle.metering_model.specs.Cut.{IsAtLeast, last_of, zero_cut};
ghost use Rattle.metering_model.specs.KeptText.{cut_in};
ghost use Rattle.metering_model.specs.Limits.{last_sequence, most_agents};
ghost use Rattle.period_cut.specs.Limits.{IsCut};
ghost use Rattle.period_cut.specs.Inner.Entries.{HasBehind};

use byte_text::{put_number, put_numbered, read_whole, split_at_bar};
use std::alloc::{AllocError, Global};
use std::marker::Model;
use std::sync::Arc;

/// No batch has a sequence above this one.
const LAST_SEQUENCE: u32 = 1_000_000;

/// Appends sequences, joined by `|`. Where an allocation fails some of that may stand after what was there.
fn put_entries(text: &mut Vec<u8>, entries: &[u32]) -> Result<(), AllocError>
    ensures put { OnOk result
        (text.new.items ≡ text.old.items ++ join_with_byte 124 (map decimal entries.now)) }
    ensures behind { OnErr result (HasBehind text.old.items text.new.items) }
{
    let Some((first, others)) = entries.split_first() else {
        return Ok(());
    };
    put_number(text, u128::from(*first))?;
    for seq in others {
        put_numbered(text, b"|", u128::from(*seq))?;
    }
    Ok(())
}

/// One last sequence for each agent, of 1 to 64 agents; 0 where none of the agent's batches is charged.
#[derive(Drop)]
pub struct Cut {
    entries: Vec<u32>,
}

impl Model for Cut {
    ghost use Rattle.std.specs.Prelude.{List, ℕ};
    ghost use Rattle.period_cut.specs.Limits.{IsCut};

    ghost Value = { List ℕ };

    ghost view = { λ cut. cut.entries.items };

    ghost invariant = { λ cut. IsCut cut.entries.items };
}

impl Cut {
    /// The cut before the first period: 0 for each of the agents, 1 to 64. An error is an allocation failure.
    pub fn zero(alloc: Global, agents: u8) -> Result<Cut, AllocError>
        requires from { 1 ≤ agents }
        requires to { agents ≤ most_agents }
        ensures { IfOk result (λ cut. cut ≡ zero_cut agents) }
    {
        Ok(Cut {
            entries: vec![in alloc; 0; usize::from(agents)]?,
        })
    }

    /// An equal cut, copied. An error is an allocation failure.
    pub fn copy(&self, alloc: Global) -> Result<Cut, AllocError>
        ensures { IfOk result (λ cut. cut ≡ self.now) }
    {
        Ok(Cut {
            entries: Vec::from_slice(alloc, &self.entries)?,
        })
    }

    /// Reads a cut of 1 to 64 agents from its line, without a line feed: the last sequences by agent, joined by `|`.
    /// `None` for a line of another form. An error is an allocation failure.
    pub fn read(alloc: Global, line: &[u8], agents: u8) -> Result<Option<Cut>, AllocError>
        requires from { 1 ≤ agents }
        requires to { agents ≤ most_agents }
        ensures { IfOk result (λ cut. cut ≡ cut_in agents (fields_in line.now)) }
    {
        let mut entries = Vec::with_capacity(alloc, usize::from(agents))?;
        let mut rest = line;
        for _ in 0..agents - 1 {
            let Some((field, behind)) = split_at_bar(rest) else {
                return Ok(None);
            };
            let Some(seq) = read_whole(field, 0, LAST_SEQUENCE) else {
                return Ok(None);
            };
            entries.push(seq)?;
            rest = behind;
        }
        if split_at_bar(rest).is_some() {
            return Ok(None);
        }
        let Some(seq) = read_whole(rest, 0, LAST_SEQUENCE) else {
            return Ok(None);
        };
        entries.push(seq)?;
        Ok(Some(Cut { entries }))
    }

    /// The cut that `read` reads, to be shared. An error is an allocation failure.
    pub fn read_shared(
        alloc: Global,
        line: &[u8],
        agents: u8,
    ) -> Result<Option<Arc<Cut>>, AllocError>
        requires from { 1 ≤ agents }
        requires to { agents ≤ most_agents }
        ensures { IfOk result
            (λ cut. option_map arc_value cut ≡ cut_in agents (fields_in line.now)) }
    {
        let Some(cut) = Cut::read(alloc, line, agents)? else {
            return Ok(None);
        };
        match Arc::new(alloc, cut) {
            Ok(cut) => Ok(Some(cut)),
            Err(_) => Err(AllocError),
        }
    }

    /// Its line, as `read` takes it, without a line feed. An error is an allocation failure.
    pub fn write(&self, alloc: Global) -> Result<Vec<u8>, AllocError>
        ensures { IfOk result (λ text. text.items ≡ join_with_byte 124 (map decimal self.now)) }
    {
        let mut text = Vec::new(alloc);
        self.put(&mut text)?;
        Ok(text)
    }

    /// Appends its line, without a line feed. An error is an allocation failure, and leaves the text as it was.
    pub fn put(&self, text: &mut Vec<u8>) -> Result<(), AllocError>
        ensures put { OnOk result
            (text.new.items ≡ text.old.items ++ join_with_byte 124 (map decimal self.now)) }
        ensures kept { OnErr result (text.new.items ≡ text.old.items) }
    {
        let before = text.len();
        let result = put_entries(text, &self.entries);
        if result.is_err() {
            text.truncate(before);
        }
        result
    }

    /// How many agents the cut has, from 1 to 64; they are numbered from 1.
    pub fn agents(&self) -> u8
        ensures value { result ≡ length self.now }
        ensures within { IsCut self.now }
    {
        self.entries.len() as u8
    }

    /// The last sequence of an agent, at most 1,000,000; 0 where none of its batches is charged.
    pub fn get(&self, agent: u8) -> u32
        requires from { 1 ≤ agent }
        requires to { agent ≤ length self.now }
        ensures value { result ≡ last_of self.now agent }
        ensures within { result ≤ last_sequence }
    {
        self.entries[usize::from(agent) - 1]
    }

    /// Sets one agent's last sequence, at most 1,000,000; the others stay.
    pub fn set(&mut self, agent: u8, seq: u32)
        requires from { 1 ≤ agent }
        requires to { agent ≤ length self.old }
        requires seq { seq ≤ last_sequence }
        ensures { self.new ≡ slice_set self.old (agent - 1) seq }
    {
        self.entries[usize::from(agent) - 1] = seq;
    }

    /// Whether each agent's last sequence is at least that of the other cut, which has as many agents.
    pub fn at_least(&self, other: &Cut) -> bool
        requires { length self.now ≡ length other.now }
        ensures { IsTrue result ↔ IsAtLeast self.now other.now }
    {
        self.entries
            .iter()
            .zip(&other.entries)
            .all(|(new, old)| old <= new)
    }

    /// Whether both cuts have the same agents and the same sequences.
    pub fn same(&self, other: &Cut) -> bool
        ensures { IsTrue result ↔ (self.now ≡ other.now) }
    {
        self.entries == other.entries
    }
}
