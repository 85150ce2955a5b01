//! The first record that breaks a rule of the journals: of a batch that is to be journaled, and of what a store has up
//! to a cut.

ghost use Rattle.std.specs.Prelude.{◌≡◌, ◌≤◌, ◌+◌, true, [], None, Some, length, MatchOption};
ghost use Rattle.std.specs.Option.{is_some, option_map};
ghost use Rattle.metering_model.specs.Batch.{Batch};
ghost use Rattle.metering_model.specs.Holding.{held, placed, put, records_in_order, up_to};
ghost use Rattle.metering_model.specs.Step.{first_missing};
ghost use Rattle.metering_model.specs.JournalRules.{first_broken};
ghost use Rattle.batch_store.specs.Batches.{batch_of};
ghost use Rattle.journal_rules.specs.FirstBad.{first_bad};
ghost use Rattle.journal_rules.specs.Inner.Left.{broken_left};

use crate::journaled::Journaled;
use batch_store::{BatchView, Cut, Store};
use metering_model::BrokenRule;
use rating::Sheet;

/// The rule that the first bad record of a batch breaks, in the journals with the batch put into them; None where none
/// does. The store must not have a batch of that agent and sequence. An amendment may name a reading of the batch
/// itself.
pub fn first_broken(store: &Store, sheet: &Sheet, batch: &BatchView<'_>) -> Option<BrokenRule>
    requires agent { (batch_of batch.now).agent ≤ store.now.agents }
    requires new { held store.now.batches (batch_of batch.now).agent (batch_of batch.now).seq
        ≡ None }
    ensures { result ≡ first_broken sheet.now (put store.now.batches (batch_of batch.now))
        (placed (batch_of batch.now)) }
{
    // For the proof alone: its clause says that the agents are 1 to 64, and their batches a holding.
    let _agents = store.agents();
    Journaled {
        store: Some(store),
        batch,
    }
    .first_broken(sheet)
}

/// The rule that the first bad record of a batch breaks, in journals that have this batch alone; None where none does.
pub fn first_broken_alone(sheet: &Sheet, batch: &BatchView<'_>) -> Option<BrokenRule>
    ensures { result ≡ first_broken sheet.now (put [] (batch_of batch.now))
        (placed (batch_of batch.now)) }
{
    // For the proof alone: its clause says that the agent is one of 64.
    let _agent = batch.agent();
    Journaled { store: None, batch }.first_broken(sheet)
}

/// The index of the first bad record of such a batch, in the journals that have it too, and the rule that it breaks. No memory is
/// taken.
pub fn first_bad(store: &Store, sheet: &Sheet, batch: &BatchView<'_>) -> Option<(u16, BrokenRule)>
    requires agent { (batch_of batch.now).agent ≤ store.now.agents }
    requires new { held store.now.batches (batch_of batch.now).agent (batch_of batch.now).seq
        ≡ None }
    ensures rule { option_map (λ r. r.1) result
        ≡ first_broken sheet.now (put store.now.batches (batch_of batch.now))
        (placed (batch_of batch.now)) }
    ensures index { option_map (λ r. r.0) result
        ≡ option_map (λ p. p.index)
        (first_bad sheet.now (put store.now.batches (batch_of batch.now))
        (placed (batch_of batch.now))) }
{
    // For the proof alone: its clause says that the agents are 1 to 64, and their batches a holding.
    let _agents = store.agents();
    Journaled {
        store: Some(store),
        batch,
    }
    .first_bad(sheet)
}

/// The index of the first bad record of a batch, in journals that have this batch alone, and the rule that it breaks;
/// None where there is none.
pub fn first_bad_alone(sheet: &Sheet, batch: &BatchView<'_>) -> Option<(u16, BrokenRule)>
    ensures rule { option_map (λ r. r.1) result
        ≡ first_broken sheet.now (put [] (batch_of batch.now)) (placed (batch_of batch.now)) }
    ensures index { option_map (λ r. r.0) result
        ≡ option_map (λ p. p.index)
        (first_bad sheet.now (put [] (batch_of batch.now)) (placed (batch_of batch.now))) }
{
    // For the proof alone: its clause says that the agent is one of 64.
    let _agent = batch.agent();
    Journaled { store: None, batch }.first_bad(sheet)
}

/// The rule that the first bad record of a batch that the store has breaks.
fn broken_in_held(store: &Store, sheet: &Sheet, agent: u8, seq: u32) -> Option<BrokenRule>
    requires from { 1 ≤ agent }
    requires to { agent ≤ store.now.agents }
    requires there { is_some (held store.now.batches agent seq) ≡ true }
    ensures { (b : Batch) → held store.now.batches agent seq ≡ Some b
        → result ≡ first_broken sheet.now store.now.batches (placed b) }
{
    // For the proof alone: its clause says that the agents are 1 to 64, and their batches a holding.
    let _agents = store.agents();
    let batch = store.batch_at(agent, seq);
    Journaled {
        store: Some(store),
        batch: &batch,
    }
    .first_broken(sheet)
}

/// The rule that the first bad record of an agent's batches breaks, or None where those of later agents decide.
fn broken_of_agent(store: &Store, sheet: &Sheet, to: &Cut, agent: u8) -> Option<BrokenRule>
    requires agents { length to.now ≡ store.now.agents }
    requires whole { first_missing store.now.batches to.now ≡ None }
    requires from { 1 ≤ agent }
    requires to { agent ≤ store.now.agents }
    ensures { MatchOption result
        (broken_left sheet.now store.now.batches to.now agent 1
        ≡ broken_left sheet.now store.now.batches to.now (agent + 1) 1)
        (λ rule. broken_left sheet.now store.now.batches to.now agent 1 ≡ Some rule) }
{
    // For the proof alone: its clause says that the agents are 1 to 64, and their batches a holding.
    let _agents = store.agents();
    let last = to.get(agent);
    for seq in 1..last + 1 {
        if let Some(rule) = broken_in_held(store, sheet, agent, seq) {
            return Some(rule);
        }
    }
    None
}

/// The rule that the first bad record up to a cut breaks, in journal order; None where there is none. The store has to
/// have each batch up to the cut.
pub fn first_broken_up_to(store: &Store, sheet: &Sheet, to: &Cut) -> Option<BrokenRule>
    requires agents { length to.now ≡ store.now.agents }
    requires whole { first_missing store.now.batches to.now ≡ None }
    ensures { result ≡ first_broken sheet.now (up_to to.now store.now.batches)
        (records_in_order (up_to to.now store.now.batches)) }
{
    let agents = store.agents();
    for agent in 1..agents + 1 {
        if let Some(rule) = broken_of_agent(store, sheet, to, agent) {
            return Some(rule);
        }
    }
    None
}
