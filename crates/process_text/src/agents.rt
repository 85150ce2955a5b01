//! What an agent is asked, and answers.

ghost use Rattle.std.specs.Prelude.{◌≡◌, ◌++◌, None, Some, OnOk};
ghost use Rattle.metering_model.specs.World as world;
ghost use Rattle.log_text.specs.LogText.{Takes};
ghost use Rattle.process_laws.specs.LocalSteps.{HasJournaled, JournalBatch, SendAgain, TellJournal};
ghost use Rattle.group_events.specs.Batches.{batch_of};
ghost use Rattle.group_events.specs.Events.{offer_of};
ghost use Rattle.process_text.specs.Answers.{AnswersAgent, answer_text};
ghost use Rattle.process_text.specs.Requests.{AsksAgent, agent_request};
ghost use Rattle.process_text.specs.Inner.Written.{AppendsAgent};

use crate::answers::{
    NO_COMMAND, put_added, put_batch, put_given, put_kept_text, put_line, put_refusal,
};
use crate::requests::{AgentRequest, agent_request, read_offer};
use group_events::{Offer, OwnedBatch};
use group_process::AgentProcess;
use log_text::Increment;
use std::alloc::{AllocError, Global};

/// Appends what came of a batch that an agent journaled.
fn put_journaled(
    text: &mut Vec<u8>,
    agent: &AgentProcess,
    batch: &OwnedBatch,
) -> Result<(), AllocError>
    ensures { OnOk result (text.new.items ≡ text.old.items
        ++ answer_text agent.now.group.name (λ sent. None) (Some (Takes (batch_of batch.now)))
        (record {
          words = HasJournaled (batch_of batch.now).seq;
          sends = Some (world.CarriesBatch (batch_of batch.now));
        })) }
{
    let Ok(()) = put_added(text, Some(Increment::Batch(batch))) else {
        return Err(AllocError);
    };
    let Ok(()) = put_batch(text, agent.group().name(), batch) else {
        return Err(AllocError);
    };
    put_line(text, b"journaled seq ", batch.view().seq())
}

/// Has an agent journal what is offered.
fn journal_offer(
    agent: &mut AgentProcess,
    offer: &Offer,
    text: &mut Vec<u8>,
) -> Result<(), AllocError>
    ensures { OnOk result (AppendsAgent (AsksAgent (JournalBatch (offer_of offer.now)))
        agent.old agent.new text.old.items text.new.items) }
{
    match agent.journal(offer) {
        Ok(Ok(journaled)) => put_journaled(text, agent, &journaled.batch),
        Ok(Err(why)) => put_refusal(text, why),
        Err(failed) => Err(failed),
    }
}

/// Has an agent journal what stands below a line.
fn journal(
    alloc: Global,
    agent: &mut AgentProcess,
    below: &[u8],
    text: &mut Vec<u8>,
) -> Result<(), AllocError>
    ensures { OnOk result (AppendsAgent (AsksAgent (JournalBatch (world.offer_of below.now)))
        agent.old agent.new text.old.items text.new.items) }
{
    match read_offer(alloc, below) {
        Ok(offer) => journal_offer(agent, &offer, text),
        Err(failed) => Err(failed),
    }
}

/// Has an agent tell what it keeps.
fn keep(alloc: Global, agent: &AgentProcess, text: &mut Vec<u8>) -> Result<(), AllocError>
    ensures { OnOk result (AppendsAgent (AsksAgent TellJournal)
        agent.now agent.now text.old.items text.new.items) }
{
    let Ok(kept) = agent.write_kept(alloc) else {
        return Err(AllocError);
    };
    put_kept_text(text, &kept)
}

/// Has an agent send a batch once more.
fn again(agent: &AgentProcess, seq: u32, text: &mut Vec<u8>) -> Result<(), AllocError>
    ensures { OnOk result (AppendsAgent (AsksAgent (SendAgain seq))
        agent.now agent.now text.old.items text.new.items) }
{
    put_given(
        text,
        agent.group().name(),
        agent.journaled(seq),
        agent.number(),
        seq,
    )
}

/// Does what an agent is asked by a line and the lines below it, of which `journal_lines` tells how many belong to it, and
/// makes the text what it answers. An error is an allocation failure: then nothing of the text may leave, and nothing may be
/// asked of the agent any more, since it may have done what was not told.
pub(crate) fn answer_agent(
    alloc: Global,
    agent: &mut AgentProcess,
    line: &[u8],
    below: &[u8],
    text: &mut Vec<u8>,
) -> Result<(), AllocError>
    ensures { OnOk result
        (AnswersAgent (agent_request line.now below.now) agent.old agent.new text.new.items) }
{
    text.clear();
    match agent_request(line) {
        AgentRequest::Journal => journal(alloc, agent, below, text),
        AgentRequest::Keep => keep(alloc, agent, text),
        AgentRequest::Again(seq) => again(agent, seq, text),
        AgentRequest::NoCommand => text.extend_from_slice(NO_COMMAND),
    }
}
