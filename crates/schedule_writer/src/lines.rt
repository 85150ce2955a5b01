//! A batch is journaled, or it is told at which line of the input it is refused, and why.

ghost use Rattle.std.specs.Prelude.{◌≡◌, ◌++◌, true, false, IfOk, OnOk, MatchOption, take};
ghost use Rattle.metering_model.specs.BatchReading.{batch_in};
ghost use Rattle.metering_model.specs.Step.{step};
ghost use Rattle.metering_model.specs.Transcript.{line_count};
ghost use Rattle.metering_model.specs.World.{Journal, Refused, offer_of};
ghost use Rattle.metering_model.specs.declared.BatchFault.{BatchFault};
ghost use Rattle.metering_model.specs.declared.Refusal.{Refusal};
ghost use Rattle.group_events.specs.Events.{event_of};
ghost use Rattle.group_events.specs.Replies.{reply_of};
ghost use Rattle.schedule_writer.specs.Checks.{told_of_answer};
ghost use Rattle.schedule_writer.specs.Refusals.{IsJournaled, answer_to, journal_of, told_of_offered};
ghost use Rattle.schedule_writer.specs.Inner.Lines.{IsAnswer, IsBadIn};
ghost use Rattle.schedule_writer.specs.Inner.Plans.{offered_of};
ghost use Rattle.schedule_writer.specs.Inner.Walks.{IsPlace};

use crate::inputs::Offered;
use byte_text::line_count;
use fault_lines::{put_at, put_refused_text};
use group_events::{Event, Reply};
use metering_model::Refusal;
use schedule_player::World;
use std::alloc::{AllocError, Global};

/// The index of the record for which a batch is refused, where it is for a rule of the journals. The world is as it was before.
fn bad_record(world: &World, event: &Event, text: &[u8], refusal: Refusal) -> Option<u16>
    requires event { event_of event.now ≡ Journal (offer_of text.now) }
    requires refused { answer_to world.now text.now ≡ Refused refusal }
    ensures { IsBadIn world.now text.now refusal result }
{
    match refusal {
        Refusal::BadTarget | Refusal::Unpriced => world.bad_record(event),
        _ => None,
    }
}

/// How many lines stand above a byte of the input, where that is not known.
fn lines_above(input: &[u8], from: usize, known: Option<usize>) -> usize
    requires { IsPlace input.now from known }
    ensures { result ≡ line_count (take from input.now) }
{
    match known {
        Some(lines) => lines,
        None => line_count(&input[..from]),
    }
}

/// Appends the line that is told of a refused batch, of which this is the first bad record, where it is refused for one.
fn put_refusal(
    told: &mut Vec<u8>,
    world: &World,
    input: &[u8],
    offered: &Offered<'_>,
    known: Option<usize>,
    bad: Option<u16>,
    refusal: Refusal,
) -> Result<(), AllocError>
    requires place { IsPlace input.now offered.now.from known }
    requires fault { (fault : BatchFault) → refusal ≡ Refusal.BadBatch fault
        → batch_in offered.now.text.now ≡ Err fault }
    requires bad { IsBadIn world.now offered.now.text.now refusal bad }
    ensures { OnOk result (told.new.items ≡ told.old.items
        ++ told_of_offered input.now world.now (offered_of offered.now) refusal) }
{
    let above = lines_above(input, offered.from, known);
    match refusal {
        Refusal::WorldFull => put_at(told, above as u128 + 1, refusal),
        _ => put_refused_text(told, above, world.sheet(), offered.text, bad, refusal),
    }
}

/// Why a reply to a journal refuses, or None where the batch was journaled.
fn refusal_of(reply: &Reply) -> Option<Refusal>
    requires { IsAnswer (reply_of reply.now) }
    ensures { MatchOption result (IsJournaled (reply_of reply.now))
        (λ why. reply_of reply.now ≡ Refused why) }
{
    match reply {
        Reply::Refused(refusal) => Some(*refusal),
        _ => None,
    }
}

/// Journals a batch, and answers whether it was. Where it is refused the world stays as it was, and the line that tells so is
/// appended. How many lines of the input stand above the batch may be known; else they are counted where it is refused.
pub(crate) fn journal_offered(
    alloc: Global,
    world: &mut World,
    input: &[u8],
    offered: &Offered<'_>,
    known: Option<usize>,
    event: &Event,
    told: &mut Vec<u8>,
) -> Result<bool, AllocError>
    requires place { IsPlace input.now offered.now.from known }
    requires event { event_of event.now ≡ journal_of (offered_of offered.now) }
    ensures told { OnOk result (told.new.items ≡ told.old.items
        ++ told_of_answer input.now world.old (offered_of offered.now)
        (answer_to world.old offered.now.text.now)) }
    ensures world { OnOk result
        (world.new ≡ (step world.old (journal_of (offered_of offered.now))).1) }
    ensures journaled { IfOk result
        (λ is. is ≡ true → IsJournaled (answer_to world.old offered.now.text.now)) }
    ensures refused { IfOk result (λ is. is ≡ false
        → (why : Refusal) × (answer_to world.old offered.now.text.now ≡ Refused why)) }
{
    let Ok(reply) = world.step(alloc, event) else {
        return Err(AllocError);
    };
    let refusal = refusal_of(&reply);
    // Dropped by a call for the prover's time alone (docs/DECISIONS.md).
    reply.release();
    match refusal {
        None => Ok(true),
        Some(refusal) => {
            let bad = bad_record(world, event, offered.text, refusal);
            match put_refusal(told, world, input, offered, known, bad, refusal) {
                Ok(()) => Ok(false),
                Err(error) => Err(error),
            }
        }
    }
}
