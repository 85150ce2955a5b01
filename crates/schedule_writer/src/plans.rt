//! What a schedule is to journal and to close, and whether one does.

ghost use Rattle.std.specs.Prelude.{◌≡◌, ◌↔◌, ◌<◌, ◌≤◌, nat_le, IfOk, IsTrue, Some, None, if◌then◌else◌, length, true};
ghost use Rattle.metering_model.specs.BatchReading.{is_same};
ghost use Rattle.metering_model.specs.Front.{front};
ghost use Rattle.metering_model.specs.Schedule.{PlansExport};
ghost use Rattle.metering_model.specs.Limits.{last_period, most_nodes};
ghost use Rattle.metering_model.specs.World.{Journal, offer_of};
ghost use Rattle.group_events.specs.Events.{event_of};
ghost use Rattle.group_events.specs.Replies.{reply_of};
ghost use Rattle.schedule_reader.specs.Events.{HasWholeLines, planned_of};
ghost use Rattle.schedule_writer.specs.Inner.Plans.{ComesNext, IsPlan, all_seen, behind, behind_taken, due_for, is_file_of, is_good, is_next, is_turn, one_more_ballot, one_more_batch, one_more_file, plan_of};

use crate::faults::Stop;
use crate::judging::Taken;
use batch_store::Store;
use byte_text::is_same;
use group_events::{Event, Offer, Snapshot};
use price_sheet::Sheet;
use schedule_player::Reply;
use schedule_reader::Planned;
use std::alloc::Global;
use std::sync::Arc;

/// What a schedule is to journal and to close.
#[derive(Drop)]
pub(crate) struct Plan<'a> {
    pub(crate) voters: u8,
    pub(crate) observers: u8,
    /// All nodes, observers too.
    pub(crate) nodes: u8,
    /// The last period that is closed.
    pub(crate) last: u16,
    pub(crate) agents: u8,
    pub(crate) sheet: &'a Arc<Sheet>,
    pub(crate) batches: &'a [Taken],
    /// How many batches stand above each line that closes a period.
    pub(crate) closes: &'a [usize],
}

/// What a schedule has done so far.
#[derive(Clone, Copy, Drop)]
pub(crate) struct Seen {
    /// How many batches were journaled.
    pub(crate) journaled: usize,
    /// How many ballots began.
    pub(crate) ballots: u16,
    /// The node that shows its file next.
    pub(crate) node: u8,
    /// The period whose files are shown.
    pub(crate) period: u16,
}

impl<'a> Plan<'a> {
    /// How many batches are journaled before a period is closed.
    pub(crate) fn due_before(&self, period: u16) -> usize
        ensures { result ≡ due_for (plan_of self.now) period }
    {
        match self.closes.get(usize::from(period)) {
            Some(count) => *count,
            None => self.batches.len(),
        }
    }

    /// The text as a batch that is journaled, where it is the batch that comes next: it was read, and is shared.
    pub(crate) fn journal(&self, seen: Seen, text: &[u8]) -> Result<Event, Stop>
        ensures event { IfOk result (λ event. event_of event ≡ Journal (offer_of text.now)) }
        ensures next { IfOk result (λ _. is_next (plan_of self.now) seen text.now ≡ true) }
    {
        let Some(next) = self.batches.get(seen.journaled) else {
            return Err(Stop::NotClosed);
        };
        if !is_same(next.batch.bytes(), text) {
            return Err(Stop::NotClosed);
        }
        match Arc::try_clone(&next.batch) {
            Ok(shared) => Ok(Event::Journal(Offer::Good(shared))),
            Err(_) => Err(Stop::OutOfMemory),
        }
    }

    /// Whether it is the node's turn to show the file of that period, and the batches above it are journaled.
    fn is_turn(&self, seen: Seen, node: u8, period: u16) -> bool
        ensures { result ≡ is_turn (plan_of self.now) seen node period }
    {
        node == seen.node
            && node < self.nodes
            && period == seen.period
            && period <= self.last
            && seen.journaled == self.due_before(period)
    }

    /// Whether the cut of a file has of what is journaled each agent's batches before the first that is not due. Only what lies above the cut before it is looked at.
    fn has_due(&self, alloc: Global, journals: &Store, file: &Snapshot) -> Result<bool, Stop>
        ensures { IfOk result (λ is. is ≡ is_same file.now.to
            (front (plan_of self.now).base journals.now.batches file.now.from file.now.period)) }
    {
        if file.from().agents() != journals.agents() {
            return Err(Stop::NotClosed);
        }
        match journals.due_front(alloc, file.from(), file.period(), self.sheet.base_month()) {
            Ok(due) => Ok(file.to().same(&due)),
            Err(_) => Err(Stop::OutOfMemory),
        }
    }

    /// Whether a reply is the file of that period, with such a cut.
    fn is_file_of(
        &self,
        alloc: Global,
        journals: &Store,
        period: u16,
        reply: &Reply,
    ) -> Result<bool, Stop>
        ensures { IfOk result (λ is. is
            ≡ is_file_of (plan_of self.now).base journals.now.batches period (reply_of reply.now)) }
    {
        match reply {
            Reply::Exported(file) => {
                if file.period().number() == period {
                    self.has_due(alloc, journals, file)
                } else {
                    Ok(false)
                }
            }
            _ => Ok(false),
        }
    }

    /// Whether a reply refuses nothing, and where it tells of a period that it was learned, this is no later one than the last, and just
    /// the batches above its `close` are journaled.
    fn is_good(&self, seen: Seen, reply: &Reply) -> bool
        ensures { result ≡ is_good (plan_of self.now) seen (reply_of reply.now) }
    {
        match reply {
            Reply::Refused(_) => false,
            Reply::Delivered {
                learned: Some(period),
                ..
            } => {
                period.number() <= self.last && seen.journaled == self.due_before(period.number())
            }
            _ => true,
        }
    }

    /// What was done with one more batch.
    fn with_batch(&self, seen: Seen) -> Seen
        requires { seen.journaled < length self.now.batches.now }
        ensures { result ≡ one_more_batch seen }
    {
        Seen {
            journaled: seen.journaled + 1,
            ..seen
        }
    }

    /// What was done with one more ballot.
    fn with_ballot(&self, seen: Seen) -> Option<Seen>
        requires { self.now.last ≤ last_period }
        ensures { result ≡ (if nat_le seen.ballots self.now.last then Some
            (one_more_ballot seen) else None) }
    {
        if seen.ballots > self.last {
            return None;
        }
        Some(Seen {
            ballots: seen.ballots + 1,
            ..seen
        })
    }

    /// What was done with one more file.
    fn with_file(&self, seen: Seen) -> Seen
        requires node { seen.node < self.now.nodes }
        requires nodes { self.now.nodes ≤ most_nodes }
        requires period { seen.period ≤ last_period }
        ensures { result ≡ one_more_file (plan_of self.now) seen }
    {
        if seen.node + 1 < self.nodes {
            Seen {
                node: seen.node + 1,
                ..seen
            }
        } else {
            Seen {
                node: 0,
                period: seen.period + 1,
                ..seen
            }
        }
    }

    /// What was done behind an export and its reply, with these journals; None where it is not what is planned.
    fn behind_export(
        &self,
        alloc: Global,
        seen: Seen,
        journals: &Store,
        node: u8,
        period: u16,
        reply: &Reply,
    ) -> Result<Option<Seen>, Stop>
        requires { IsPlan self.now }
        ensures { IfOk result (λ next. next ≡ behind_taken
            (plan_of self.now) seen journals.now.batches (reply_of reply.now)
            (PlansExport node period)) }
    {
        if !self.is_turn(seen, node, period) {
            return Ok(None);
        }
        match self.is_file_of(alloc, journals, period, reply) {
            Ok(true) => Ok(Some(self.with_file(seen))),
            Ok(false) => Ok(None),
            Err(stop) => Err(stop),
        }
    }

    /// What was done behind one more event and its reply, with these journals before it; None where it is not what is planned. Of a batch
    /// it is known that it comes next.
    pub(crate) fn behind(
        &self,
        alloc: Global,
        seen: Seen,
        journals: &Store,
        event: &Planned<'_>,
        reply: &Reply,
    ) -> Result<Option<Seen>, Stop>
        requires plan { IsPlan self.now }
        requires whole { HasWholeLines event.now }
        requires next { ComesNext (plan_of self.now) seen (planned_of event.now) }
        ensures { IfOk result (λ next. next ≡ behind
            (plan_of self.now) seen journals.now.batches (reply_of reply.now)
            (planned_of event.now)) }
    {
        if !self.is_good(seen, reply) {
            return Ok(None);
        }
        match event {
            Planned::Journal(_) => Ok(Some(self.with_batch(seen))),
            Planned::Export { node, period } => {
                self.behind_export(alloc, seen, journals, *node, *period, reply)
            }
            Planned::Deliver { .. } => Ok(Some(seen)),
            Planned::Start { .. } => Ok(self.with_ballot(seen)),
            Planned::Restart { .. } | Planned::Keep { .. } | Planned::Revive { .. } => Ok(None),
        }
    }

    /// Whether all is done that was planned.
    pub(crate) fn is_done(&self, seen: Seen) -> bool
        requires { self.now.last ≤ last_period }
        ensures { IsTrue result ↔ (seen ≡ all_seen (plan_of self.now)) }
    {
        seen.journaled == self.batches.len()
            && seen.ballots == self.last + 1
            && seen.node == 0
            && seen.period == self.last + 1
    }
}
