//! Whether the logs of the workers agree with the book, and with what their plan asks.

ghost use Rattle.std.specs.Prelude.{◌≡◌, ◌↔◌, ℕ, ◌+◌, length, map, Some, slice_get, true, IsTrue, IfOk};
ghost use Rattle.metering_model.specs.World.{Journal, offer_of, opening};
ghost use Rattle.metering_model.specs.History.{Entry as ModelEntry};
ghost use Rattle.group_events.specs.Events.{event_of, offer_of as journaled_offer};
ghost use Rattle.group_events.specs.Replies.{reply_of};
ghost use Rattle.node_book.specs.Books.{Log as ModelLog, node_total, opened};
ghost use Rattle.node_book.specs.Kept.{entry_of};
ghost use Rattle.node_book.specs.Logs.{log_of, plan_of};
ghost use Rattle.node_book.specs.Whole.{IsNeverFull, LeavesNothingOut, has_room};
ghost use Rattle.node_book.specs.Agreement.{Agree, FilesAgree, IsLogAt, events_by, is_event_of_node, is_same_worker, may_do, told_to, worker_at};

use crate::logs::exports_each;
use crate::{Book, Done, Entry, Log, Plan};
use batch_view::{BatchView, Offer};
use group_events::{Event, Reply};
use metering_model::{Refusal, Worker};
use std::alloc::{AllocError, Global};

/// Whether both are the same worker.
fn is_same_worker(one: Worker, two: Worker) -> bool
    ensures { result ≡ is_same_worker one two }
{
    match (one, two) {
        (Worker::Agent(a), Worker::Agent(b)) => a == b,
        (Worker::Node(i), Worker::Node(j)) => i == j,
        _ => false,
    }
}

/// Whether this is the worker whose log stands at a place.
fn is_worker_at(who: Worker, agents: usize, place: usize) -> bool
    ensures { IsTrue result ↔ (who ≡ worker_at agents place) }
{
    match who {
        Worker::Agent(a) => place < agents && usize::from(a) == place + 1,
        Worker::Node(i) => agents <= place && usize::from(i) == place - agents,
    }
}

/// Whether the next of what a worker brings back is of that entry.
fn is_next_done(done: &[Done], next: usize, place: usize, entry: &Entry) -> bool
    ensures { IsTrue result ↔
        (slice_get done.now next ≡ Some
        (record { index = place; reply = reply_of entry.now.reply })) }
{
    next < done.len() && done[next].is_of(place, &entry.reply)
}

/// Whether a worker brings back its own entries, each once and in order.
fn is_told(history: &[Entry], who: Worker, done: &[Done]) -> bool
    ensures { IsTrue result ↔ (told_to who (map entry_of history.now) ≡ done.now) }
{
    let mut next = 0;
    for (place, entry) in history.iter().enumerate() {
        if is_same_worker(entry.who, who) {
            if !is_next_done(done, next, place, entry) {
                return false;
            }
            next += 1;
        }
    }
    next == done.len()
}

/// Whether an offer is what comes of that text.
fn is_offer_of(offer: &Offer, text: &[u8]) -> bool
    ensures { IsTrue result ↔ (offer_of text.now ≡ journaled_offer offer.now) }
{
    match offer {
        Offer::Good(batch) => batch.bytes() == text,
        Offer::Bad(fault) => match BatchView::parse(text) {
            Ok(_) => false,
            Err(found) => found == *fault,
        },
    }
}

/// Whether an event journals what comes of that text.
fn is_journal_of(event: &Event, text: &[u8]) -> bool
    ensures { IsTrue result ↔ (Journal (offer_of text.now) ≡ event_of event.now) }
{
    match event {
        Event::Journal(offer) => is_offer_of(offer, text),
        _ => false,
    }
}

/// Whether the next text of an agent is what that event journals.
fn is_next_text(texts: &[Vec<u8>], next: usize, event: &Event) -> bool
    ensures { IsTrue result ↔
        (slice_get (map (λ text. Journal (offer_of text.items)) texts.now) next
        ≡ Some (event_of event.now)) }
{
    next < texts.len() && is_journal_of(event, &texts[next])
}

/// Whether a worker offered these texts to the journals, in order, and did nothing else.
fn has_offered(history: &[Entry], who: Worker, texts: &[Vec<u8>]) -> bool
    ensures { IsTrue result ↔
        (events_by who (map entry_of history.now)
        ≡ map (λ text. Journal (offer_of text.items)) texts.now) }
{
    let mut next = 0;
    for (place, entry) in history.iter().enumerate() {
        if is_same_worker(entry.who, who) {
            if !is_next_text(texts, next, &entry.event) {
                return false;
            }
            next += 1;
        }
    }
    next == texts.len()
}

/// Whether an event is one that a node brings about at itself.
fn is_event_of_node(node: u8, event: &Event) -> bool
    ensures { result ≡ is_event_of_node node (event_of event.now) }
{
    match event {
        Event::Deliver { node: at, .. } => *at == node,
        Event::Start { node: at } => *at == node,
        Event::Export { node: at, .. } => *at == node,
        _ => false,
    }
}

/// Whether the plan lets that worker bring about that event.
fn may_do(plan: &Plan, who: Worker, event: &Event) -> bool
    ensures { result ≡ may_do (plan_of plan.now) who (event_of event.now) }
{
    match who {
        Worker::Agent(a) => 1 <= a && usize::from(a) <= plan.journals.len(),
        Worker::Node(i) => usize::from(i) < plan.nodes() && is_event_of_node(i, event),
    }
}

/// Whether each entry is one that the plan lets its worker bring about.
fn are_allowed(plan: &Plan, history: &[Entry]) -> bool
    ensures { IsTrue result ↔
        ((index : ℕ) (e : ModelEntry) → slice_get (map entry_of history.now) index ≡ Some e
        → may_do (plan_of plan.now) e.who e.event ≡ true) }
{
    for entry in history {
        if !may_do(plan, entry.who, &entry.event) {
            return false;
        }
    }
    true
}

/// Whether a reply is no refusal for a full world.
fn has_room(reply: &Reply) -> bool
    ensures { result ≡ has_room (reply_of reply.now) }
{
    match reply {
        Reply::Refused(Refusal::WorldFull) => false,
        _ => true,
    }
}

/// Whether nothing was refused for a full world.
fn is_never_full(history: &[Entry]) -> bool
    ensures { IsTrue result ↔ IsNeverFull (map entry_of history.now) }
{
    for entry in history {
        if !has_room(&entry.reply) {
            return false;
        }
    }
    true
}

/// Whether a log is that of the worker whose place it has, and has just what this worker did and had to do.
fn is_log_at(history: &[Entry], plan: &Plan, place: usize, log: &Log) -> bool
    ensures { IsTrue result ↔ IsLogAt (plan_of plan.now) (map entry_of history.now) place
        (log_of log.now) }
{
    if !is_worker_at(log.who, plan.journals.len(), place) {
        return false;
    }
    if !is_told(history, log.who, &log.done) {
        return false;
    }
    if place < plan.journals.len() {
        has_offered(history, log.who, &plan.journals[place])
    } else {
        exports_each(&log.done, plan.periods)
    }
}

/// Whether each log is right at its place.
fn are_right(history: &[Entry], plan: &Plan, logs: &[Log]) -> bool
    ensures { IsTrue result ↔
        ((place : ℕ) (log : ModelLog) → slice_get (map log_of logs.now) place ≡ Some log
        → IsLogAt (plan_of plan.now) (map entry_of history.now) place log) }
{
    for (place, log) in logs.iter().enumerate() {
        if !is_log_at(history, plan, place, log) {
            return false;
        }
    }
    true
}

/// Whether there are as many logs as the plan has workers.
fn is_one_each(plan: &Plan, logs: &[Log]) -> bool
    ensures { IsTrue result ↔
        (length logs.now ≡ length plan.now.journals.items + node_total (plan_of plan.now)) }
{
    let agents = plan.journals.len();
    agents <= logs.len() && logs.len() - agents == plan.nodes()
}

impl Book {
    /// Whether the book was opened for the plan's group.
    fn is_opened_for(&self, plan: &Plan) -> bool
        ensures { IsTrue result ↔ (opened self.now
            ≡ opening (plan_of plan.now).voters (plan_of plan.now).observers
            (length (plan_of plan.now).journals)
            (plan_of plan.now).sheet (plan_of plan.now).issuer) }
    {
        self.voters == plan.voters
            && self.observers == plan.observers
            && usize::from(self.agents) == plan.journals.len()
            && self.sheet.same(&plan.sheet)
            && self.issuer.same(&plan.issuer)
    }

    /// Whether the book was opened for the plan's group and these logs are just what its history has, and what the plan
    /// asks: each worker of the plan, and no other, has a log of its own entries, each once and in order, and nobody else
    /// has an entry; each agent offered its texts to the journals, and each node exported each period once. Where it is
    /// so, all files of one period are the same bytes.
    pub fn agrees(&self, plan: &Plan, logs: &[Log]) -> bool
        ensures agrees { IsTrue result ↔ Agree self.now (plan_of plan.now) (map log_of logs.now) }
        ensures files { IsTrue result → FilesAgree (map log_of logs.now) }
    {
        self.legal();
        let history = self.history();
        if !self.is_opened_for(plan) {
            return false;
        }
        if !is_one_each(plan, logs) {
            return false;
        }
        if !are_right(history, plan, logs) {
            return false;
        }
        are_allowed(plan, history)
    }

    /// Whether nothing was refused for a full world, and the file of a period, as node 0 exports it, has all that is journaled
    /// above the cut before, of each agent up to its first batch that is not due in the month. An error is an allocation
    /// failure.
    pub fn leaves_nothing_out(&self, alloc: Global, period: u16) -> Result<bool, AllocError>
        ensures { IfOk result (λ is. IsTrue is ↔ LeavesNothingOut self.now period) }
    {
        if !is_never_full(self.history()) {
            return Ok(false);
        }
        self.charges_all(alloc, 0, period)
    }
}
