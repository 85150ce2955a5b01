//! One event after another.

ghost use Rattle.std.specs.Prelude.{◌≡◌, IfOk, OnErr};
ghost use Rattle.metering_model.specs.Step.{step};
ghost use Rattle.group_events.specs.Events.{event_of};
ghost use Rattle.group_events.specs.Replies.{reply_of};
ghost use Rattle.group_state.specs.Reached.{IsReached};

use crate::GroupState;
use group_events::{Event, Reply};
use std::alloc::{AllocError, Global};

impl GroupState {
    /// Does one event, and returns the reply. A refused event leaves the world as it was. So does an error, which is an
    /// allocation failure.
    pub fn step(&mut self, alloc: Global, event: &Event) -> Result<Reply, AllocError>
        requires reached { IsReached self.old }
        ensures ok { IfOk result
            (λ reply. (reply_of reply, self.new) ≡ step self.old (event_of event.now)) }
        ensures kept { OnErr result (self.new ≡ self.old) }
    {
        match event {
            Event::Journal(offer) => self.journal(offer),
            Event::Deliver { packet, node } => self.deliver(alloc, *packet, *node),
            Event::Start { node } => self.start(*node),
            Event::Restart { node } => Ok(self.restart(alloc, *node)),
            Event::Export { node, period } => self.export(alloc, *node, *period),
            Event::Keep { node } => self.keep(alloc, *node),
            Event::Revive { node, offer } => Ok(self.revive(alloc, *node, offer)),
        }
    }
}
