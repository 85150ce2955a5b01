//! Many events in turn.

ghost use Rattle.std.specs.Prelude.{◌≡◌, ◌<◌, [], length, map, take, IfOk, IfErr, OnOk, OnErr};
ghost use Rattle.metering_model.specs.Step.{play};
ghost use Rattle.group_state.specs.Words.{event_of, reply_of};
ghost use Rattle.group_core.specs.Headline.{AnswersEach, HasHeadline, IsLater};
ghost use Rattle.group_core.specs.Playing.{replies_in};

use crate::World;
use group_state::{Event, Reply};
use std::alloc::{AllocError, Global};

/// An allocation failed, after these replies. The world stands after exactly their events.
#[derive(Drop)]
pub struct Stopped {
    /// The replies to the events that were done.
    pub replies: Vec<Reply>,
}

impl World {
    /// Does the events in turn, and returns a reply for each. [`Stopped`] is an allocation failure: it has the replies
    /// to the first events, fewer than all, and the world is as these left it. With either, and after any calls before,
    /// the headline holds: one chosen cut a period at most, exports of neighbouring cuts, equal for one period, and no
    /// reading charged as new twice.
    pub fn play(&mut self, alloc: Global, events: &[Event]) -> Result<Vec<Reply>, Stopped>
        ensures run { IfOk result
            (λ replies. (map reply_of replies.items, self.new)
            ≡ play self.old (map event_of events.now)) }
        ensures stopped { IfErr result
            (λ why. (length why.replies.items < length events.now)
            × ((map reply_of why.replies.items, self.new)
            ≡ play self.old (map event_of (take (length why.replies.items) events.now)))) }
        ensures headline { HasHeadline self.new (replies_in result) }
        ensures answers { AnswersEach self.old
            (map event_of (take (length (replies_in result)) events.now))
            (replies_in result) self.new }
        ensures later { IsLater self.old self.new }
    {
        self.reached();
        let mut replies = Vec::new(alloc);
        match self.play_on(alloc, events, &mut replies) {
            Ok(()) => Ok(replies),
            Err(_) => Err(Stopped { replies }),
        }
    }

    /// Does the events in turn, and writes down a reply for each, for which there is room before its event is done.
    fn play_on(
        &mut self,
        alloc: Global,
        events: &[Event],
        replies: &mut Vec<Reply>,
    ) -> Result<(), AllocError>
        requires begun { replies.old.items ≡ [] }
        ensures run { (map reply_of replies.new.items, self.new)
            ≡ play self.old (map event_of (take (length replies.new.items) events.now)) }
        ensures all { OnOk result (length replies.new.items ≡ length events.now) }
        ensures short { OnErr result (length replies.new.items < length events.now) }
    {
        for event in events {
            replies.reserve(1)?;
            let reply = self.step(alloc, event)?;
            replies.push_reserved(reply);
        }
        Ok(())
    }
}
