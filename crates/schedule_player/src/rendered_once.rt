//! The file of the last export is at hand until another file or a kept text comes, and an export of its period is not rendered
//! again.

ghost use Rattle.std.specs.Prelude.{◌≡◌, ◌++◌, true, OnOk};
ghost use Rattle.metering_model.specs.Transcript.{reply_text};
ghost use Rattle.group_events.specs.Replies.{reply_of};
ghost use Rattle.schedule_player.specs.Inner.Held.{FitsReply, exported_period, has_file, is_same_period, told, told_of};

use crate::reply_texts::set_file;
use export_file::{HeldText, LineRoom};
use group_events::{Period, Reply};
use std::alloc::{AllocError, Global};

/// The period of an export, if a reply is one.
fn exported(reply: &Reply) -> Option<Period>
    ensures { result ≡ exported_period (reply_of reply.now) }
{
    match reply {
        Reply::Exported(snapshot) => Some(snapshot.period()),
        _ => None,
    }
}

/// Whether a reply is an export of the period.
fn is_export_of(period: Option<Period>, reply: &Reply) -> bool
    ensures { result ≡ is_same_period period (exported_period (reply_of reply.now)) }
{
    match (period, exported(reply)) {
        (Some(held), Some(period)) => held.number() == period.number(),
        _ => false,
    }
}

/// Makes a line and a file those of a reply. Where they are of an export of the same period, they are its own.
pub(crate) fn hold(
    alloc: Global,
    room: &mut LineRoom,
    reply: &Reply,
    held: &mut Option<Period>,
    line: &mut Vec<u8>,
    file: &mut HeldText,
) -> Result<(), AllocError>
    requires there { has_file (reply_of reply.now) ≡ true }
    requires fits { FitsReply (told held.old line.old.items file.old) (reply_of reply.now) }
    ensures text { OnOk result (line.new.items ++ file.new ≡ reply_text (reply_of reply.now)) }
    ensures held { OnOk result
        (told held.new line.new.items file.new ≡ told_of (reply_of reply.now)) }
{
    if is_export_of(*held, reply) {
        return Ok(());
    }
    *held = None;
    set_file(alloc, room, reply, line, file)?;
    *held = exported(reply);
    Ok(())
}
