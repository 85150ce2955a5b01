//! The line of one reply, and the file or the kept text after it.

ghost use Rattle.std.specs.Prelude.{◌≡◌, ◌++◌, ◌∷◌, [], true, false, codes, OnOk};
ghost use Rattle.metering_model.specs.Transcript.{file_of, line_count, reply_text, with_number};
ghost use Rattle.group_events.specs.Replies.{reply_of};
ghost use Rattle.schedule_player.specs.Inner.Held.{has_file};

use answer_words::replies;
use byte_text::line_count;
use export_file::{HeldText, LineRoom};
use group_events::{Reply, Snapshot};
use std::alloc::{AllocError, Global};

/// Makes a text an export's file, whose lines may be made in memory that the next file uses again, and appends to the
/// other what stands above it: the period, and how many lines the file has.
fn put_exported(
    alloc: Global,
    room: &mut LineRoom,
    snapshot: &Snapshot,
    line: &mut Vec<u8>,
    file: &mut HeldText,
) -> Result<(), AllocError>
    ensures file { OnOk result (file.new ≡ file_of snapshot.now) }
    ensures line { OnOk result (line.new.items ≡ line.old.items
        ++ (with_number (codes "exported period ") snapshot.now.period
        ++ with_number (codes " lines ") (line_count (file_of snapshot.now)))) }
{
    let lines = file.set_file(alloc, room, snapshot)?;
    replies::put_exported(line, snapshot.period(), lines)
}

/// Makes a text a kept one, and appends to the other what stands above it: how many lines it has.
fn put_kept(kept: &[u8], line: &mut Vec<u8>, file: &mut HeldText) -> Result<(), AllocError>
    ensures file { OnOk result (file.new ≡ kept.now) }
    ensures line { OnOk result
        (line.new.items ≡ line.old.items
        ++ with_number (codes "kept lines ") (line_count kept.now)) }
{
    file.set_text(kept)?;
    replies::put_kept(line, line_count(kept))
}

/// Whether a file or a kept text stands after the line of a reply.
pub(crate) fn has_file(reply: &Reply) -> bool
    ensures { result ≡ has_file (reply_of reply.now) }
{
    match reply {
        Reply::Exported(_) => true,
        Reply::KeptText(_) => true,
        _ => false,
    }
}

/// Appends the words of a reply after which no file stands.
fn put_words(line: &mut Vec<u8>, reply: &Reply) -> Result<(), AllocError>
    requires { has_file (reply_of reply.now) ≡ false }
    ensures { OnOk result (line.new.items ++ 10 ∷ []
        ≡ line.old.items ++ reply_text (reply_of reply.now)) }
{
    match reply {
        Reply::Journaled { packet } => replies::put_journaled(line, *packet),
        Reply::Delivered { sent, learned } => replies::put_delivered(line, *sent, *learned),
        Reply::Started { ballot, packet } => replies::put_started(line, *ballot, *packet),
        Reply::Restarted => replies::put_restarted(line),
        Reply::Refused(refusal) => replies::put_refused(line, *refusal),
        // These have a file.
        Reply::Exported(_) | Reply::KeptText(_) => Ok(()),
    }
}

/// Makes a text the line of a reply after which no file stands.
pub(crate) fn set_line(line: &mut Vec<u8>, reply: &Reply) -> Result<(), AllocError>
    requires { has_file (reply_of reply.now) ≡ false }
    ensures { OnOk result (line.new.items ≡ reply_text (reply_of reply.now)) }
{
    line.clear();
    put_words(line, reply)?;
    line.push(b'\n')?;
    Ok(())
}

/// Makes one text a file or a kept text, and puts what stands above it into the other.
fn put_file(
    alloc: Global,
    room: &mut LineRoom,
    reply: &Reply,
    line: &mut Vec<u8>,
    file: &mut HeldText,
) -> Result<(), AllocError>
    requires there { has_file (reply_of reply.now) ≡ true }
    requires line { line.old.items ≡ [] }
    ensures { OnOk result ((line.new.items ++ 10 ∷ []) ++ file.new
        ≡ reply_text (reply_of reply.now)) }
{
    match reply {
        Reply::Exported(snapshot) => put_exported(alloc, room, snapshot, line, file),
        Reply::KeptText(text) => put_kept(text, line, file),
        // No other has one.
        _ => Ok(()),
    }
}

/// Makes one text the line of a reply, and the other the file or the kept text that stands after it.
pub(crate) fn set_file(
    alloc: Global,
    room: &mut LineRoom,
    reply: &Reply,
    line: &mut Vec<u8>,
    file: &mut HeldText,
) -> Result<(), AllocError>
    requires { has_file (reply_of reply.now) ≡ true }
    ensures { OnOk result (line.new.items ++ file.new ≡ reply_text (reply_of reply.now)) }
{
    line.clear();
    put_file(alloc, room, reply, line, file)?;
    line.push(b'\n')?;
    Ok(())
}
