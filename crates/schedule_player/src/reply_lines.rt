//! The lines of replies that wait to be written, and the file that stands after the last of them.

ghost use Rattle.std.specs.Prelude.{◌≡◌, ◌↔◌, ◌≤◌, ◌++◌, [], false, length, None, IsTrue, OnOk, OnErr};
ghost use Rattle.std.specs.Io.KnownBytes.{Appends};
ghost use Rattle.metering_model.specs.Transcript.{reply_text};
ghost use Rattle.group_events.specs.Replies.{reply_of};
ghost use Rattle.schedule_player.specs.Inner.Held.{FitsReply, has_file, held_with, waiting};
ghost use Rattle.schedule_player.specs.Inner.Writing.{FailsWithin};

use crate::rendered_once::hold;
use crate::reply_texts::{has_file, set_line};
use counted_io::{Failed, Sink, write_all};
use export_file::{HeldText, LineRoom};
use group_events::{Period, Reply};
use std::alloc::{AllocError, Global};
use std::marker::Model;

/// From so many bytes on, what waits should be written.
const MANY_BYTES: usize = 65_536;

/// What a transcript says of some replies, one after the other, which waits to be written.
///
/// The buffers are used again. A file, or a kept text, stands by itself, so that its lines are counted before the line
/// above it is made. It stays when it was written, until another one comes: a later export of its period is the same, at
/// whatever node, so that its text is at hand.
#[derive(Drop)]
pub(crate) struct ReplyLines {
    lines: Vec<u8>,
    /// The line of the last reply without a file.
    words: Vec<u8>,
    /// The line of the last reply with a file or a kept text, and this.
    line: Vec<u8>,
    file: HeldText,
    /// In which the lines of files are made.
    room: LineRoom,
    /// Whether the file waits after the lines.
    waits: bool,
    /// The period of the export that `line` and `file` tell of, where they tell of one.
    held: Option<Period>,
}

impl Model for ReplyLines {
    ghost use Rattle.std.specs.Prelude.{◌++◌};
    ghost use Rattle.schedule_player.specs.Inner.Held.{Waiting, told, waiting};

    ghost Value = { Waiting };

    ghost view = { λ r. record {
      text = r.lines.items ++ waiting r.waits r.file;
      held = told r.held r.line.items r.file;
    } };
}

/// Puts a file that waits after the lines before it. It stays at hand.
fn join_file(lines: &mut Vec<u8>, waits: &mut bool, file: &mut HeldText) -> Result<(), AllocError>
    ensures joined { OnOk result
        ((lines.new.items ≡ lines.old.items ++ waiting waits.old file.old) × (waits.new ≡ false)) }
    ensures kept { OnErr result ((lines.new.items ≡ lines.old.items) × (waits.new ≡ waits.old)) }
    ensures same { file.new ≡ file.old }
{
    if *waits {
        file.copy_to(lines)?;
        *waits = false;
    }
    Ok(())
}

/// Puts the line of a reply without a file after other lines, from a buffer of its own.
fn add_line(words: &mut Vec<u8>, lines: &mut Vec<u8>, reply: &Reply) -> Result<(), AllocError>
    requires { has_file (reply_of reply.now) ≡ false }
    ensures added { OnOk result
        (lines.new.items ≡ lines.old.items ++ reply_text (reply_of reply.now)) }
    ensures kept { OnErr result (lines.new.items ≡ lines.old.items) }
{
    set_line(words, reply)?;
    lines.extend_from_slice(words)
}

impl ReplyLines {
    /// Nothing waits, and nothing is at hand.
    pub(crate) fn new(alloc: Global) -> ReplyLines
        ensures text { result.text ≡ [] }
        ensures held { result.held ≡ None }
    {
        ReplyLines {
            lines: Vec::new(alloc),
            words: Vec::new(alloc),
            line: Vec::new(alloc),
            file: HeldText::new(alloc),
            room: LineRoom::new(),
            waits: false,
            held: None,
        }
    }

    /// Puts the text of one more reply after those that wait. Where an allocation fails, nothing of it waits.
    pub(crate) fn add(&mut self, alloc: Global, reply: &Reply) -> Result<(), AllocError>
        requires fits { FitsReply self.old.held (reply_of reply.now) }
        ensures added { OnOk result
            (self.new.text ≡ self.old.text ++ reply_text (reply_of reply.now)) }
        ensures held { OnOk result (self.new.held ≡ held_with self.old.held (reply_of reply.now)) }
        ensures kept { OnErr result (self.new.text ≡ self.old.text) }
    {
        join_file(&mut self.lines, &mut self.waits, &mut self.file)?;
        if !has_file(reply) {
            return add_line(&mut self.words, &mut self.lines, reply);
        }
        hold(
            alloc,
            &mut self.room,
            reply,
            &mut self.held,
            &mut self.line,
            &mut self.file,
        )?;
        self.lines.extend_from_slice(&self.line)?;
        self.waits = true;
        Ok(())
    }

    /// Whether so much waits that it should be written.
    pub(crate) fn are_many(&self) -> bool
        ensures { IsTrue result ↔ (65_536 ≤ length self.now.text) }
    {
        let size = self.lines.len();
        size >= MANY_BYTES || (self.waits && self.file.has_bytes(MANY_BYTES - size))
    }

    /// Writes all that waits, and then nothing waits. What is at hand stays so.
    ///
    /// An error comes of one failed call of the writer: a prefix went out that is not all of it.
    pub(crate) fn write<W: Sink>(&mut self, writer: &mut W) -> Result<(), Failed>
        ensures written { OnOk result
            (Appends (W.contents writer.old) (W.contents writer.new) self.old.text) }
        ensures none_wait { OnOk result (self.new.text ≡ []) }
        ensures held { self.new.held ≡ self.old.held }
        ensures fails { FailsWithin result (W.contents writer.old) (W.contents writer.new)
            (W.failed_calls writer.old) (W.failed_calls writer.new) self.old.text }
    {
        write_all(writer, &self.lines)?;
        if self.waits {
            self.file.write(writer)?;
        }
        self.lines.clear();
        self.waits = false;
        Ok(())
    }
}
